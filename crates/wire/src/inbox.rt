// The cut of an inbox.
ghost use Rattle.std.specs.Prelude.{◌≡◌, true, ◌*◌, ◌^◌, ◌<◌};
ghost use Rattle.laws.specs.Masks.{as_bit};
ghost use Rattle.rules.specs.Sizes.{sized};
ghost use Rattle.wire.specs.Inbox.{is_unreadable, MessageAt, ReadInbox};

use crate::{LENGTH_SIZE, Span, read_message};
use rules::{Refusal, is_sized};

// Where the message stands whose length stands at `at`.
pub fn message_at(inbox: &[u8], at: usize) -> Result<Span, Refusal>
    ensures { MessageAt inbox.now at result }
{
    let Some([low, high, rest @ ..]) = inbox.get(at..) else {
        return Err(Refusal::IllCut);
    };
    let length = u16::from_le_bytes([*low, *high]) as usize;
    if rest.len() < length {
        return Err(Refusal::IllCut);
    }
    let start = at + LENGTH_SIZE;
    Ok(Span {
        start,
        end: start + length,
    })
}

// The sender's bit where its message is unreadable and it is not the node itself, else 0.
#[tactic(auto, unfolding(rules::specs::Sizes::sized))]
fn sender_bit(n: usize, me: usize, sender: usize, message: &[u8]) -> u16
    requires { (sized n ≡ true) × (sender < n) }
    ensures { result ≡ as_bit (is_unreadable n me sender message.now) * 2 ^ sender }
{
    if sender == me {
        return 0;
    }
    match read_message(n, message) {
        Ok(None) => 1u16 << sender,
        Ok(Some(_)) | Err(_) => 0,
    }
}

// The senders whose message is unreadable. Each message is read from its own place in the inbox.
pub fn read_inbox(n: usize, me: usize, inbox: &[u8]) -> Result<u16, Refusal>
    ensures { ReadInbox n me inbox.now result }
{
    if !is_sized(n) || n <= me {
        return Err(Refusal::Sizes);
    }
    let mut unreadable: u16 = 0;
    let mut at: usize = 0;
    for sender in 0..n {
        let place = message_at(inbox, at)?;
        unreadable += sender_bit(n, me, sender, &inbox[place.start..place.end]);
        at = place.end;
    }
    if at < inbox.len() {
        return Err(Refusal::IllCut);
    }
    Ok(unreadable)
}
