// The inbox of a node in a round: what each node sends it, after its length.
#![tactic(auto)]

ghost use Rattle.std.specs.Prelude.{◌≡◌, [], ◌∷◌, ◌+◌, length};
ghost use Rattle.laws.specs.Parts.{onto};
ghost use Rattle.wire.specs.Sizes.{length_size, message_most};
ghost use Rattle.wire.specs.Inbox.{inbox_bytes};
ghost use Rattle.inboxes.specs.Inboxes.{PutInbox, message_to, sent_in};

use header::Header;
use rules::NODES_MOST;
use schedule::Send;
use wire::{LENGTH_SIZE, MESSAGE_MOST};

// Bytes of a message after its length, at most.
const SLOT_MOST: usize = LENGTH_SIZE + MESSAGE_MOST;

// Bytes of an inbox, at most.
pub const INBOX_MOST: usize = NODES_MOST * SLOT_MOST;

// What a node sends: its first `size` bytes. A size beside an array, and no ArrayVec: where a run stands is Copy, and an ArrayVec is not.
#[derive(Clone, Copy)]
pub struct Outbox {
    pub size: usize,
    pub bytes: [u8; MESSAGE_MOST],
}

impl Outbox {
    // The message; nothing where the size says more than there are places.
    fn message(&self) -> &[u8]
        ensures { result.now ≡ sent_in self.now }
    {
        self.bytes.get(..self.size).unwrap_or(&[])
    }
}

// A node's post in a round: the schedule, which starts with this header, the round and the node.
#[derive(Clone, Copy)]
struct Post<'a> {
    s: &'a [u8],
    header: Header,
    r: usize,
    i: usize,
}

impl Post<'_> {
    // What node j hands over, over the front of an output with room for one message; its size.
    fn put_message(&self, j: usize, its: &Outbox, output: &mut [u8]) -> usize
        requires { length output.old ≡ message_most }
        ensures { (result ≡ length (message_to self.now.s.now self.now.header.faulty self.now.r self.now.i j its.now))
            × (output.new ≡ onto (message_to self.now.s.now self.now.header.faulty self.now.r self.now.i j its.now) output.old) }
    {
        if j == self.i {
            return 0;
        }
        if self.header.is_faulty(j) {
            let send = Send {
                round: self.r,
                from: j,
                to: self.i,
            };
            return contents::message_into(self.s, send, output);
        }
        let message = its.message();
        let size = message.len();
        output[..size].copy_from_slice(message);
        size
    }

    // The same after its length.
    fn put_slot(&self, j: usize, its: &Outbox, output: &mut [u8]) -> usize
        requires { length output.old ≡ length_size + message_most }
        ensures { (result ≡ length (inbox_bytes (message_to self.now.s.now self.now.header.faulty self.now.r self.now.i j its.now ∷ [])))
            × (output.new ≡ onto (inbox_bytes (message_to self.now.s.now self.now.header.faulty self.now.r self.now.i j its.now ∷ [])) output.old) }
    {
        let (length, rest) = output.split_at_mut(LENGTH_SIZE);
        let size = self.put_message(j, its, rest);
        length.copy_from_slice(&(size as u16).to_le_bytes());
        LENGTH_SIZE + size
    }
}

// The inbox of node i in round r, over the front of what is lent, if that has room for the longest; its size.
pub fn put_inbox(
    s: &[u8],
    header: Header,
    r: usize,
    i: usize,
    outboxes: &[Outbox; NODES_MOST],
    inbox: &mut [u8],
) -> usize
    ensures { PutInbox s.now header.n header.faulty r i outboxes.now inbox.old result inbox.new }
{
    if NODES_MOST < header.n || inbox.len() < INBOX_MOST {
        return 0;
    }
    let post = Post { s, header, r, i };
    let mut at = 0;
    for (j, its) in outboxes[..header.n].iter().enumerate() {
        let end = at + SLOT_MOST;
        at += post.put_slot(j, its, &mut inbox[at..end]);
    }
    at
}
