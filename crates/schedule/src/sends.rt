// A send: its line, and whether it fits.
#![tactic(auto, unfolding(crate::specs::Sends::fitting))]

ghost use Rattle.std.specs.Prelude.{◌≡◌, unwrap_or};
ghost use Rattle.text.specs.Lines.{value_of};
ghost use Rattle.schedule.specs.Keys.{send_key};
ghost use Rattle.schedule.specs.Sends.{fitting, message_text, rank_in, send_in, send_of, sending_as};

use crate::Send;
use header::Header;
use rules::NODES_MOST;
use text::{COMMA, WORD_MOST};

// round,from,to,message
fn read_value(v: &[u8]) -> Option<Send>
    ensures { result ≡ sending_as (send_in v.now) }
{
    let round = text::read_field(v, COMMA, WORD_MOST)? as usize;
    let after = text::past(v, COMMA);
    let from = text::read_field(after, COMMA, WORD_MOST)? as usize;
    let to = text::read_field(text::past(after, COMMA), COMMA, WORD_MOST)? as usize;
    Some(Send { round, from, to })
}

// The send in a line.
pub fn read_send(line: &[u8]) -> Option<Send>
    ensures { result ≡ sending_as (send_of line.now) }
{
    if !text::keyed(line, b"send=") {
        return None;
    }
    read_value(text::value(line, b"send="))
}

// The text of the message of a send's line, as that part of the line.
pub fn message_text(line: &[u8]) -> &[u8]
    ensures { result.now ≡ message_text (value_of send_key line.now) }
{
    let v = text::value(line, b"send=");
    let after = text::past(v, COMMA);
    text::past(text::past(after, COMMA), COMMA)
}

// Round 1 to f + 1, from faulty, to correct, message of 1 to 3,960 bytes.
fn is_fitting(h: Header, send: Send, size: usize) -> bool
    ensures { result ≡ fitting h send.round send.from send.to size }
{
    1 <= send.round
        && send.round - 1 <= h.f
        && h.is_faulty(send.from)
        && send.to < h.n
        && !h.is_faulty(send.to)
        && 1 <= size
        && size <= wire::MESSAGE_MOST
}

// The place of a line's send in the order by round, from, to; none for anything but a send that fits.
pub(crate) fn send_rank(h: Header, line: &[u8]) -> Option<usize>
    ensures { unwrap_or result 0 ≡ rank_in h (send_of line.now) }
{
    let send = read_send(line)?;
    if !is_fitting(h, send, text::hex_size(message_text(line))) {
        return None;
    }
    Some((send.round * NODES_MOST + send.from) * NODES_MOST + send.to)
}
