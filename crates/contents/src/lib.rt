// What a schedule holds: its faulty nodes, its trays and its sends, each read from the schedule's bytes when it is asked for.
#![tactic(auto)]

ghost use Rattle.std.specs.Prelude.{◌≡◌, length};
ghost use Rattle.laws.specs.Masks.{mask_of};
ghost use Rattle.rules.specs.Sizes.{nodes_most};
ghost use Rattle.text.specs.Hex.{hex_of};
ghost use Rattle.text.specs.Put.{Put};
ghost use Rattle.tray.specs.Trays.{tray_of};
ghost use Rattle.contents.specs.Contents.{entries_of_tray, header_of, is_faulty, message_for, sending_at, sends_of};

mod sends;

use entries::Places;
use header::{HEADER_SIZE, Header};
use schedule::Send;
use sends::Sends;
use text::Kind;
use tray::Tray;

// The header; one of zeros where a header line is bad.
fn header_of(s: &[u8]) -> Header
    ensures { result ≡ header_of s.now }
{
    header::read_header(s).unwrap_or(Header {
        n: 0,
        f: 0,
        faulty: 0,
    })
}

// The mask of the faulty nodes.
pub fn faulty_mask(s: &[u8]) -> u16
    ensures { result ≡ mask_of (is_faulty s.now) nodes_most }
{
    header_of(s).faulty
}

// The tray of line i of the tray lines, counted from 0.
pub fn tray_of(s: &[u8], i: usize) -> Tray
    ensures { result ≡ tray_of (entries_of_tray s.now i) }
{
    let line = text::first_line(text::past_lines(text::past_lines(s, HEADER_SIZE), i));
    let list = text::line_list(line, b"tray=", Kind::Entry).unwrap_or(Places::none());
    let entries = list.entries;
    Tray {
        count: list.count,
        entries,
    }
}

// How many sends there are.
pub fn send_count(s: &[u8]) -> usize
    ensures { result ≡ length (sends_of s.now) }
{
    Sends::of(s).count()
}

// The k-th send, counted from 0; none where there are fewer.
pub fn send_at(s: &[u8], k: usize) -> Option<Send>
    ensures { result ≡ sending_at (sends_of s.now) k }
{
    let (send, _) = Sends::of(s).nth(k)?;
    Some(send)
}

// The text of a send's message, as that part of the schedule; empty where there is no such send.
fn message_text(s: &[u8], send: Send) -> &[u8]
    ensures { hex_of result.now ≡ message_for s.now send.round send.from send.to }
{
    match Sends::of(s).find(|sent| sent.0 == send) {
        Some((_, text)) => text,
        None => &s[..0],
    }
}

// The bytes of a send's message, over the front of the output if there is room; how many were written.
pub fn message_into(s: &[u8], send: Send, output: &mut [u8]) -> usize
    ensures { Put (message_for s.now send.round send.from send.to) output.old result output.new }
{
    text::hex_into(message_text(s, send), output)
}
