// The form of the whole file, line by line; each function is handed the rest of it.
ghost use Rattle.std.specs.Prelude.{◌≡◌, ◌+◌, ◌≤◌};
ghost use Rattle.rules.specs.Sizes.{nodes_most};
ghost use Rattle.text.specs.Lines.{lines_of};
ghost use Rattle.header.specs.Header.{header_size};
ghost use Rattle.schedule.specs.Forms.{form_of, form_sends, form_trays, is_end, is_tray};

use crate::SCHEDULE_MOST;
use crate::sends::send_rank;
use header::{BadLine, HEADER_SIZE, Header, read_header};
use text::Kind;

// `end=` empty.
fn is_end(line: &[u8]) -> bool
    ensures { result ≡ is_end line.now }
{
    text::keyed(line, b"end=") && line.len() == 5
}

// A line `tray` with its entries.
fn is_tray(line: &[u8]) -> bool
    ensures { result ≡ is_tray line.now }
{
    text::line_list(line, b"tray=", Kind::Entry).is_some()
}

// The lines after the trays: sends in ascending order, then the end, then nothing.
fn form_sends(h: Header, s: &[u8]) -> Result<Header, BadLine>
    requires { h.n ≤ nodes_most }
    ensures { result ≡ form_sends h (header_size + 1 + h.n) 0 (lines_of s.now) }
{
    let mut k = HEADER_SIZE + 1 + h.n;
    let mut last = 0;
    let mut rest = s;
    // By lines, each as long as it says; k is the number of the line in hand, which the answer tells.
    while !rest.is_empty() {
        let line = text::first_line(rest);
        let after = &rest[line.len()..];
        if is_end(line) {
            return if after.is_empty() {
                Ok(h)
            } else {
                Err(BadLine(k + 1))
            };
        }
        let rank = send_rank(h, line).ok_or(BadLine(k))?;
        if rank <= last {
            return Err(BadLine(k));
        }
        last = rank;
        rest = after;
        k += 1;
    }
    Err(BadLine(k))
}

// The lines after the header: n tray lines, then sends.
fn form_trays(h: Header, s: &[u8]) -> Result<Header, BadLine>
    requires { h.n ≤ nodes_most }
    ensures { result ≡ form_trays h (header_size + 1) h.n (lines_of s.now) }
{
    let mut rest = s;
    for i in 0..h.n {
        let line = text::first_line(rest);
        if !is_tray(line) {
            return Err(BadLine(HEADER_SIZE + 1 + i));
        }
        rest = &rest[line.len()..];
    }
    form_sends(h, rest)
}

// The header, or the first bad line.
pub fn check_form(s: &[u8]) -> Result<Header, BadLine>
    ensures { result ≡ form_of s.now }
{
    if SCHEDULE_MOST < s.len() {
        return Err(BadLine(0));
    }
    form_trays(read_header(s)?, text::past_lines(s, HEADER_SIZE))
}
