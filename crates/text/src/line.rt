// Lines and their keys. A line keeps its LF, a key its `=`.
ghost use Rattle.std.specs.Prelude.{◌≡◌, [], drop, get_or};
ghost use Rattle.text.specs.Lists.{listed_as};
ghost use Rattle.text.specs.Lines.{keyed, line_len, lines_of, list_line, number_line, value_of};

use crate::decimal::read_number;
use crate::list::read_list;
use crate::places::place;
use crate::{Kind, LF};
use entries::Places;
use rules::BATCH_MOST;

// The length of the first line, its LF included.
fn line_len(s: &[u8]) -> usize
    ensures { result ≡ line_len s.now }
{
    let k = place(s, LF);
    if k < s.len() { k + 1 } else { s.len() }
}

// The first line, as that part of the text; empty where there is none.
pub fn first_line(s: &[u8]) -> &[u8]
    ensures { result.now ≡ get_or (lines_of s.now) 0 [] }
{
    let size = line_len(s);
    &s[..size]
}

// What follows the first k lines, as that part of the text.
pub fn past_lines(s: &[u8], k: usize) -> &[u8]
    ensures { lines_of result.now ≡ drop k (lines_of s.now) }
{
    let mut rest = s;
    for _ in 0..k {
        if rest.is_empty() {
            return rest;
        }
        rest = &rest[line_len(rest)..];
    }
    rest
}

// Whether the line starts with the key and ends with LF.
pub fn keyed(line: &[u8], key: &[u8]) -> bool
    ensures { result ≡ keyed key.now line.now }
{
    key.len() < line.len() && line.starts_with(key) && line[line.len() - 1] == LF
}

// What stands between the key and the LF, as that part of the line.
pub fn value<'a>(line: &'a [u8], key: &[u8]) -> &'a [u8]
    ensures { result.now ≡ value_of key.now line.now }
{
    let k = key.len();
    if line.len() <= k {
        return &line[..0];
    }
    let end = line.len() - 1;
    &line[k..end]
}

// A line key=number.
pub fn line_number(line: &[u8], key: &[u8], most: u32) -> Option<u64>
    ensures { result ≡ number_line key.now most line.now }
{
    if !keyed(line, key) {
        return None;
    }
    read_number(value(line, key), most)
}

// A line key=list.
pub fn line_list(line: &[u8], key: &[u8], kind: Kind) -> Option<Places<BATCH_MOST>>
    ensures { result ≡ listed_as (list_line key.now kind line.now) }
{
    if !keyed(line, key) {
        return None;
    }
    read_list(kind, value(line, key))
}
