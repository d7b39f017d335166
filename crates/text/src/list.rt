// Lists by commas.
ghost use Rattle.std.specs.Prelude.{◌≡◌, ◌||◌, eqb, ltb};
ghost use Rattle.text.specs.Lists.{item_of, list_of, listed_as};

use crate::decimal::{read_entry, read_number};
use crate::{COMMA, Kind, WORD_MOST};
use entries::Places;
use rules::BATCH_MOST;

// An item: a number below so much, or an entry.
fn read_item(kind: Kind, s: &[u8]) -> Option<u64>
    ensures { result ≡ item_of kind s.now }
{
    match kind {
        Kind::Below(n) => read_number(s, WORD_MOST).filter(|v| *v < n as u64),
        Kind::Entry => read_entry(s),
    }
}

// Whether x may follow `last`, the last of `count` items.
fn follows(count: usize, last: u64, x: u64) -> bool
    ensures { result ≡ (eqb count 0 || ltb last x) }
{
    count == 0 || last < x
}

// Ascending items by commas, or empty; at most 16.
pub(crate) fn read_list(kind: Kind, s: &[u8]) -> Option<Places<BATCH_MOST>>
    ensures { result ≡ listed_as (list_of kind s.now) }
{
    if s.is_empty() {
        return Some(Places::none());
    }
    let mut count = 0;
    let mut entries = [0; BATCH_MOST];
    let mut last = 0;
    for part in s.split(|b| *b == COMMA) {
        let x = read_item(kind, part)?;
        if count == BATCH_MOST || !follows(count, last, x) {
            return None;
        }
        entries[count] = x;
        count += 1;
        last = x;
    }
    Some(Places { count, entries })
}
