// How many bytes a text has.
ghost use Rattle.std.specs.Prelude.{◌≡◌, ◌≤◌, leb, length};
ghost use Rattle.print.specs.Texts.{decimal_of, item_text, list_text, more_text};

use crate::Items;

// The digits of a number.
pub(crate) fn number_size(v: u64) -> usize
    ensures { (result ≡ length (decimal_of v)) × (result ≤ 20) }
{
    match v.checked_ilog10() {
        Some(power) => power as usize + 1,
        None => 1,
    }
}

// The bytes of an item.
fn item_size(kind: Items, x: u64) -> usize
    ensures { (result ≡ length (item_text kind x)) × (result ≤ 62) }
{
    match kind {
        Items::Nodes => number_size(x),
        Items::Entries => {
            let meter = number_size(x / 281474976710656);
            let interval = number_size(x / 4294967296 % 65536);
            meter + 1 + (interval + 1 + number_size(x % 4294967296))
        }
    }
}

// Whether items, each with a comma before it, have no more bytes than there is room for.
fn more_fits(kind: Items, xs: &[u64], room: usize) -> bool
    ensures { result ≡ leb (length (more_text kind xs.now)) room }
{
    let mut left = room;
    for x in xs {
        let size = 1 + item_size(kind, *x);
        if left < size {
            return false;
        }
        left -= size;
    }
    true
}

// Whether a list has no more bytes than there is room for.
pub(crate) fn list_fits(kind: Items, xs: &[u64], room: usize) -> bool
    ensures { result ≡ leb (length (list_text kind xs.now)) room }
{
    let Some((first, others)) = xs.split_first() else {
        return true;
    };
    let size = item_size(kind, *first);
    size <= room && more_fits(kind, others, room - size)
}
