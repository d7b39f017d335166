// Writing over the front of an output that has room for the whole text. By parts and no Display: a text is written whole or not at all, into lent memory, and there is no heap.
ghost use Rattle.std.specs.Prelude.{◌≡◌, [], ◌++◌, ◌∷◌, ◌≤◌, length};
ghost use Rattle.laws.specs.Parts.{onto};
ghost use Rattle.text.specs.Places.{comma, lf};
ghost use Rattle.print.specs.Texts.{decimal_of, entry_text, item_text, line_text, list_text, low_text, more_text};

use crate::Items;
use itoa::Buffer;
use text::{COMMA, DOT, LF};

// The bytes as they are.
pub(crate) fn bytes(output: &mut [u8], s: &[u8]) -> usize
    requires { length s.now ≤ length output.old }
    ensures { (result ≡ length s.now) × (output.new ≡ onto s.now output.old) }
{
    output[..s.len()].copy_from_slice(s);
    s.len()
}

// A number, and a byte after it.
fn number_then(output: &mut [u8], v: u64, b: u8) -> usize
    requires { length (decimal_of v ++ (b ∷ [])) ≤ length output.old }
    ensures { (result ≡ length (decimal_of v ++ (b ∷ []))) × (output.new ≡ onto (decimal_of v ++ (b ∷ [])) output.old) }
{
    let k = number(output, v);
    output[k] = b;
    k + 1
}

// A number in decimal.
fn number(output: &mut [u8], v: u64) -> usize
    requires { length (decimal_of v) ≤ length output.old }
    ensures { (result ≡ length (decimal_of v)) × (output.new ≡ onto (decimal_of v) output.old) }
{
    bytes(output, Buffer::new().format(v).as_bytes())
}

// interval.watthours
fn low(output: &mut [u8], x: u64) -> usize
    requires { length (low_text x) ≤ length output.old }
    ensures { (result ≡ length (low_text x)) × (output.new ≡ onto (low_text x) output.old) }
{
    let a = number_then(output, x / 4294967296 % 65536, DOT);
    let b = number(&mut output[a..], x % 4294967296);
    a + b
}

// meter.interval.watthours
fn entry(output: &mut [u8], x: u64) -> usize
    requires { length (entry_text x) ≤ length output.old }
    ensures { (result ≡ length (entry_text x)) × (output.new ≡ onto (entry_text x) output.old) }
{
    let a = number_then(output, x / 281474976710656, DOT);
    let b = low(&mut output[a..], x);
    a + b
}

// An item of a list.
fn item(output: &mut [u8], kind: Items, x: u64) -> usize
    requires { length (item_text kind x) ≤ length output.old }
    ensures { (result ≡ length (item_text kind x)) × (output.new ≡ onto (item_text kind x) output.old) }
{
    match kind {
        Items::Nodes => number(output, x),
        Items::Entries => entry(output, x),
    }
}

// A comma, and an item after it.
fn more(output: &mut [u8], kind: Items, x: u64) -> usize
    requires { length (comma ∷ item_text kind x) ≤ length output.old }
    ensures { (result ≡ length (comma ∷ item_text kind x)) × (output.new ≡ onto (comma ∷ item_text kind x) output.old) }
{
    output[0] = COMMA;
    let k = item(&mut output[1..], kind, x);
    1 + k
}

// Items, each with a comma before it.
fn all_more(output: &mut [u8], kind: Items, xs: &[u64]) -> usize
    requires { length (more_text kind xs.now) ≤ length output.old }
    ensures { (result ≡ length (more_text kind xs.now)) × (output.new ≡ onto (more_text kind xs.now) output.old) }
{
    let mut at = 0;
    for x in xs {
        at += more(&mut output[at..], kind, *x);
    }
    at
}

// Items by commas.
fn list(output: &mut [u8], kind: Items, xs: &[u64]) -> usize
    requires { length (list_text kind xs.now) ≤ length output.old }
    ensures { (result ≡ length (list_text kind xs.now)) × (output.new ≡ onto (list_text kind xs.now) output.old) }
{
    let Some((first, others)) = xs.split_first() else {
        return 0;
    };
    let a = item(output, kind, *first);
    let b = all_more(&mut output[a..], kind, others);
    a + b
}

// Items by commas, and LF.
fn list_then_lf(output: &mut [u8], kind: Items, xs: &[u64]) -> usize
    requires { length (list_text kind xs.now ++ (lf ∷ [])) ≤ length output.old }
    ensures { (result ≡ length (list_text kind xs.now ++ (lf ∷ []))) × (output.new ≡ onto (list_text kind xs.now ++ (lf ∷ [])) output.old) }
{
    let k = list(output, kind, xs);
    output[k] = LF;
    k + 1
}

// A line key=number.
pub(crate) fn number_line(output: &mut [u8], key: &[u8], v: u64) -> usize
    requires { length (line_text key.now (decimal_of v)) ≤ length output.old }
    ensures { (result ≡ length (line_text key.now (decimal_of v))) × (output.new ≡ onto (line_text key.now (decimal_of v)) output.old) }
{
    let a = bytes(output, key);
    let b = number_then(&mut output[a..], v, LF);
    a + b
}

// A line key=list.
pub(crate) fn list_line(output: &mut [u8], key: &[u8], kind: Items, xs: &[u64]) -> usize
    requires { length (line_text key.now (list_text kind xs.now)) ≤ length output.old }
    ensures { (result ≡ length (line_text key.now (list_text kind xs.now))) × (output.new ≡ onto (line_text key.now (list_text kind xs.now)) output.old) }
{
    let a = bytes(output, key);
    let b = list_then_lf(&mut output[a..], kind, xs);
    a + b
}
