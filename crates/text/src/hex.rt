// Lower-case hex.
ghost use Rattle.std.specs.Prelude.{◌≡◌, true, ◌*◌, ◌≤◌, length};
ghost use Rattle.laws.specs.Parts.{onto};
ghost use Rattle.text.specs.Hex.{hex_of, is_hex, pairs_of};
ghost use Rattle.text.specs.Numbers.{digits_below};
ghost use Rattle.text.specs.Put.{Put};

use crate::decimal::digit;

// Whether all bytes are hex digits.
fn are_digits(s: &[u8]) -> bool
    ensures { result ≡ digits_below 16 s.now }
{
    s.iter().all(|b| digit(*b, 16).is_some())
}

// Whether the text is pairs of lower-case hex digits.
fn is_hex(s: &[u8]) -> bool
    ensures { result ≡ is_hex s.now }
{
    s.len() % 2 == 0 && are_digits(s)
}

// How many bytes the text says in hex; 0 where it is no hex.
pub fn hex_size(s: &[u8]) -> usize
    ensures { result ≡ length (hex_of s.now) }
{
    if is_hex(s) { s.len() / 2 } else { 0 }
}

// The bytes that pairs of digits say, over the front of the output.
fn pairs_into(s: &[u8], output: &mut [u8]) -> usize
    requires { (length s.now ≤ 2 * length output.old) × (digits_below 16 s.now ≡ true) }
    ensures { (result ≡ length (pairs_of s.now)) × (output.new ≡ onto (pairs_of s.now) output.old) }
{
    for (i, pair) in s.chunks_exact(2).enumerate() {
        let high = digit(pair[0], 16).unwrap();
        let low = digit(pair[1], 16).unwrap();
        output[i] = (high * 16 + low) as u8;
    }
    s.len() / 2
}

// The bytes that the text says in hex, over the front of the output if there is room; how many were written.
pub fn hex_into(s: &[u8], output: &mut [u8]) -> usize
    ensures { Put (hex_of s.now) output.old result output.new }
{
    if !is_hex(s) || output.len() < s.len() / 2 {
        return 0;
    }
    pairs_into(s, output)
}
