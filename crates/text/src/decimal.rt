// Decimal numbers and entries.
#![tactic(auto, unfolding(crate::specs::Numbers::digit_of))]

ghost use Rattle.std.specs.Prelude.{◌≡◌, ◌≤◌};
ghost use Rattle.text.specs.Numbers.{digit_in, entry_in, field_of, leading_zero, number_in};

use crate::places::{past, place};
use crate::{DOT, HALF_MOST, WORD_MOST};

// A digit below the base: `0` to `9`, then `a` to `f`.
pub(crate) fn digit(b: u8, base: u64) -> Option<u64>
    requires { base ≤ 16 }
    ensures { result ≡ digit_in base b }
{
    let value = match b {
        b'0'..=b'9' => (b - b'0') as u64,
        b'a'..=b'f' => (b - b'a') as u64 + 10,
        _ => return None,
    };
    if value < base { Some(value) } else { None }
}

// Whether a zero stands first with more after it.
fn leading_zero(s: &[u8]) -> bool
    ensures { result ≡ leading_zero s.now }
{
    2 <= s.len() && s[0] == b'0'
}

// A decimal number without leading zeros, at most `most`. Nothing wraps, however long it is: it is left off as soon as it is above.
pub(crate) fn read_number(s: &[u8], most: u32) -> Option<u64>
    ensures { result ≡ number_in most s.now }
{
    if s.is_empty() || leading_zero(s) {
        return None;
    }
    let mut v: u64 = 0;
    for b in s {
        v = v * 10 + digit(*b, 10)?;
        if (most as u64) < v {
            return None;
        }
    }
    Some(v)
}

// The number before the first byte `sep`.
pub fn read_field(s: &[u8], sep: u8, most: u32) -> Option<u64>
    ensures { result ≡ field_of sep most s.now }
{
    let k = place(s, sep);
    if s.len() <= k {
        return None;
    }
    read_number(&s[..k], most)
}

// meter.interval.watthours
pub(crate) fn read_entry(s: &[u8]) -> Option<u64>
    ensures { result ≡ entry_in s.now }
{
    let meter = read_field(s, DOT, HALF_MOST)?;
    let low = past(s, DOT);
    let interval = read_field(low, DOT, HALF_MOST)?;
    let watthours = read_number(past(low, DOT), WORD_MOST)?;
    Some(meter * 281474976710656 + interval * 4294967296 + watthours)
}
