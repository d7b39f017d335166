// Places of bytes.
ghost use Rattle.std.specs.Prelude.{◌≡◌};
ghost use Rattle.text.specs.Places.{past, place_of};

// Where the first byte c stands; the length where there is none.
pub(crate) fn place(s: &[u8], c: u8) -> usize
    ensures { result ≡ place_of c s.now }
{
    s.iter().position(|b| *b == c).unwrap_or(s.len())
}

// What stands after the first byte c, as that part of the text.
pub fn past(s: &[u8], c: u8) -> &[u8]
    ensures { result.now ≡ past c s.now }
{
    let k = place(s, c);
    if s.len() <= k {
        return &s[k..];
    }
    &s[k + 1..]
}
