// A number of two bytes.
ghost use Rattle.std.specs.Prelude.{◌≡◌, ◌+◌, ◌*◌, ◌<◌, length, get_or};

// The number in the two bytes from `at` on, low byte first.
pub(crate) fn pair_at(bytes: &[u8], at: usize) -> u16
    requires { at + 1 < length bytes.now }
    ensures { result ≡ get_or bytes.now at 0 + 256 * get_or bytes.now (at + 1) 0 }
{
    u16::from_le_bytes([bytes[at], bytes[at + 1]])
}
