// Witness masks.
ghost use Rattle.std.specs.Prelude.{◌≡◌, not, ◌^◌, leb};

use rules::NODES_MOST;

// Whether the mask has no bit n or above.
pub(crate) fn fits(n: usize, mask: u16) -> bool
    ensures { result ≡ not (leb (2 ^ n) mask) }
{
    NODES_MOST <= n || (mask as u32) < (1u32 << n)
}
