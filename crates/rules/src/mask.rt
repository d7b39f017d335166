// Masks of nodes.
ghost use Rattle.std.specs.Prelude.{◌≡◌, eqb};
ghost use Rattle.laws.specs.Masks.{bit};

use crate::NODES_MOST;

// Whether a mask has node j's bit: it has no bit 16 or above.
pub fn has_bit(mask: u16, j: usize) -> bool
    ensures { result ≡ eqb (bit mask j) 1 }
{
    j < NODES_MOST && (mask >> j) % 2 == 1
}
