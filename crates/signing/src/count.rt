// Counting the signers of a mark.
ghost use Rattle.std.specs.Prelude.{◌≡◌, ◌*◌, ◌/◌, ◌≤◌, length};
ghost use Rattle.rules.specs.Sizes.{nodes_most};
ghost use Rattle.rules.specs.Signers.{signer, signers_of, enough};
ghost use Rattle.signing.specs.Slots.{slot_size, are_slots, slot_in, slot_of};
ghost use Rattle.signing.specs.Count.{SignersAre};

use crate::slot::speaks_with;
use crate::{MARK_SIZE, SLOT_SIZE};
use rules::{Refusal, are_sizes};

// Whether node j is a signer: the node itself, or another whose slot speaks with an equal mark. The own slot is not read.
#[tactic(auto, unfolding(rules::specs::Signers::signer))]
fn is_signer(me: usize, mark: &[u8; MARK_SIZE], j: usize, slot: &[u8; SLOT_SIZE]) -> bool
    ensures { result ≡ signer me mark.now (λ _. slot_in slot.now) j }
{
    j == me || speaks_with(slot, mark)
}

// The mask of the signers of the mark.
fn signers_mask(me: usize, mark: &[u8; MARK_SIZE], slots: &[u8]) -> u16
    requires { length slots.now ≤ slot_size * nodes_most }
    ensures { result ≡ signers_of (length slots.now / slot_size) me mark.now (slot_of slots.now) }
{
    let mut mask: u16 = 0;
    for (j, slot) in slots.as_chunks::<SLOT_SIZE>().0.iter().enumerate() {
        mask += u16::from(is_signer(me, mark, j, slot)) << j;
    }
    mask
}

// Whether these are n slots.
fn are_slots(n: usize, slots: &[u8]) -> bool
    requires { n ≤ nodes_most }
    ensures { result ≡ are_slots n slots.now }
{
    slots.len() == SLOT_SIZE * n
}

// Whether f + 1 or more bits of the mask are set.
#[tactic(auto, unfolding(rules::specs::Signers::enough))]
fn are_enough(f: usize, mask: u16) -> bool
    requires { f ≤ nodes_most }
    ensures { result ≡ enough f mask }
{
    f + 1 <= mask.count_ones() as usize
}

// The signers of the own mark among n slots: f + 1 or more, or a refusal.
#[tactic(auto, using(rules::proofs::Answers::refuses, rules::proofs::Answers::answers, rules::proofs::Sizes::sizes_told), unfolding(crate::specs::Count::signers_number))]
pub fn signers(
    n: usize,
    f: usize,
    me: usize,
    mark: &[u8; MARK_SIZE],
    slots: &[u8],
) -> Result<u16, Refusal>
    ensures { SignersAre n f me mark.now slots.now result }
{
    if !are_sizes(n, f, me) {
        return Err(Refusal::Sizes);
    }
    if !are_slots(n, slots) {
        return Err(Refusal::IllCut);
    }
    let mask = signers_mask(me, mark, slots);
    if !are_enough(f, mask) {
        return Err(Refusal::FewSigners);
    }
    Ok(mask)
}
