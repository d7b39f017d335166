// The slots: a correct node's speaks with its mark, a faulty one's is silent.
ghost use Rattle.std.specs.Prelude.{◌≡◌, ◌*◌, ◌<◌, ◌≤◌, get_or, length};
ghost use Rattle.laws.specs.Parts.{onto};
ghost use Rattle.rules.specs.Sizes.{nodes_most};
ghost use Rattle.signing.specs.Slots.{slot_size};
ghost use Rattle.outcome.specs.Marks.{mark_with};
ghost use Rattle.outcome.specs.Spoken.{slot_with, slots_with};
ghost use Rattle.outcome.specs.Signing.{has_bit};

use header::Header;
use rules::NODES_MOST;
use signing::SLOT_SIZE;

// The slot of a node, by the number of its log.
fn slot_of(faulty: bool, number: u8) -> [u8; SLOT_SIZE]
    ensures { result ≡ slot_with faulty (mark_with number) }
{
    let mut slot = [0u8; SLOT_SIZE];
    if !faulty {
        slot[0] = 1;
        slot[1] = number;
    }
    slot
}

// The slots of n nodes, by the numbers of their logs; how many bytes they are.
pub(crate) fn put_slots(header: Header, numbers: [u8; NODES_MOST], output: &mut [u8]) -> usize
    requires { (header.n ≤ nodes_most) × (slot_size * header.n ≤ length output.old) }
    ensures { (result ≡ slot_size * header.n) × (output.new ≡ onto (slots_with (has_bit header.faulty) (λ j. mark_with (get_or numbers j 0)) header.n) output.old) }
{
    for j in 0..header.n {
        let slot = slot_of(header.is_faulty(j), numbers[j]);
        output[SLOT_SIZE * j..SLOT_SIZE * (j + 1)].copy_from_slice(&slot);
    }
    SLOT_SIZE * header.n
}
