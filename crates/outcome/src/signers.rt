// The signers of each node's log.
ghost use Rattle.std.specs.Prelude.{◌≡◌, ◌≤◌, get_or};
ghost use Rattle.rules.specs.Sizes.{nodes_most};
ghost use Rattle.outcome.specs.Marks.{mark_with};
ghost use Rattle.outcome.specs.Spoken.{slots_with};
ghost use Rattle.outcome.specs.Signing.{counted_with, has_bit};
ghost use Rattle.outcome.specs.Held.{AllCounted};

use crate::slots;
use header::Header;
use rules::NODES_MOST;
use signing::{MARK_SIZE, SLOT_SIZE};

// The mark of a log, by its number.
fn mark_of(number: u8) -> [u8; MARK_SIZE]
    ensures { result ≡ mark_with number }
{
    let mut mark = [0u8; MARK_SIZE];
    mark[0] = number;
    mark
}

// The mask of the signers of node i's mark, by the number of its log; 0 where the count is refused.
fn counted(header: Header, i: usize, number: u8, slots: &[u8]) -> u16
    ensures { result ≡ counted_with header.n header.f i (mark_with number) slots.now }
{
    let mark = mark_of(number);
    signing::signers(header.n, header.f, i, &mark, slots).unwrap_or(0)
}

// The masks of n nodes, by the numbers of their logs, in these slots.
fn count_each(header: Header, numbers: [u8; NODES_MOST], slots: &[u8]) -> [u16; NODES_MOST]
    requires { header.n ≤ nodes_most }
    ensures { AllCounted header.n header.f (λ j. mark_with (get_or numbers j 0)) slots.now header.n result }
{
    let mut masks = [0u16; NODES_MOST];
    for i in 0..header.n {
        masks[i] = counted(header, i, numbers[i], slots);
    }
    masks
}

// The same in the slots that those nodes speak by.
pub(crate) fn count_all(header: Header, numbers: [u8; NODES_MOST]) -> [u16; NODES_MOST]
    requires { header.n ≤ nodes_most }
    ensures { AllCounted header.n header.f (λ j. mark_with (get_or numbers j 0)) (slots_with (has_bit header.faulty) (λ j. mark_with (get_or numbers j 0)) header.n) header.n result }
{
    let mut spoken = [0u8; NODES_MOST * SLOT_SIZE];
    let size = slots::put_slots(header, numbers, &mut spoken);
    count_each(header, numbers, &spoken[..size])
}
