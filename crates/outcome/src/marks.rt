// The numbers of the distinct logs, from 0 in node order.
ghost use Rattle.std.specs.Prelude.{◌≡◌, ◌&&◌, not, ◌+◌, ◌<◌, ◌≤◌};
ghost use Rattle.laws.specs.Members.{same};
ghost use Rattle.rules.specs.Sizes.{nodes_most};
ghost use Rattle.outcome.specs.Signing.{has_bit};
ghost use Rattle.outcome.specs.Held.{FirstAlike, log_at, Numbered};

use crate::Log;
use header::Header;
use rules::NODES_MOST;

// How many distinct logs there are, and for each correct node the number of its log. The count is no length: it is the next new log's number.
#[derive(Clone, Copy)]
pub(crate) struct Numbers {
    pub count: usize,
    pub of: [u8; NODES_MOST],
}

// Whether node k is correct and has node i's log.
fn is_alike(header: Header, logs: &[Log; NODES_MOST], k: usize, i: usize) -> bool
    requires { (k < nodes_most) × (i < nodes_most) }
    ensures { result ≡ (not (has_bit header.faulty k) && same (log_at logs.now i) (log_at logs.now k)) }
{
    !header.is_faulty(k) && logs[i].in_use() == logs[k].in_use()
}

// The first correct node below i that has node i's log.
fn first_alike(header: Header, logs: &[Log; NODES_MOST], i: usize) -> Option<usize>
    requires { i < nodes_most }
    ensures { FirstAlike (has_bit header.faulty) (log_at logs.now) i result }
{
    (0..i).find(|k| is_alike(header, logs, *k, i))
}

// The logs of the nodes below i are numbered: so they are with node i's, where it is correct.
fn with_number(mut numbers: Numbers, header: Header, logs: &[Log; NODES_MOST], i: usize) -> Numbers
    requires { (i < nodes_most) × Numbered (has_bit header.faulty) (log_at logs.now) i numbers }
    ensures { Numbered (has_bit header.faulty) (log_at logs.now) (i + 1) result }
{
    if header.is_faulty(i) {
        return numbers;
    }
    match first_alike(header, logs, i) {
        Some(k) => numbers.of[i] = numbers.of[k],
        None => {
            numbers.of[i] = numbers.count as u8;
            numbers.count += 1;
        }
    }
    numbers
}

// The numbers of the correct nodes' logs.
pub(crate) fn number_all(header: Header, logs: &[Log; NODES_MOST]) -> Numbers
    requires { header.n ≤ nodes_most }
    ensures { Numbered (has_bit header.faulty) (log_at logs.now) header.n result }
{
    let mut numbers = Numbers {
        count: 0,
        of: [0u8; NODES_MOST],
    };
    for i in 0..header.n {
        numbers = with_number(numbers, header, logs, i);
    }
    numbers
}
