// What a run that is over comes to: the log that each node makes, its mark, and who signed it.
#![tactic(auto)]

ghost use Rattle.outcome.specs.Outcome.{ComesTo};

mod logs;
mod marks;
mod signers;
mod slots;

use entries::Places;
use header::Header;
use node::Node;
use rules::{BATCH_MOST, NODES_MOST};

// Entries of a log that is made on an empty one, at most.
pub const MADE_MOST: usize = NODES_MOST * BATCH_MOST;

// A log that is made on an empty one; the places not in use are zero.
pub type Log = Places<MADE_MOST>;

// By node number: the log that it makes, and the mask of those who signed it. Two arrays, and not one of pairs: all logs are made before one is signed.
#[derive(Clone, Copy)]
pub struct Outcome {
    pub logs: [Log; NODES_MOST],
    pub signers: [u16; NODES_MOST],
}

// Of a run with this header. Node i of `nodes` is node i after round f + 1.
pub fn outcome_of(header: Header, nodes: [Node; NODES_MOST]) -> Outcome
    ensures { ComesTo header.n header.f header.faulty nodes result }
{
    let logs = logs::close_all(nodes);
    if NODES_MOST < header.n {
        return Outcome {
            logs,
            signers: [0u16; NODES_MOST],
        };
    }
    let numbers = marks::number_all(header, &logs);
    let signers = signers::count_all(header, numbers.of);
    Outcome { logs, signers }
}
