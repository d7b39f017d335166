// Where the run of a schedule stands: every correct node is made, opened and stepped by its own calls, every outbox is carried whole to every other node, the
// faulty nodes send what the schedule says.
#![tactic(auto)]

mod rounds;

use inboxes::Outbox;
use node::Node;
pub use rounds::{Run, start};
use rules::NODES_MOST;

// A node, and what it sends.
#[derive(Clone, Copy)]
pub struct Stood {
    pub node: Node,
    pub outbox: Outbox,
}

// Where a run stands: the round to be taken next (0 stands for the opening), the nodes by number, and what they send in it. Two arrays, and not one of
// pairs: the rule on shown votes and the report read all the nodes, and an inbox is put from all the outboxes.
#[derive(Clone, Copy)]
pub struct Standing {
    pub next: usize,
    pub nodes: [Node; NODES_MOST],
    pub outboxes: [Outbox; NODES_MOST],
}
