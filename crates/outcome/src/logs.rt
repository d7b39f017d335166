// The log of each node, made by its close on an empty old log.
ghost use Rattle.std.specs.Prelude.{◌≡◌};
ghost use Rattle.rules.specs.Sizes.{nodes_most};
ghost use Rattle.node.specs.State.{node_at};
ghost use Rattle.outcome.specs.Logs.{made_log};
ghost use Rattle.outcome.specs.Held.{AllHeld, held_as};

use crate::Log;
use node::Node;
use rules::NODES_MOST;

// The log that a node makes.
fn log_of(node: Node) -> Log
    ensures { result ≡ held_as (made_log node) }
{
    let mut log = Log::none();
    log.count = closing::close(node, &[], &mut log.entries).unwrap_or(0);
    log
}

// The log of each node.
pub(crate) fn close_all(nodes: [Node; NODES_MOST]) -> [Log; NODES_MOST]
    ensures { AllHeld (λ j. made_log (node_at nodes j)) nodes_most result }
{
    nodes.map(log_of)
}
