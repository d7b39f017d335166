// The round step.
ghost use Rattle.std.specs.Prelude.{◌≡◌, true, ◌<◌};
ghost use Rattle.rules.specs.Sizes.{nodes_most};
ghost use Rattle.wire.specs.Inbox.{well_cut, unreadable_senders};
ghost use Rattle.node.specs.State.{sound_node};
ghost use Rattle.step.specs.Step.{Step, in_rounds, primaries_in};

use crate::Stepped;
use node::Node;
use rules::Refusal;
use std::array;

// The number below which are the primaries whose batches are passed on: in round f + 1 there are none.
fn primaries_in(node: &Node) -> usize
    requires { node.now.f < nodes_most }
    ensures { result ≡ primaries_in node.now.n node.now.f node.now.phase }
{
    if node.phase == node.f + 1 { 0 } else { node.n }
}

// The step of a sound node in a round, by an inbox that is well cut.
// Out of line: what a function holds is zeroed where it begins, and a refusal needs none of it.
#[inline(never)]
fn take(
    node: &mut Node,
    inbox: &[u8],
    unreadable: u16,
    outbox: &mut [u8],
) -> Result<Stepped, Refusal>
    requires { (sound_node node.old ≡ true) × (in_rounds node.old ≡ true) × (well_cut node.old.n inbox.now ≡ true) × (unreadable ≡ unreadable_senders node.old.n node.old.me inbox.now) }
    ensures { Step node.old inbox.now outbox.old result node.new outbox.new }
{
    let mut found = round::begin(&node.kept);
    round::take_inbox(node, &mut found, inbox, unreadable);
    let primaries = primaries_in(node);
    let length = passing::pass_on(node, &found[..primaries], outbox)?;
    node.kept = array::from_fn(|p| found[p].kept);
    node.phase += 1;
    Ok(Stepped { length, unreadable })
}

// The inbox is read by sender, then by record; what is newly kept is passed on; the phase goes up by one.
pub fn step(node: &mut Node, inbox: &[u8], outbox: &mut [u8]) -> Result<Stepped, Refusal>
    ensures { Step node.old inbox.now outbox.old result node.new outbox.new }
{
    if !node::is_sound(node) {
        return Err(Refusal::Unsound);
    }
    if !(1..=node.f + 1).contains(&node.phase) {
        return Err(Refusal::Phase);
    }
    let unreadable = wire::read_inbox(node.n, node.me, inbox)?;
    take(node, inbox, unreadable, outbox)
}
