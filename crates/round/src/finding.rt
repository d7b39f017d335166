// The votes of an inbox, taken up one after the other.
ghost use Rattle.round.specs.Found.{Begin, TakeInbox, TakeMessage};

use keeping::{Found, has_room, is_heard};
use node::{Kept, Node};
use std::array;

// Before the first vote: what was kept, and no masks.
pub fn begin(kept: &[Kept; Node::NODES_MOST]) -> [Found; Node::NODES_MOST]
    ensures { Begin kept.now result }
{
    array::from_fn(|p| Found {
        kept: kept[p],
        first: 0,
        second: 0,
    })
}

// The votes of a message, record after record.
fn take_message(node: &Node, found: &mut [Found; Node::NODES_MOST], message: &[u8])
    ensures { TakeMessage node.now.n node.now.me node.now.phase found.old message.now found.new }
{
    let mut rest = message;
    // A cursor: each record says where the next begins.
    while let Ok(Some(vote)) = wire::read_record(node.n, rest) {
        let its = &mut found[vote.primary];
        if has_room(node.me, vote.primary, its.kept.count) {
            let batch = node::batch_from(wire::batch_bytes(node.n, rest));
            if its.wants(node.phase, &vote, &batch) {
                its.keep(vote.mask, batch);
            }
        }
        rest = &rest[vote.next..];
    }
}

// The votes of every other sender whose message is readable, by sender: the node's phase is the round.
pub fn take_inbox(node: &Node, found: &mut [Found; Node::NODES_MOST], inbox: &[u8], unreadable: u16)
    ensures { TakeInbox node.now.n node.now.me node.now.phase found.old inbox.now unreadable found.new }
{
    let mut at = 0;
    for sender in 0..node.n {
        let Ok(place) = wire::message_at(inbox, at) else {
            return;
        };
        if is_heard(node.me, sender, unreadable) {
            take_message(node, found, &inbox[place.start..place.end]);
        }
        at = place.end;
    }
}
