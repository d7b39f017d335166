// The rounds: every correct node opens, then steps round after round, all of them in each.
ghost use Rattle.std.specs.Prelude.{◌≡◌, [], ◌+◌, ◌^◌, ◌≤◌, ◌<◌};
ghost use Rattle.rules.specs.Sizes.{nodes_most};
ghost use Rattle.node.specs.State.{node_at};
ghost use Rattle.agreement.specs.Hall.{node_after, sends};
ghost use Rattle.inboxes.specs.Inboxes.{inbox_to};
ghost use Rattle.standing.specs.Standing.{nobody, standing, stepped_to, stood_at, stood_of, unopened};
ghost use Rattle.standing.specs.Run.{Advances, Reached, hall_of};

use crate::{Standing, Stood};
use header::Header;
use inboxes::{INBOX_MOST, Outbox};
use node::Node;
use rules::NODES_MOST;
use wire::MESSAGE_MOST;

// The run of a schedule, which starts with this header.
#[derive(Clone, Copy)]
pub struct Run<'a> {
    pub s: &'a [u8],
    pub header: Header,
}

// A number that no correct node has.
fn no_node() -> Stood
    ensures { result ≡ stood_of nobody [] }
{
    Stood {
        node: Node::zeros(),
        outbox: Outbox {
            size: 0,
            bytes: [0u8; MESSAGE_MOST],
        },
    }
}

// Before the opening.
pub fn start() -> Standing
    ensures { result ≡ unopened }
{
    let filler = no_node();
    Standing {
        next: 0,
        nodes: [filler.node; NODES_MOST],
        outboxes: [filler.outbox; NODES_MOST],
    }
}

impl Run<'_> {
    // Node i, opened with its tray.
    fn open_node(&self, i: usize) -> Stood
        ensures { let hall = hall_of self.now.s.now self.now.header.n self.now.header.f in
            result ≡ stood_of (node_after hall i 0) (sends hall i 1) }
    {
        let mut node = Node::new(self.header.n, self.header.f, i).unwrap_or(Node::zeros());
        let mut bytes = [0u8; MESSAGE_MOST];
        let size = node::open(&mut node, &contents::tray_of(self.s, i), &mut bytes).unwrap_or(0);
        Stood {
            node,
            outbox: Outbox { size, bytes },
        }
    }

    // Node i, stepped in the round that is next by what each node hands it.
    fn step_node(&self, here: &Standing, i: usize) -> Stood
        requires { i < nodes_most }
        ensures { self.now.header.n ≤ nodes_most →
            result ≡ stepped_to (node_at here.now.nodes i) (inbox_to self.now.s.now self.now.header.n self.now.header.faulty here.now.next i here.now.outboxes) }
    {
        let mut inbox = [0u8; INBOX_MOST];
        let length = inboxes::put_inbox(
            self.s,
            self.header,
            here.next,
            i,
            &here.outboxes,
            &mut inbox,
        );
        let mut node = here.nodes[i];
        let mut bytes = [0u8; MESSAGE_MOST];
        let size = step::step(&mut node, &inbox[..length], &mut bytes).map_or(
            0,
            |stepped| stepped.length,
        );
        Stood {
            node,
            outbox: Outbox { size, bytes },
        }
    }

    // Node i after the opening or the round that is next; zeros where no correct node has that number.
    fn next_node(&self, here: &Standing, i: usize) -> Stood
        requires { i < nodes_most }
        ensures { let h = self.now.header in
            Reached self.now.s.now h here.now → result ≡ stood_at (hall_of self.now.s.now h.n h.f) (here.now.next + 1) i }
    {
        if self.header.n <= i || self.header.is_faulty(i) {
            return no_node();
        }
        if here.next == 0 {
            return self.open_node(i);
        }
        self.step_node(here, i)
    }

    // The run goes on by the opening or the round that is next: each node by where the run stood before it.
    fn advance(&self, at: &mut Standing)
        requires { at.old.next + 1 < 2 ^ 64 }
        ensures next { at.new.next ≡ at.old.next + 1 }
        ensures stands { let h = self.now.header in
            Reached self.now.s.now h at.old → at.new ≡ standing (hall_of self.now.s.now h.n h.f) (at.old.next + 1) }
    {
        let here = *at;
        for i in 0..NODES_MOST {
            let stood = self.next_node(&here, i);
            at.nodes[i] = stood.node;
            at.outboxes[i] = stood.outbox;
        }
        at.next += 1;
    }

    // The run goes on until before this round, which is the next or a later one.
    pub fn advance_to(&self, at: &mut Standing, round: usize)
        ensures { Advances self.now.s.now self.now.header at.old round at.new }
    {
        // No count of its own: where the run stands says which round is next.
        while at.next < round {
            self.advance(at);
        }
    }
}
