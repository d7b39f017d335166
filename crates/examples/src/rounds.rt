// A node: its opening, its rounds, its close.
use crate::page;
use node::Node;
use step::Stepped;
use tray::Tray;

// A node that opens with so many of two entries, and the record that it sends.
fn opened(n: usize, f: usize, me: usize, count: usize, first: u64, second: u64) -> Node {
    let tray = Tray {
        count,
        entries: [first, second, 0, 0, 0, 0, 0, 0, 0, 0, 0, 0, 0, 0, 0, 0],
    };
    let mut outbox = [0u8; 20];
    let mut node = Node::new(n, f, me).unwrap_or(Node::zeros());
    let length = page::answer(node::open(&mut node, &tray, &mut outbox), 0);
    page::numbers(&outbox, length);
    node
}

// A round: the senders that were unreadable, what is passed on, how many batches of primary 0 are kept.
fn stepped(mut node: Node, inbox: &[u8]) -> Node {
    let mut outbox = [0u8; 36];
    let nothing = Stepped {
        length: 0,
        unreadable: 0,
    };
    let told = page::answer(step::step(&mut node, inbox, &mut outbox), nothing);
    page::number(u64::from(told.unreadable));
    page::numbers(&outbox, told.length);
    page::number(node.kept[0].count as u64);
    node
}

// A close, and the first two places of its output.
pub(crate) fn closed(node: Node, old: &[u64]) {
    let mut output = [7u64; rules::LOG_MOST + 1];
    let length = page::answer(closing::close(node, old, &mut output), 0);
    page::number(length as u64);
    page::numbers(&output, 2);
}

// A node alone, its rounds over: opened with so many of two entries, one round with two zero bytes.
pub(crate) fn alone(count: usize, first: u64, second: u64) -> Node {
    stepped(opened(1, 0, 0, count, first, second), b"\x00\x00")
}

// Node 1 of three, of which one may be faulty: opened with an empty tray, two rounds with these inboxes, closed.
fn run(first: &[u8], second: &[u8]) {
    let old = [0u64; 0];
    let node = opened(3, 1, 1, 0, 0, 0);
    closed(stepped(stepped(node, first), second), &old);
}

// An inbox is written by lines: the length, each record, the silence of the others.
pub(crate) fn all() {
    // P1: a node alone opens and steps.
    alone(1, 1, 0);
    let silence = b"\x00\x00\x00\x00\x00\x00";
    // P5: round 2, witnesses {0} only.
    run(
        silence,
        b"\x0c\x00\
        \x00\x01\x01\x00\x00\x00\x00\x00\x00\x00\x00\x07\
        \x00\x00\x00\x00",
    );
    // P8: primary 0, witnesses {1, 2}, round 2.
    run(
        silence,
        b"\x0c\x00\
        \x00\x01\x06\x00\x00\x00\x00\x00\x00\x00\x00\x07\
        \x00\x00\x00\x00",
    );
    // P6: two batches of primary 0 in one message.
    run(
        b"\x18\x00\
        \x00\x01\x01\x00\x00\x00\x00\x00\x00\x00\x00\x01\
        \x00\x01\x01\x00\x00\x00\x00\x00\x00\x00\x00\x02\
        \x00\x00\x00\x00",
        silence,
    );
    // P7: a third batch in that message.
    run(
        b"\x24\x00\
        \x00\x01\x01\x00\x00\x00\x00\x00\x00\x00\x00\x01\
        \x00\x01\x01\x00\x00\x00\x00\x00\x00\x00\x00\x02\
        \x00\x01\x01\x00\x00\x00\x00\x00\x00\x00\x00\x03\
        \x00\x00\x00\x00",
        silence,
    );
    // P10: an empty batch alone.
    run(
        b"\x04\x00\
        \x00\x00\x01\x00\
        \x00\x00\x00\x00",
        silence,
    );
    // P10: an empty batch, then another.
    run(
        b"\x10\x00\
        \x00\x00\x01\x00\
        \x00\x01\x01\x00\x00\x00\x00\x00\x00\x00\x00\x01\
        \x00\x00\x00\x00",
        silence,
    );
}
