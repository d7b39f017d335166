// What a host program links: each call with a C name, over numbers, structs of fixed layout and slices. Each promises what that call promises.
#![tactic(auto)]

ghost use Rattle.std.specs.Prelude.{◌≡◌};
ghost use Rattle.host.specs.Told.{tell_record, tell_message, tell_written, tell_heard, tell_made, tell_opened, tell_stepped, tell_closed, tell_signers, tell_bar};

mod log_calls; // log_calls.rt: the close, the signing count, the bar
mod node_calls; // node_calls.rt: the tray, the fresh node, the opening, the step
mod number; // number.rt: an answer's number, and its value or nothing
mod wire_calls; // wire_calls.rt: the reader, the writer, the inbox

use node::Node;
use number::told;
use rules::Refusal;
use wire::Reading;

// The C interface: C has no Result and no Option, so each answer is a struct with a number beside its values.

// What a part of an inbox starts with, in numbers: a refusal's number or 0; whether the record is readable; then its values, else 0.
#[repr(C)]
#[derive(Clone, Copy)]
pub struct ToldRecord {
    pub number: u8,
    pub readable: bool,
    pub mask: u16,
    pub primary: usize,
    pub count: usize,
    pub next: usize,
}

// Where the batch's bytes stand in the part that was handed in: after the head of a readable record, with no entries too; else none, at 0.
#[repr(C)]
#[derive(Clone, Copy)]
pub struct BatchPart {
    pub start: usize,
    pub size: usize,
}

// What a message reads as, in numbers: a refusal's number or 0; whether it is readable; how many votes it says, else 0.
#[repr(C)]
#[derive(Clone, Copy)]
pub struct ToldMessage {
    pub number: u8,
    pub readable: bool,
    pub votes: usize,
}

// What became of a record to be written, in numbers: a refusal's number or 0, and the record's size, else 0.
#[repr(C)]
#[derive(Clone, Copy)]
pub struct ToldWritten {
    pub number: u8,
    pub size: usize,
}

// A refusal's number or 0, and the senders of an inbox whose message is unreadable.
#[repr(C)]
#[derive(Clone, Copy)]
pub struct Heard {
    pub number: u8,
    pub unreadable: u16,
}

// A refusal's number or 0, and the fresh node; a node of zeros where it is refused.
#[repr(C)]
#[derive(Clone, Copy)]
pub struct Made {
    pub number: u8,
    pub node: Node,
}

// A refusal's number or 0, the length of what the outbox holds, and the node afterwards.
#[repr(C)]
#[derive(Clone, Copy)]
pub struct Opened {
    pub number: u8,
    pub length: usize,
    pub node: Node,
}

// A refusal's number or 0, the length of what the outbox holds, the senders whose message was unreadable, the node afterwards.
#[repr(C)]
#[derive(Clone, Copy)]
pub struct Stepped {
    pub number: u8,
    pub length: usize,
    pub unreadable: u16,
    pub node: Node,
}

// A refusal's number or 0, and the length of the new log.
#[repr(C)]
#[derive(Clone, Copy)]
pub struct Closed {
    pub number: u8,
    pub length: usize,
}

// A refusal's number or 0, and the mask of the signers.
#[repr(C)]
#[derive(Clone, Copy)]
pub struct SigningCount {
    pub number: u8,
    pub mask: u16,
}

// A refusal's number or 0, and the bar.
#[repr(C)]
#[derive(Clone, Copy)]
pub struct MeterBar {
    pub number: u8,
    pub sum: u64,
}

impl From<Result<Option<Reading>, Refusal>> for ToldRecord {
    ghost from_gives = { λ answer told. told ≡ tell_record answer };

    fn from(answer: Result<Option<Reading>, Refusal>) -> ToldRecord {
        let (number, reading) = told(answer, None);
        match reading {
            Some(vote) => ToldRecord {
                number,
                readable: true,
                mask: vote.mask,
                primary: vote.primary,
                count: vote.count,
                next: vote.next,
            },
            None => ToldRecord {
                number,
                readable: false,
                mask: 0,
                primary: 0,
                count: 0,
                next: 0,
            },
        }
    }
}

impl From<Result<Option<usize>, Refusal>> for ToldMessage {
    ghost from_gives = { λ answer told. told ≡ tell_message answer };

    fn from(answer: Result<Option<usize>, Refusal>) -> ToldMessage {
        let (number, votes) = told(answer, None);
        ToldMessage {
            number,
            readable: votes.is_some(),
            votes: votes.unwrap_or(0),
        }
    }
}

impl From<Result<usize, Refusal>> for ToldWritten {
    ghost from_gives = { λ answer told. told ≡ tell_written answer };

    fn from(answer: Result<usize, Refusal>) -> ToldWritten {
        let (number, size) = told(answer, 0);
        ToldWritten { number, size }
    }
}

impl From<Result<u16, Refusal>> for Heard {
    ghost from_gives = { λ answer told. told ≡ tell_heard answer };

    fn from(answer: Result<u16, Refusal>) -> Heard {
        let (number, unreadable) = told(answer, 0);
        Heard { number, unreadable }
    }
}

impl From<Result<Node, Refusal>> for Made {
    ghost from_gives = { λ answer told. told ≡ tell_made answer };

    fn from(answer: Result<Node, Refusal>) -> Made {
        let (number, node) = told(answer, Node::zeros());
        Made { number, node }
    }
}

impl Opened {
    // The answer of an opening, and the node as it left it.
    fn of(answer: Result<usize, Refusal>, node: Node) -> Opened
        ensures { result ≡ tell_opened (answer, node) }
    {
        let (number, sent) = told(answer, 0);
        Opened {
            number,
            length: sent,
            node,
        }
    }
}

impl Stepped {
    // The answer of a step, and the node as it left it.
    fn of(answer: Result<step::Stepped, Refusal>, node: Node) -> Stepped
        ensures { result ≡ tell_stepped (answer, node) }
    {
        let nothing = step::Stepped {
            length: 0,
            unreadable: 0,
        };
        let (number, taken) = told(answer, nothing);
        Stepped {
            number,
            length: taken.length,
            unreadable: taken.unreadable,
            node,
        }
    }
}

impl From<Result<usize, Refusal>> for Closed {
    ghost from_gives = { λ answer told. told ≡ tell_closed answer };

    fn from(answer: Result<usize, Refusal>) -> Closed {
        let (number, length) = told(answer, 0);
        Closed { number, length }
    }
}

impl From<Result<u16, Refusal>> for SigningCount {
    ghost from_gives = { λ answer told. told ≡ tell_signers answer };

    fn from(answer: Result<u16, Refusal>) -> SigningCount {
        let (number, mask) = told(answer, 0);
        SigningCount { number, mask }
    }
}

impl From<Result<u64, Refusal>> for MeterBar {
    ghost from_gives = { λ answer told. told ≡ tell_bar answer };

    fn from(answer: Result<u64, Refusal>) -> MeterBar {
        let (number, sum) = told(answer, 0);
        MeterBar { number, sum }
    }
}
