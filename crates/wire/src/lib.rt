// Every byte between nodes: a vote as a record, records as a message, messages as an inbox. Whatever is handed in is read as
// something or refused, and where a call is refused nothing is written.
#![tactic(auto)]

mod inbox;
mod mask;
mod pair;
mod read;
mod size;
mod write;

use entries::ENTRY_SIZE;
pub use inbox::{message_at, read_inbox};
pub use read::{batch_bytes, read_message, read_record};
use rules::{BATCH_MOST, NODES_MOST};
pub use write::write_record;

// Bytes before a record's entries.
pub const HEAD_SIZE: usize = 4;
// Bytes of a record, at most: 132.
pub const RECORD_MOST: usize = HEAD_SIZE + ENTRY_SIZE * BATCH_MOST;
// Bytes of a message, at most: 3,960, two records for each other primary.
pub const MESSAGE_MOST: usize = (NODES_MOST - 1) * 2 * RECORD_MOST;
// Bytes of a message's length in an inbox.
pub const LENGTH_SIZE: usize = 2;

// What a readable record is told by; `next` counts from the part's start.
#[derive(Clone, Copy, Debug, PartialEq, Eq)]
pub struct Reading {
    pub primary: usize,
    pub mask: u16,
    pub count: usize,
    pub next: usize,
}

// Where a message stands in an inbox: from its start, up to its end.
#[derive(Clone, Copy, Debug, PartialEq, Eq)]
pub struct Span {
    pub start: usize,
    pub end: usize,
}
