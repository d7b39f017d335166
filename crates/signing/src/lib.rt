// The signing count: which nodes stand behind a log mark, and whether they are enough. A mark is 32 bytes and nothing else here.
#![tactic(auto)]

mod count;
mod slot;

pub use count::signers;

// Bytes of a mark.
pub const MARK_SIZE: usize = 32;
// Bytes of a slot: one that says whether it speaks, then a mark.
pub const SLOT_SIZE: usize = 1 + MARK_SIZE;
