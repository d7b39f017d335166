// The form of a schedule, checked for the whole file: its header, or the number of its first bad line.
#![tactic(auto)]

mod forms;
mod sends;

pub use forms::check_form;
pub use sends::{message_text, read_send};

// Bytes of a schedule, at most.
pub const SCHEDULE_MOST: usize = 65536;

// A send: its round, and from which node to which.
#[derive(Clone, Copy, Debug, PartialEq, Eq)]
pub struct Send {
    pub round: usize,
    pub from: usize,
    pub to: usize,
}
