// The round step: the inbox is read by sender, then by record; what is newly kept is passed on.
#![tactic(auto)]

mod stepping;

pub use stepping::step;

// The length of what the outbox holds, and the senders whose message was unreadable.
#[derive(Clone, Copy, Debug, PartialEq, Eq)]
pub struct Stepped {
    pub length: usize,
    pub unreadable: u16,
}
