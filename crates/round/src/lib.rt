// What a round finds by the votes of an inbox: they are taken up by sender, then by record, and a batch is kept if it is new and fewer than two are.
#![tactic(auto)]

mod finding;

pub use finding::{begin, take_inbox};
