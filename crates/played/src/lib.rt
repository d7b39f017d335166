// A schedule, played: its form is checked for the whole file, then the rule on shown votes in file order, each send on the states before its round; then come
// the rounds that are left.
#![tactic(auto)]

mod playing;

pub use playing::play;
