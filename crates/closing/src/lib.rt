// The close: the new log is the old log joined with all n decisions.
#![tactic(auto)]

ghost use Rattle.std.specs.Prelude.{◌≡◌, leb};
ghost use Rattle.rules.specs.Sizes.{log_most};
ghost use Rattle.closing.specs.Close.{Close};

mod decisions; // decisions.rt: the entries of all n decisions, gathered once
mod merging; // merging.rt: entries joined with ascending new ones, in one pass

use merging::{joined_length, write_joined};
use node::Node;
use reading_log::is_log;
use rules::{LOG_MOST, Refusal};

// Whether a log may have this many entries.
fn is_log_length(length: usize) -> bool
    ensures { result ≡ leb length log_most }
{
    length <= LOG_MOST
}

// The old log joined with all n decisions, written into the output.
#[tactic(auto, using(rules::proofs::Answers::refuses, rules::proofs::Answers::answers, crate::proofs::NewLog::gathered_up, crate::proofs::NewLog::joins_new_log), unfolding(crate::specs::Close::close_number, rules::specs::Sizes::fits))]
pub fn close(node: Node, old: &[u64], output: &mut [u64]) -> Result<usize, Refusal>
    ensures { Close node old.now output.old result output.new }
{
    if !node::is_sound(&node) {
        return Err(Refusal::Unsound);
    }
    if node.phase < node.f + 2 {
        return Err(Refusal::Phase);
    }
    if !is_log(old) {
        return Err(Refusal::NoLog);
    }
    let gathered = decisions::gather(&node);
    let new = gathered.in_use();
    let length = joined_length(old, new);
    if !is_log_length(length) {
        return Err(Refusal::LogFull);
    }
    if output.len() < length {
        return Err(Refusal::Short);
    }
    write_joined(old, new, output);
    Ok(length)
}
