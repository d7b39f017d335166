// What a rehearsal prints of a run that is over: n, f, then for each correct node, ascending, its number, log and signers.
#![tactic(auto)]

ghost use Rattle.report.specs.Report.{Reports};

mod lines;
mod listing;

use header::Header;
use node::Node;
use rules::NODES_MOST;

// Bytes of a report, at most.
pub const TEXT_MOST: usize = 6144 * NODES_MOST;

// The whole text of a run, over the front of a text that has room for it; how many bytes were written. Node i of `nodes` is node i after round f + 1.
pub fn report_into(header: Header, nodes: [Node; NODES_MOST], text: &mut [u8]) -> usize
    ensures { Reports header.n header.f header.faulty nodes text.old result text.new }
{
    if NODES_MOST < header.n {
        return 0;
    }
    let outcome = outcome::outcome_of(header, nodes);
    let at = lines::put_sizes(text, header);
    at + lines::put_nodes(&mut text[at..], header, &outcome)
}
