// Playing a schedule: the rule is checked in file order, each send on the states before its round; then the rounds that are left.
ghost use Rattle.std.specs.Prelude.{◌≡◌, ◌≤◌, length};
ghost use Rattle.wire.specs.Sizes.{message_most};
ghost use Rattle.schedule.specs.Forms.{form_of};
ghost use Rattle.contents.specs.Contents.{message_for};
ghost use Rattle.shown.specs.Shown.{breaks};
ghost use Rattle.standing.specs.Run.{hall_of};
ghost use Rattle.played.specs.Playing.{breach, played_of, played_to};

use header::{BadLine, HEADER_SIZE};
use node::Node;
use rules::NODES_MOST;
use schedule::Send;
use standing::{Run, start};
use wire::MESSAGE_MOST;

// Whether the send breaks the rule, by the states before its round.
fn breaks_send(run: &Run, nodes: &[Node; NODES_MOST], send: Send) -> bool
    requires { length (message_for run.now.s.now send.round send.from send.to) ≤ message_most }
    ensures { result ≡ breaks run.now.header.n run.now.header.faulty nodes.now (message_for run.now.s.now send.round send.from send.to) }
{
    let mut message = [0u8; MESSAGE_MOST];
    let size = contents::message_into(run.s, send, &mut message);
    shown::breaks_rule(run.header, nodes, &message[..size])
}

// A schedule of good form, which starts with this header.
fn play_good(run: &Run) -> Result<[Node; NODES_MOST], BadLine>
    requires { form_of run.now.s.now ≡ Ok run.now.header }
    ensures { let h = run.now.header in result ≡ played_to (hall_of run.now.s.now h.n h.f) (breach run.now.s.now h.n h.f) }
{
    let mut here = start();
    for k in 0..contents::send_count(run.s) {
        let Some(send) = contents::send_at(run.s, k) else {
            unreachable!()
        };
        run.advance_to(&mut here, send.round);
        if breaks_send(run, &here.nodes, send) {
            return Err(BadLine(HEADER_SIZE + 1 + run.header.n + k));
        }
    }
    run.advance_to(&mut here, run.header.f + 2);
    Ok(here.nodes)
}

// The nodes after round f + 1, or the first bad line: of the form, else of the first send that breaks the rule.
#[tactic(auto, unfolding(crate::specs::Playing::played_as))]
pub fn play(s: &[u8]) -> Result<[Node; NODES_MOST], BadLine>
    ensures { result ≡ played_of s.now }
{
    let header = schedule::check_form(s)?;
    play_good(&Run { s, header })
}
