// The rehearsal: a schedule's bytes in, the printed text out.
#![tactic(auto)]

ghost use Rattle.std.specs.Prelude.{◌≡◌, true};
ghost use Rattle.rehearsal.specs.Claim.{RehearsalsAgree, RehearsalsGranted};
ghost use Rattle.rehearsal.specs.Rehearsal.{Rehearse};

mod telling;

use report::TEXT_MOST;
use rules::Refusal;

// The whole text over the front of the output; how many bytes it has.
pub fn rehearsal(schedule: &[u8], output: &mut [u8]) -> Result<usize, Refusal>
    ensures { Rehearse schedule.now output.old result output.new }
{
    let mut text = [0u8; TEXT_MOST];
    let size = telling::tell(schedule, &mut text);
    if output.len() < size {
        return Err(Refusal::Short);
    }
    Ok(print::put_bytes(output, &text[..size]))
}

// Every schedule that is not bad prints one log, which is a log, with every entry of every correct node's tray, and the correct nodes as its signers.
pub fn rehearsals_agree() -> bool
    ensures { (result ≡ true) × RehearsalsAgree }
{
    true
}

// Every schedule that is not bad is a run that demand 3 grants, and its marks and slots are as the demand grants for signing.
pub fn rehearsals_are_granted() -> bool
    ensures { (result ≡ true) × RehearsalsGranted }
{
    true
}
