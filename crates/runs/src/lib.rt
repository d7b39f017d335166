// Runs that are computed by the very definitions of demand 3 (specs/): its premises can be met, and where one of them fails the claim does.
#![tactic(auto)]

ghost use Rattle.std.specs.Prelude.{◌≡◌, true};
ghost use Rattle.runs.specs.Document.{ScheduleRuns};
ghost use Rattle.runs.specs.Shown.{ShownRuns};
ghost use Rattle.runs.specs.TooLong.{TooLongRuns};
ghost use Rattle.runs.specs.Counted.{CountedRuns};
ghost use Rattle.runs.specs.Alone.{AloneRuns};
ghost use Rattle.runs.specs.NoRoom.{NoRoomRuns};
ghost use Rattle.runs.specs.HalfFaulty.{HalfFaultyRuns};
ghost use Rattle.runs.specs.TooMany.{TooManyRuns};
ghost use Rattle.runs.specs.NotWhole.{NotWholeRuns};
ghost use Rattle.runs.specs.Forged.{ForgedRuns};
ghost use Rattle.runs.specs.NextRound.{NextRoundRuns};
ghost use Rattle.runs.specs.Unsigned.{UnsignedRuns};

// Document 01's own schedule makes the log that it prints; so all make one log in a run where a faulty node shows correct nodes' votes, sent in that round
// and before, while another primary equivocates, and in one where a faulty node's message is too long. The schedule's nodes find the signers of their mark where the faulty node signs and counts as well.
pub fn premises_can_be_met() -> bool
    ensures { (result ≡ true) × ScheduleRuns × ShownRuns × TooLongRuns × CountedRuns }
{
    true
}

// For each premise that the calls' types do not give, a run in which all the others hold and the claim does not: without room, a sound tray, a well-formed
// old log, a well-cut inbox, or with sizes that are not taken, no log; with one faulty node more than f, one lost message, one forged vote, or one vote that
// its node sends in the next round, two different logs; without one of the premises of signing too few signers, or signers of a mark of no log.
pub fn premises_are_needed() -> bool
    ensures { (result ≡ true) × AloneRuns × NoRoomRuns × HalfFaultyRuns × TooManyRuns × NotWholeRuns × ForgedRuns × NextRoundRuns × UnsignedRuns }
{
    true
}
