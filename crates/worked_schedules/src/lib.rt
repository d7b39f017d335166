// Document 01's own schedule and schedules that are bad in each way: their forms, contents and printed texts, each from literal bytes (specs/).
#![tactic(auto)]

ghost use Rattle.std.specs.Prelude.{◌≡◌, true};
ghost use Rattle.worked_schedules.specs.Claim.{WorkedSchedules};

// Each is what the definitions of the rehearsal give.
pub fn worked_schedules_hold() -> bool
    ensures { (result ≡ true) × WorkedSchedules }
{
    true
}
