// Document 01's worked examples P1 to P11, each from literal bytes to a call's whole answer: one list of tests under one claim (specs/).
#![tactic(auto)]

ghost use Rattle.std.specs.Prelude.{◌≡◌, true};
ghost use Rattle.worked.specs.Claim.{WorkedExamples};

// In each test the call's promise allows the answer that is expected, and no other.
pub fn worked_examples_hold() -> bool
    ensures { (result ≡ true) × WorkedExamples }
{
    true
}
