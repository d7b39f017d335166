// Demand 3 in bytes: of the states, outboxes, logs and counts that the promises of `Node::new`, `open`, `step`, `close` and `signers` name (specs/).
#![tactic(auto)]

ghost use Rattle.std.specs.Prelude.{◌≡◌, true};
ghost use Rattle.agreement.specs.Calls.{CallsGive};
ghost use Rattle.agreement.specs.Claim.{Demand3};
ghost use Rattle.agreement.specs.AllCorrect.{AllCorrectGranted};

// In every run that keeps what the demand grants, all correct nodes make the same log or are all told that it is full, and they find the signers of its
// mark and of no other.
pub fn demand_3_holds() -> bool
    ensures { (result ≡ true) × Demand3 }
{
    true
}

// Whatever a node's calls answer by their promises, they give the nodes, outboxes and logs that the demand is about.
pub fn calls_give_the_run() -> bool
    ensures { (result ≡ true) × CallsGive }
{
    true
}

// What the demand grants can be met, for every n and f in size: by a run of all correct nodes.
pub fn all_correct_is_granted() -> bool
    ensures { (result ≡ true) × AllCorrectGranted }
{
    true
}
