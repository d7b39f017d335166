// The header of a schedule: how many nodes, how many of them may be faulty, and which are.
#![tactic(auto)]

ghost use Rattle.std.specs.Prelude.{◌≡◌};

mod heading;

pub use heading::read_header;

// Header lines: one for each key.
pub const HEADER_SIZE: usize = 3;

// The keys of the header lines; `header.Header.header_keys` has them in their order.
#[derive(Clone, Copy, Debug, PartialEq, Eq)]
pub enum Key {
    Nodes,
    Faults,
    Faulty,
}

// The number of a schedule's first bad line; 0 where the file is too long, as the document prints it.
#[derive(Clone, Copy, Debug, PartialEq, Eq)]
pub struct BadLine(pub usize);

// What the header lines say; the faulty nodes as a mask.
// No invariant says that n is at most 16: the promises of `put_inbox`, `breaks_rule`, `outcome_of` and `report_into` are of any header, and may not change.
#[derive(Clone, Copy, Debug, Default, PartialEq, Eq)]
pub struct Header {
    pub n: usize,
    pub f: usize,
    pub faulty: u16,
}

impl Header {
    ghost use Rattle.header.specs.Header.{faulty_bit};

    // Whether the node is faulty.
    pub fn is_faulty(self, node: usize) -> bool
        ensures { result ≡ faulty_bit self node }
    {
        rules::has_bit(self.faulty, node)
    }
}
