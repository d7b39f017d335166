// The nodes of a mask, listed.
ghost use Rattle.std.specs.Prelude.{◌≡◌, ◌≤◌};
ghost use Rattle.entries.specs.Places.{held_in};
ghost use Rattle.rules.specs.Sizes.{nodes_most};
ghost use Rattle.outcome.specs.Signing.{has_bit};
ghost use Rattle.report.specs.Lines.{nodes_that};

use entries::Places;
use rules::{NODES_MOST, has_bit};

// The nodes whose bit is set.
pub(crate) fn nodes_in(n: usize, mask: u16) -> Places<NODES_MOST>
    requires { n ≤ nodes_most }
    ensures { held_in result ≡ nodes_that (has_bit mask) n }
{
    let mut nodes = Places::none();
    for j in 0..n {
        if has_bit(mask, j) {
            nodes.entries[nodes.count] = j as u64;
            nodes.count += 1;
        }
    }
    nodes
}
