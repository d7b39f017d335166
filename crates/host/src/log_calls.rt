// The calls of the log: the close, the signing count, the bar.
ghost use Rattle.host.specs.Told.{TellsClose, TellsSigners, TellsBar};

use crate::{Closed, MeterBar, SigningCount};
use node::Node;
use signing::MARK_SIZE;

// `closing::close`.
#[unsafe(no_mangle)]
pub extern "C" fn raudokiin_close(node: Node, old: &[u64], output: &mut [u64]) -> Closed
    ensures { TellsClose node old.now output.old result output.new }
{
    Closed::from(closing::close(node, old, output))
}

// `signing::signers`.
#[unsafe(no_mangle)]
pub extern "C" fn raudokiin_signers(
    n: usize,
    f: usize,
    me: usize,
    mark: &[u8; MARK_SIZE],
    slots: &[u8],
) -> SigningCount
    ensures { TellsSigners n f me mark.now slots.now result }
{
    SigningCount::from(signing::signers(n, f, me, mark, slots))
}

// `reading_log::bar`.
#[unsafe(no_mangle)]
pub extern "C" fn raudokiin_bar(log: &[u64], meter: u16, first: u16, last: u16) -> MeterBar
    ensures { TellsBar log.now meter first last result }
{
    MeterBar::from(reading_log::bar(log, meter, first, last))
}
