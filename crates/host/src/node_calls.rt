// The calls of the tray and of the node.
ghost use Rattle.host.specs.Told.{TellsPut, TellsNew, TellsOpen, TellsStep};

use crate::number::told;
use crate::{Made, Opened, Stepped};
use node::Node;
use tray::Tray;

// `tray::put`, on the very tray that C lends.
#[unsafe(no_mangle)]
pub extern "C" fn raudokiin_put(tray: &mut Tray, entry: u64) -> u8
    ensures { TellsPut tray.old entry result tray.new }
{
    told(tray::put(tray, entry), ()).0
}

// `Node::new`.
#[unsafe(no_mangle)]
pub extern "C" fn raudokiin_new(n: usize, f: usize, me: usize) -> Made
    ensures { TellsNew n f me result }
{
    Made::from(Node::new(n, f, me))
}

// `node::open`, on the copy of the node that C hands over.
#[unsafe(no_mangle)]
pub extern "C" fn raudokiin_open(mut node: Node, tray: Tray, outbox: &mut [u8]) -> Opened
    ensures { TellsOpen node tray outbox.old result outbox.new }
{
    let answer = node::open(&mut node, &tray, outbox);
    Opened::of(answer, node)
}

// `step::step`, on the copy of the node that C hands over.
#[unsafe(no_mangle)]
pub extern "C" fn raudokiin_step(mut node: Node, inbox: &[u8], outbox: &mut [u8]) -> Stepped
    ensures { TellsStep node inbox.now outbox.old result outbox.new }
{
    let answer = step::step(&mut node, inbox, outbox);
    Stepped::of(answer, node)
}
