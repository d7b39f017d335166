// The printed lines.
ghost use Rattle.std.specs.Prelude.{◌≡◌, cond, false, [], ◌≤◌, get_or};
ghost use Rattle.rules.specs.Sizes.{nodes_most};
ghost use Rattle.entries.specs.Bytes.{AreEntries};
ghost use Rattle.print.specs.Texts.{line_text, list_text};
ghost use Rattle.print.specs.declared.Items.TheVariants.{Entries, Nodes};
ghost use Rattle.outcome.specs.Signing.{has_bit};
ghost use Rattle.outcome.specs.Held.{log_at};
ghost use Rattle.report.specs.Lines.{all_lines, lines_text, log_key, node_lines, nodes_that, signers_key, sizes_lines};
ghost use Rattle.report.specs.Report.{Writes};
ghost use Rattle.report.specs.Listing.{AllEntries};

use crate::listing;
use header::Header;
use outcome::Outcome;
use print::Items;

// n and f.
pub(crate) fn put_sizes(text: &mut [u8], header: Header) -> usize
    ensures { Writes (lines_text (sizes_lines header.n header.f)) text.old result text.new }
{
    let a = print::put_number_line(text, b"n=", header.n as u64);
    let b = print::put_number_line(&mut text[a..], b"f=", header.f as u64);
    a + b
}

// A log; its entries are 64-bit numbers by their type.
fn put_log(text: &mut [u8], entries: &[u64]) -> usize
    ensures { Writes (line_text log_key (list_text Entries entries.now)) text.old result text.new × AreEntries entries.now }
{
    print::put_list_line(text, b"log=", Items::Entries, entries)
}

// The nodes whose bit is set.
fn put_signers(text: &mut [u8], n: usize, mask: u16) -> usize
    requires { n ≤ nodes_most }
    ensures { Writes (line_text signers_key (list_text Nodes (nodes_that (has_bit mask) n))) text.old result text.new }
{
    let nodes = listing::nodes_in(n, mask);
    print::put_list_line(text, b"signers=", Items::Nodes, nodes.in_use())
}

// Node i: its number, log and signers.
fn put_node(text: &mut [u8], n: usize, i: usize, log: &[u64], mask: u16) -> usize
    requires { n ≤ nodes_most }
    ensures { Writes (lines_text (node_lines i log.now (nodes_that (has_bit mask) n))) text.old result text.new × AreEntries log.now }
{
    let a = print::put_number_line(text, b"node=", i as u64);
    let b = put_log(&mut text[a..], log);
    let at = a + b;
    let c = put_signers(&mut text[at..], n, mask);
    at + c
}

// Node i where it is correct; nothing of a faulty one.
fn put_correct(text: &mut [u8], header: Header, i: usize, log: &[u64], mask: u16) -> usize
    requires { header.n ≤ nodes_most }
    ensures { Writes (lines_text (cond (has_bit header.faulty i) [] (node_lines i log.now (nodes_that (has_bit mask) header.n)))) text.old result text.new × (has_bit header.faulty i ≡ false → AreEntries log.now) }
{
    if header.is_faulty(i) {
        return 0;
    }
    put_node(text, header.n, i, log, mask)
}

// Each correct node, ascending.
pub(crate) fn put_nodes(text: &mut [u8], header: Header, outcome: &Outcome) -> usize
    requires { header.n ≤ nodes_most }
    ensures { Writes (lines_text (all_lines (has_bit header.faulty) (log_at outcome.now.logs) (λ i. nodes_that (has_bit (get_or outcome.now.signers i 0)) header.n) header.n)) text.old result text.new × AllEntries (has_bit header.faulty) (log_at outcome.now.logs) header.n }
{
    let mut at = 0;
    for i in 0..header.n {
        let log = outcome.logs[i].in_use();
        at += put_correct(&mut text[at..], header, i, log, outcome.signers[i]);
    }
    at
}
