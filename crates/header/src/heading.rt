// The header: one line for each key, in their order.
ghost use Rattle.std.specs.Prelude.{◌≡◌};
ghost use Rattle.text.specs.Lines.{lines_of, list_line, number_line};
ghost use Rattle.text.specs.Numbers.{word_most};
ghost use Rattle.text.specs.declared.Kind.TheVariants.{Below};
ghost use Rattle.header.specs.Keys.{faults_key, faulty_key, nodes_key};
ghost use Rattle.header.specs.Header.{headed_of, mask_in, with_faults, with_faulty, with_nodes};

use crate::{BadLine, Header};
use rules::NODES_MOST;
use text::{Kind, WORD_MOST};

// n nodes: bad by its size.
fn with_nodes(k: usize, h: Header, line: &[u8]) -> Result<Header, BadLine>
    ensures { result ≡ with_nodes k h (number_line nodes_key word_most line.now) }
{
    let n = text::line_number(line, b"n=", WORD_MOST).ok_or(BadLine(k))? as usize;
    if rules::is_sized(n) {
        Ok(Header { n, ..h })
    } else {
        Err(BadLine(k))
    }
}

// f with 2f < n.
fn with_faults(k: usize, h: Header, line: &[u8]) -> Result<Header, BadLine>
    ensures { result ≡ with_faults k h (number_line faults_key word_most line.now) }
{
    let f = text::line_number(line, b"f=", WORD_MOST).ok_or(BadLine(k))? as usize;
    if 2 * f < h.n {
        Ok(Header { f, ..h })
    } else {
        Err(BadLine(k))
    }
}

// The mask of the nodes in a list.
fn mask_of(nodes: &[u64]) -> u16
    ensures { result ≡ mask_in nodes.now }
{
    let mut mask = 0;
    for node in 0..NODES_MOST {
        mask += (nodes.contains(&(node as u64)) as u16) << node;
    }
    mask
}

// At most f faulty nodes.
fn with_faulty(k: usize, h: Header, line: &[u8]) -> Result<Header, BadLine>
    ensures { result ≡ with_faulty k h (list_line faulty_key (Below h.n) line.now) }
{
    let list = text::line_list(line, b"faulty=", Kind::Below(h.n)).ok_or(BadLine(k))?;
    if h.f < list.count {
        return Err(BadLine(k));
    }
    let faulty = mask_of(list.in_use());
    Ok(Header { faulty, ..h })
}

// The header of a schedule, or its first bad line.
pub fn read_header(s: &[u8]) -> Result<Header, BadLine>
    ensures { result ≡ headed_of (lines_of s.now) }
{
    let h = with_nodes(1, Header::default(), text::first_line(s))?;
    let s = text::past_lines(s, 1);
    let h = with_faults(2, h, text::first_line(s))?;
    let s = text::past_lines(s, 1);
    with_faulty(3, h, text::first_line(s))
}
