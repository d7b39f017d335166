// Printing: each writer writes over the front of the output that it is lent if there is room for the whole text, and else writes nothing.
#![tactic(auto)]

ghost use Rattle.text.specs.Put.{Put};
ghost use Rattle.print.specs.Texts.{decimal_of, line_text, list_text};

mod fill;
mod sizes;

// What a list's items are: node numbers, or entries. An enum, and no trait with two types: items of both kinds are `u64`, so the type would stand for the
// kind alone, and each function that is handed `kind` would name it all the same.
#[derive(Clone, Copy)]
pub enum Items {
    Nodes,
    Entries,
}

// The bytes as they are; how many were written.
pub fn put_bytes(output: &mut [u8], bytes: &[u8]) -> usize
    ensures { Put bytes.now output.old result output.new }
{
    if output.len() < bytes.len() {
        return 0;
    }
    fill::bytes(output, bytes)
}

// A line key=number; how many bytes were written.
pub fn put_number_line(output: &mut [u8], key: &[u8], v: u64) -> usize
    ensures { Put (line_text key.now (decimal_of v)) output.old result output.new }
{
    let size = sizes::number_size(v) + 1;
    if output.len() < size {
        return 0;
    }
    if output.len() - size < key.len() {
        return 0;
    }
    fill::number_line(output, key, v)
}

// A line key=list; how many bytes were written.
pub fn put_list_line(output: &mut [u8], key: &[u8], kind: Items, xs: &[u64]) -> usize
    ensures { Put (line_text key.now (list_text kind xs.now)) output.old result output.new }
{
    if output.len() <= key.len() {
        return 0;
    }
    if !sizes::list_fits(kind, xs, output.len() - key.len() - 1) {
        return 0;
    }
    fill::list_line(output, key, kind, xs)
}
