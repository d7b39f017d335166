// Reading text: places of bytes, decimal numbers, entries, lists by commas, lines and their keys, lower-case hex. Each reader is handed a part of the
// text, and reads the whole of that part.
#![tactic(auto)]

mod decimal;
mod hex;
mod line;
mod list;
mod places;

pub use decimal::read_field;
pub use hex::{hex_into, hex_size};
pub use line::{first_line, keyed, line_list, line_number, past_lines, value};
pub use places::past;

pub const LF: u8 = b'\n';

pub const COMMA: u8 = b',';

pub const DOT: u8 = b'.';

// The most that 16 bits hold, and that 32 bits hold.
pub const HALF_MOST: u32 = 65535;

pub const WORD_MOST: u32 = 4294967295;

// What a list's items are: numbers below so much, or entries. It is data and no closure: the contract of each reader of a list names it.
#[derive(Clone, Copy)]
pub enum Kind {
    Below(usize),
    Entry,
}
