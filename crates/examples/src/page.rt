// The page: what stands before a blank is copied, and an answer written in the blank's place.
use rules::Refusal;

const BLANK: u8 = b'?';
// Bytes from one blank to the next, at most.
const COPIED_MOST: usize = 4096;

// Copies a byte of the page; not so at a blank, or at the end.
fn copy_one() -> bool {
    let mut one = [0u8; 1];
    if io::read_full(0, &mut one) == 0 {
        return false;
    }
    if one[0] == BLANK {
        return false;
    }
    io::write_all(1, &one)
}

// Copies the page to the next blank, or to the end.
pub(crate) fn copy() {
    for _ in 0..COPIED_MOST {
        if !copy_one() {
            return;
        }
    }
}

pub(crate) fn number(v: u64) {
    copy();
    io::print_decimal(1, v);
}

pub(crate) fn refusal(row: Refusal) {
    number(u64::from(u8::from(row)));
}

// The number of an answer, 0 where it is done; its value is handed back, or what stands in its place where it is refused.
pub(crate) fn answer<T: Copy>(answer: Result<T, Refusal>, nothing: T) -> T {
    match answer {
        Ok(value) => {
            number(0);
            value
        }
        Err(row) => {
            refusal(row);
            nothing
        }
    }
}

pub(crate) fn unreadable() {
    copy();
    io::write_all(1, b"unreadable");
}

// The first `count` numbers, bytes or entries, a space before each.
pub(crate) fn numbers<T: Copy>(s: &[T], count: usize)
where
    u64: From<T>,
{
    copy();
    for v in s.iter().take(count) {
        io::write_all(1, b" ");
        io::print_decimal(1, u64::from(*v));
    }
}
