// The wire: records, messages, inboxes.
use crate::page;

fn record(n: usize, part: &[u8]) {
    match wire::read_record(n, part) {
        Ok(Some(vote)) => {
            page::number(vote.primary as u64);
            page::number(u64::from(vote.mask));
            page::number(vote.count as u64);
            page::number(vote.next as u64);
        }
        Ok(None) => page::unreadable(),
        Err(row) => page::refusal(row),
    }
}

// A record that is a whole message: the bytes of its entries, and how many votes the message has.
fn message(n: usize, part: &[u8]) {
    record(n, part);
    page::numbers(wire::batch_bytes(n, part), part.len());
    match wire::read_message(n, part) {
        Ok(Some(votes)) => page::number(votes as u64),
        Ok(None) => page::unreadable(),
        Err(row) => page::refusal(row),
    }
}

fn inbox(n: usize, inbox: &[u8]) {
    let unreadable = page::answer(wire::read_inbox(n, 0, inbox), 0);
    page::number(u64::from(unreadable));
}

// The vote of P2, into an output with a place to spare: entry 3.5.70 is 3 × 2^48 + 5 × 2^32 + 70.
fn write() {
    let batch = [844446404968518u64];
    let mut output = [7u8; 13];
    let size = wire::write_record(3, 0, 1, &batch, &mut output).unwrap_or(0);
    page::number(size as u64);
    page::numbers(&output, 13);
}

fn seventeen_entries() {
    let mut part = [0u8; 140];
    part[1] = 17;
    part[2] = 1;
    record(3, &part);
}

pub(crate) fn all() {
    // P2: the twelve bytes read as a vote, and are written of it.
    message(3, b"\x00\x01\x01\x00\x00\x03\x00\x05\x00\x00\x00\x46");
    write();
    // P3.
    seventeen_entries();
    // P4: equal neighbours.
    record(
        3,
        b"\x00\x02\x01\x00\
        \x00\x00\x00\x00\x00\x00\x00\x07\
        \x00\x00\x00\x00\x00\x00\x00\x07",
    );
    // P9: mask bit 3 of three nodes.
    record(3, b"\x00\x00\x09\x00");
    // Seventeen nodes.
    record(17, b"\x00\x00\x01\x00");
    // Sender 0 is silent, sender 1 says the vote of P2, sender 2's one byte is unreadable.
    inbox(
        3,
        b"\x00\x00\
        \x0c\x00\x00\x01\x01\x00\x00\x03\x00\x05\x00\x00\x00\x46\
        \x01\x00\x09",
    );
    // One byte too long.
    inbox(1, b"\x00\x00\x00");
}
