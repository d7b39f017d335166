// The signing count. The mark is 32 zeros.
use crate::page;
use signing::{MARK_SIZE, SLOT_SIZE, signers};

// The signers that node 0 of n counts.
fn counted(n: usize, f: usize, slots: &[u8]) {
    let mark = [0u8; MARK_SIZE];
    let mask = page::answer(signers(n, f, 0, &mark, slots), 0);
    page::number(u64::from(mask));
}

// Of three nodes one may be faulty; node 1's slot has this first byte and this last one, the others' are silent.
fn one_slot(first: u8, last: u8) {
    let mut slots = [0u8; 3 * SLOT_SIZE];
    slots[SLOT_SIZE] = first;
    slots[2 * SLOT_SIZE - 1] = last;
    counted(3, 1, &slots);
}

// One silent slot.
fn silence(n: usize, f: usize) {
    let slots = [0u8; SLOT_SIZE];
    counted(n, f, &slots);
}

// One byte fewer than three slots have.
fn a_byte_missing() {
    let slots = [0u8; 3 * SLOT_SIZE - 1];
    counted(3, 1, &slots);
}

pub(crate) fn all() {
    // P11: one equal mark from another is done; none is 10.
    one_slot(1, 0);
    one_slot(0, 0);
    // A first byte of 2 is silence; another mark does not sign.
    one_slot(2, 0);
    one_slot(1, 1);
    // A node alone signs for itself, though its own slot is silent.
    silence(1, 0);
    a_byte_missing();
    // Half of the nodes faulty is 1, and so is the greatest number as f.
    silence(16, 8);
    silence(16, 18446744073709551615);
}
