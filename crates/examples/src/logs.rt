// The bar and the close.
use crate::page;
use crate::rounds::{alone, closed};
use node::Node;
use rules::LOG_MOST;

// What meter and interval weigh in an entry.
const METER: u64 = 281474976710656;

const INTERVAL: u64 = 4294967296;
// The most watt-hours that an entry can say.
const WATT_HOURS_MOST: u64 = INTERVAL - 1;
// One entry more than a log may have, and one fewer.
const ONE_TOO_MANY: usize = LOG_MOST + 1;

const ONE_TOO_FEW: usize = LOG_MOST - 1;
// The entries 3.4.1, 3.5.70, 3.6.2 and 3.7.4, as meter.interval.watthours.
const IN_4: u64 = 3 * METER + 4 * INTERVAL + 1;

const IN_5: u64 = 3 * METER + 5 * INTERVAL + 70;

const IN_6: u64 = 3 * METER + 6 * INTERVAL + 2;

const IN_7: u64 = 3 * METER + 7 * INTERVAL + 4;
// The entries that come next after 4,095 of the log below, meter 0 in the intervals 4,095 and 4,096.
const LAST: u64 = 4095 * INTERVAL + WATT_HOURS_MOST;

const BEYOND: u64 = 4096 * INTERVAL + WATT_HOURS_MOST;

// A bar of a meter.
fn bar(log: &[u64], meter: u16, first: u16, last: u16) {
    let sum = page::answer(reading_log::bar(log, meter, first, last), 0);
    page::number(sum);
}

fn bar_of_four(third: u64, meter: u16, first: u16, last: u16) {
    let log = [IN_4, IN_5, third, IN_7];
    bar(&log, meter, first, last);
}

// Meter 0 in each interval from 0 on, always with the most watt-hours.
fn fill(log: &mut [u64]) {
    for (i, entry) in log.iter_mut().enumerate() {
        *entry = i as u64 % 65536 * INTERVAL + WATT_HOURS_MOST;
    }
}

// All of it, of a log filled so.
fn bar_of_filled(log: &mut [u64]) {
    fill(log);
    bar(log, 0, 0, 65535);
}

// 4,096 × (2^32 − 1).
fn a_bar_at_its_limit() {
    let mut log = [0u64; LOG_MOST];
    bar_of_filled(&mut log);
}

fn a_log_of_one_too_many() {
    let mut log = [0u64; ONE_TOO_MANY];
    bar_of_filled(&mut log);
}

fn close_on_4095(node: Node) {
    let mut old = [0u64; ONE_TOO_FEW];
    fill(&mut old);
    closed(node, &old);
}

pub(crate) fn all() {
    // Both ends are included; a bar with none is 0; first after last is 11; equal neighbours are 7.
    bar_of_four(IN_6, 3, 5, 6);
    bar_of_four(IN_6, 2, 0, 65535);
    bar_of_four(IN_6, 3, 6, 5);
    bar_of_four(IN_5, 3, 6, 5);
    a_bar_at_its_limit();
    a_log_of_one_too_many();
    // P1: alone, the log is the own batch.
    let old = [0u64; 0];
    closed(alone(1, 1, 0), &old);
    // An old log of 4,095 and one new entry is done, with two it is 8.
    close_on_4095(alone(1, LAST, 0));
    close_on_4095(alone(2, LAST, BEYOND));
}
