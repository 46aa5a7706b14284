// Counts the rounds of tables for each variant of the start, and prints each answer.
#![tactic(auto)]

use rounds::Count;
use runs::Start;
use testkit::{field, name, refusal, table, title, word};

// The constants of the leads: their low bytes and their high bytes.
const LOW: [u8; 11] = [0, 1, 2, 3, 4, 7, 8, 15, 16, 255, 160];

const HIGH: [u8; 11] = [0, 0, 0, 0, 0, 0, 0, 0, 0, 3, 15];

// A name, and the answer on a table.
fn show(name: &[u8], bytes: &[u8], start: Start) {
    title(name);
    let answer = rounds::rounds(bytes, start);
    match answer {
        Count::Finite(c) => field(b"rounds ", c),
        Count::Endless => word(b"rounds without end"),
        Count::Refused(why) => refusal(why),
    }
    word(b"\n");
}

// 01's samples, a bare step, and no table.
fn samples(start: Start) {
    let tape = testkit::TABLES;
    let mut case: usize = 1;
    while case <= 13 {
        show(name(&tape, case), table(&tape, case), start);
        case += 1;
    }
}

// x at least 1, y at most or under a constant, x is reset: each round takes a tick, and the constant stops them.
fn lead(relation: u8, low: u8, high: u8, start: Start) {
    let bytes: [u8; 16] = [1, 2, 2, 1, 3, 1, 0, 2, 2, relation, low, high, 3, 1, 4, 5];
    show(b"lead", &bytes, start);
}

fn leads(relation: u8, start: Start) {
    let low = LOW;
    let high = HIGH;
    let mut i: usize = 0;
    while i < 11 {
        lead(relation, low[i], high[i], start);
        i += 1;
    }
}

// Six clocks and sixteen steps, each of which waits for a clock and resets it; the last also bounds clock 6.
fn wide(name: &[u8], relation: u8, constant: u8, start: Start) {
    let tail: [u8; 7] = [2, 6, relation, constant, 0, 4, 5];
    let mut bytes = [0u8; 136];
    testkit::wide(&mut bytes, &tail);
    show(name, &bytes, start);
}

// Every table, for one variant.
fn tables(start: Start) {
    samples(start);
    leads(1, start);
    leads(0, start);
    wide(b"six clocks, sixteen steps, at least 0", 3, 0, start);
    wide(b"six clocks, sixteen steps, at most 0", 1, 0, start);
}

fn main() {
    word(b"mid-shift\n");
    tables(Start::MidShift);
    word(b"log-in\n");
    tables(Start::LogIn);
}
