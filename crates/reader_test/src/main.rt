// Runs the reader on small, long and faulty tables, and prints each answer.
#![tactic(auto)]

use table::Read;
use testkit::{field, fill, name, refusal, table, title, word};

// Small tables: cut short, of wrong kinds, on clocks, with numbers at their limits, at their ends, with two faults, of which the
// first counts and, within a record, the order of the rows, and with a clock that is reset twice.
const SMALL: [u8; 1418] = *b"\
    empty:\x00\
    lone head kind:\x01\x01\
    head only:\x02\x01\x01\
    guard cut:\x06\x01\x01\x02\x01\x01\x00\
    reset cut:\x03\x01\x01\x03\
    no end:\x03\x01\x01\x04\
    kind 0 first:\x01\x00\
    kind 6 first:\x01\x06\
    kind 255 later:\x03\x01\x01\xff\
    no head first:\x01\x04\
    second head:\x04\x01\x01\x01\x01\
    second head, cut:\x03\x01\x01\x01\
    end first:\x01\x05\
    0 clocks:\x04\x01\x00\x04\x05\
    1 clock:\x04\x01\x01\x04\x05\
    6 clocks:\x04\x01\x06\x04\x05\
    7 clocks:\x04\x01\x07\x04\x05\
    reset of clock 0:\x06\x01\x01\x03\x00\x04\x05\
    reset of clock 2 of 1:\x06\x01\x01\x03\x02\x04\x05\
    guard on clock 0:\x09\x01\x01\x02\x00\x01\x00\x00\x04\x05\
    guard on clock 2 of 1:\x09\x01\x01\x02\x02\x01\x00\x00\x04\x05\
    relation 4:\x09\x01\x01\x02\x01\x04\x00\x00\x04\x05\
    relation 5:\x09\x01\x01\x02\x01\x05\x00\x00\x04\x05\
    constant 4000:\x09\x01\x01\x02\x01\x01\xa0\x0f\x04\x05\
    constant 4001:\x09\x01\x01\x02\x01\x01\xa1\x0f\x04\x05\
    constant 4096:\x09\x01\x01\x02\x01\x01\x00\x10\x04\x05\
    constant 65535:\x09\x01\x01\x02\x01\x01\xff\xff\x04\x05\
    no step:\x03\x01\x01\x05\
    unfinished step, reset:\x06\x01\x01\x04\x03\x01\x05\
    unfinished step, guard:\x09\x01\x01\x04\x02\x01\x01\x00\x00\x05\
    a byte after the end:\x05\x01\x01\x04\x05\x00\
    a record after the end:\x05\x01\x01\x04\x05\x04\
    unfinished step and a tail:\x07\x01\x01\x04\x03\x01\x05\x00\
    timer, then kind:\x05\x01\x01\x03\x02\x09\
    kind, then timer:\x05\x01\x01\x09\x03\x02\
    timer, relation and constant:\x09\x01\x01\x02\x02\x05\xff\xff\x04\x05\
    relation and constant:\x09\x01\x01\x02\x01\x05\xff\xff\x04\x05\
    no head first, and cut:\x01\x02\
    reset before guard:\x0b\x01\x01\x03\x01\x02\x01\x03\x03\x00\x04\x05\
    reset twice:\x08\x01\x01\x03\x01\x03\x01\x04\x05\
    reset twice, a guard between:\x0d\x01\x01\x03\x01\x02\x01\x01\x00\x00\x03\x01\x04\x05\
    reset twice, another between:\x0a\x01\x02\x03\x01\x03\x02\x03\x01\x04\x05\
    reset again in the next step:\x09\x01\x01\x03\x01\x04\x03\x01\x04\x05\
    reset again, two steps on:\x0c\x01\x02\x03\x01\x04\x03\x02\x04\x03\x01\x04\x05\
    reset in the next step, then twice:\x0b\x01\x01\x03\x01\x04\x03\x01\x03\x01\x04\x05\
    six resets:\x10\x01\x06\x03\x01\x03\x02\x03\x03\x03\x04\x03\x05\x03\x06\x04\x05\
    six resets, the first again:\x12\x01\x06\x03\x01\x03\x02\x03\x03\x03\x04\x03\x05\x03\x06\x03\x01\x04\x05\
    six resets, the last again:\x12\x01\x06\x03\x01\x03\x02\x03\x03\x03\x04\x03\x05\x03\x06\x03\x06\x04\x05\
    reset of clock 2 of 1, twice:\x08\x01\x01\x03\x02\x03\x02\x04\x05\
    reset of clock 0, twice:\x08\x01\x01\x03\x00\x03\x00\x04\x05\
    reset twice, cut:\x05\x01\x01\x03\x01\x03\
    reset twice, then kind:\x07\x01\x01\x03\x01\x03\x01\x09\
    reset twice, then timer:\x0a\x01\x01\x03\x01\x03\x01\x03\x02\x04\x05\
    reset twice, and unfinished:\x07\x01\x01\x03\x01\x03\x01\x05\
    kind, then reset twice:\x09\x01\x01\x03\x01\x09\x03\x01\x04\x05";

// 01's samples among testkit's tables, as far as they differ for the reader.
const SAMPLES: [usize; 7] = [1, 2, 6, 7, 9, 10, 11];

// A name, and the answer on a table.
fn show(name: &[u8], bytes: &[u8]) {
    title(name);
    let answer = wire::read(bytes);
    match answer {
        Read::Counted {
            clocks,
            steps,
            guards,
        } => {
            field(b"clocks ", clocks as u64);
            field(b" steps ", steps as u64);
            field(b" guards ", guards as u64);
        }
        Read::Refused(why) => refusal(why),
    }
    word(b"\n");
}

fn small() {
    let tape = SMALL;
    let mut case: usize = 1;
    while case <= 55 {
        show(name(&tape, case), table(&tape, case));
        case += 1;
    }
}

// The answer on a table that fills a room: a head, a pattern over and over, and a tail.
fn long(name: &[u8], room: &mut [u8], head: &[u8], pattern: &[u8], tail: &[u8]) {
    fill(&mut *room, head, pattern, tail);
    show(name, &*room);
}

// One step of guards on a clock, the last of them perhaps on another.
fn guards() {
    let head = b"\x01\x01";
    let guard = b"\x02\x01\x01\x00\x00";
    let mut most = [0u8; 324];
    long(b"64 guards", &mut most, head, guard, b"\x04\x05");
    let mut more = [0u8; 329];
    long(b"65 guards", &mut more, head, guard, b"\x04\x05");
    let other = b"\x02\x09\x01\x00\x00\x04\x05";
    long(
        b"65 guards, the last on clock 9",
        &mut more,
        head,
        guard,
        other,
    );
}

// Steps with nothing in them.
fn steps() {
    let mut most = [0u8; 19];
    long(b"16 steps", &mut most, b"\x01\x01", b"\x04", b"\x05");
    let mut more = [0u8; 20];
    long(b"17 steps", &mut more, b"\x01\x01", b"\x04", b"\x05");
}

// The longest table, sixteen steps with four guards and six resets each, and a reset more; a step of as many resets of a clock as
// fill all that is read, and a byte after it.
fn longest() {
    let head = b"\x01\x06";
    let step =
        b"\x02\x01\x01\xa0\x0f\x02\x02\x01\xa0\x0f\x02\x03\x01\xa0\x0f\x02\x04\x01\xa0\x0f\x03\x01\x03\x02\x03\x03\x03\x04\x03\x05\x03\x06\x04";
    let mut full = [0u8; 531];
    long(b"531 bytes", &mut full, head, step, b"\x05");
    let mut over = [0u8; 533];
    long(
        b"531 bytes, and a reset",
        &mut over,
        head,
        step,
        b"\x03\x06\x04\x05",
    );
    let reset = b"\x03\x06";
    let mut most = [0u8; 4096];
    long(b"4096 bytes", &mut most, head, reset, b"\x04\x05");
    let mut more = [0u8; 4097];
    long(b"4097 bytes", &mut more, head, reset, b"\x04\x05\x03");
}

// All proper prefixes of a table of three steps, and the whole of it.
fn prefixes() {
    let t: [u8; 20] = [1, 2, 2, 1, 3, 3, 0, 3, 1, 4, 2, 2, 1, 5, 0, 4, 3, 2, 4, 5];
    let mut n: usize = 0;
    while n < 21 {
        show(b"prefix", &t[..n]);
        n += 1;
    }
}

fn samples() {
    let tape = testkit::TABLES;
    let which = SAMPLES;
    let mut i: usize = 0;
    while i < 7 {
        show(name(&tape, which[i]), table(&tape, which[i]));
        i += 1;
    }
}

fn main() {
    small();
    guards();
    steps();
    longest();
    prefixes();
    samples();
}
