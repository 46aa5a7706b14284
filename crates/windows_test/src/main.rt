// Asks for the windows of tables, in rooms that are too short, exact and longer, and for the widest of them, and prints the answers
// and the rooms.
#![tactic(auto)]

ghost use Rattle.std.specs.Prelude.{◌≤◌};

use testkit::{field, fill, name, refusal, table, word};
use widest::Answer;
use window::Choice;
use windows::Panel;

// More tables, on a tape like testkit's. x is clock 1, y is clock 2, and a semicolon stands between steps.
//
//   one rounding        x at least 1, x under 2
//   a later bound       nothing; x at most 5
//   a reset before      x is reset; x at most 5
//   equal in parts      y under 1, x is reset; x exactly 7, x is reset
//   second of equals    x at most 1; x at most 5; x at most 5; x exactly 5; nothing
//   a chain             x over 3,999, x under 4,000, x is reset
//   sixteen steps       of six clocks: y at most 4,000; x at least 1, x is reset; nothing, fourteen times
//
// The last eight are refused.
const TABLES: [u8; 370] = *b"\
    x under 1:\x09\x01\x01\x02\x01\x00\x01\x00\x04\x05\
    one rounding:\x0e\x01\x01\x02\x01\x03\x01\x00\x02\x01\x00\x02\x00\x04\x05\
    a later bound:\x0a\x01\x01\x04\x02\x01\x01\x05\x00\x04\x05\
    a reset before:\x0c\x01\x01\x03\x01\x04\x02\x01\x01\x05\x00\x04\x05\
    equal in parts:\x13\x01\x02\x02\x02\x00\x01\x00\x03\x01\x04\x02\x01\x02\x07\x00\x03\x01\x04\x05\
    second of equals:\x1c\x01\x01\x02\x01\x01\x01\x00\x04\x02\x01\x01\x05\x00\x04\x02\x01\x01\x05\x00\x04\x02\x01\x02\x05\x00\x04\x04\x05\
    a chain:\x10\x01\x01\x02\x01\x04\x9f\x0f\x02\x01\x00\xa0\x0f\x03\x01\x04\x05\
    sixteen steps:\x1f\x01\x06\x02\x02\x01\xa0\x0f\x04\x02\x01\x03\x01\x00\x03\x01\x04\x04\x04\x04\x04\x04\x04\x04\x04\x04\x04\x04\x04\x04\x04\x05\
    no byte:\x00\
    kind 6:\x01\x06\
    no head:\x01\x05\
    clock 2 of 1:\x04\x01\x01\x03\x02\
    relation 5:\x07\x01\x01\x02\x01\x05\x00\x00\
    constant 4001:\x07\x01\x01\x02\x01\x00\xa1\x0f\
    no step:\x03\x01\x01\x05\
    a byte more:\x05\x01\x01\x04\x05\x05";

// A k so large that k times sixteen is 0 in 64 bits: 2^60.
const HUGE: u64 = 1152921504606846976;

// The bits of a time. A NaN, which is none, is told by one of its patterns.
fn bits(x: f64) -> u64 {
    if x != x {
        return 0x7ff8_0000_0000_0000;
    }
    f64::to_bits(x)
}

// A number by its sixteen hexadecimal digits. A time is printed by those of its bits: 0.3 is 3fd3333333333333, and 9, which the rooms
// hold at first, is 4022000000000000.
fn hexadecimal(x: u64) {
    let digits = *b"0123456789abcdef";
    let mut text = [0u8; 16];
    let mut left = x;
    let mut i: usize = 16;
    while i > 0 {
        i -= 1;
        text[i] = digits[(left % 16) as usize];
        left = left / 16;
    }
    word(&text);
}

fn mark(x: u8) {
    field(b"  ", x as u64);
}

// The time at a place, where the room has it.
fn time(times: &[f64], at: usize) {
    if at < times.len() {
        word(b" ");
        hexadecimal(bits(times[at]));
    }
}

// The line of a step: its mark and its two times, as far as the rooms have their places. No line where they have none.
fn row(marks: &[u8], times: &[f64], i: usize)
    requires { i ≤ 1024 }
{
    if i < marks.len() {
        mark(marks[i]);
    } else {
        if times.len() <= i * 2 {
            return;
        }
        word(b"   ");
    }
    time(times, i * 2);
    time(times, i * 2 + 1);
    word(b"\n");
}

fn rows(marks: &[u8], times: &[f64], from: usize, to: usize)
    requires { to ≤ 1025 }
{
    let mut i = from;
    while i < to {
        row(marks, times, i);
        i += 1;
    }
}

// The sum of the bits of all times, in 64 bits.
fn sum(times: &[f64]) {
    let mut total: u64 = 0;
    let mut i: usize = 0;
    while i < times.len() {
        total = std::num::wrapping_add_u64(total, bits(times[i]));
        i += 1;
    }
    word(b"  sum ");
    hexadecimal(total);
    word(b"\n");
}

// Small rooms whole; of large ones the ends, two places between, and the sum.
fn rooms(marks: &[u8], times: &[f64]) {
    if marks.len() < 9 {
        rows(marks, times, 0, 9);
        return;
    }
    rows(marks, times, 0, 2);
    rows(marks, times, 511, 513);
    rows(marks, times, 1007, 1010);
    rows(marks, times, 1021, 1025);
    sum(times);
}

// The answer on the windows of k rounds, and both rooms as they then are.
fn ask(bytes: &[u8], k: u64, marks: &mut [u8], times: &mut [f64]) {
    let panel = windows::windows(bytes, k, &mut *marks, &mut *times);
    match panel {
        Panel::Shown(steps) => field(b"steps ", steps as u64),
        Panel::Refused(why) => refusal(why),
    }
    word(b"\n");
    rooms(&*marks, &*times);
}

// The same in the first places of some rooms.
fn part(bytes: &[u8], k: u64, marks: &mut [u8], times: &mut [f64], a: usize, b: usize) {
    if a <= marks.len() {
        if b <= times.len() {
            ask(bytes, k, &mut marks[..a], &mut times[..b]);
        }
    }
}

fn chosen(choice: Choice) {
    match choice {
        Choice::Widest(times) => {
            hexadecimal(bits(times.first));
            word(b" ");
            hexadecimal(bits(times.last));
        }
        Choice::NoneClosed => word(b"none closed"),
    }
}

// The answer on the widest window of k rounds.
fn tell(bytes: &[u8], k: u64) {
    word(b"  widest: ");
    let answer = widest::widest(bytes, k);
    match answer {
        Answer::Told(choice) => chosen(choice),
        Answer::Refused(why) => refusal(why),
    }
    word(b"\n");
}

// Both questions, with rooms for so many marks and so many times; beside large rooms only the windows.
fn show(name: &[u8], bytes: &[u8], k: u64, a: usize, b: usize) {
    word(name);
    field(b" for ", k);
    field(b", rooms of ", a as u64);
    field(b" and ", b as u64);
    word(b": ");
    let mut marks = [9u8; 1025];
    let mut times = [9.0f64; 2049];
    part(bytes, k, &mut marks, &mut times, a, b);
    if a < 9 {
        tell(bytes, k);
    }
}

// The same of a table on a tape.
fn case(tape: &[u8], which: usize, k: u64, a: usize, b: usize) {
    show(name(tape, which), table(tape, which), k, a, b);
}

// 01's samples, in rooms with a mark and a time to spare.
fn samples(tape: &[u8]) {
    // S1: from 9 parts of 3; from 12 and from 24 parts of 4.
    case(tape, 1, 1, 2, 3);
    case(tape, 1, 2, 3, 5);
    // S2: 12 to 20 parts of 4; no run.
    case(tape, 2, 1, 2, 3);
    case(tape, 2, 2, 3, 5);
    // S3: 12 to 23 parts of 4; no run.
    case(tape, 3, 1, 2, 3);
    case(tape, 3, 2, 3, 5);
    // S4: 15 and 30 parts of 5, with no width; no run.
    case(tape, 4, 2, 3, 5);
    case(tape, 4, 3, 4, 7);
    // S5, S6 and S7: no run.
    case(tape, 5, 1, 2, 3);
    case(tape, 6, 1, 2, 3);
    case(tape, 7, 1, 2, 3);
    // S8: 1 to 3, 2 to 4 and 3 to 5 parts of 6.
    case(tape, 8, 3, 4, 7);
    // S9: 8 and 8 parts of 4.
    case(tape, 9, 2, 3, 5);
    // S10: 0 to 14, then from 21, from 21 and from 42 parts of 7.
    case(tape, 10, 2, 5, 9);
    // S11: 5 to 19,995 and 10 to 20,000 parts of 5.
    case(tape, 11, 2, 3, 5);
}

// The tables above.
fn tables(tape: &[u8]) {
    // 0 to 2 parts of 3.
    case(tape, 1, 1, 2, 3);
    // 3 to 5 parts of 3: 3 times 0.1 over 3, and 5 over 3 over 10, are other numbers.
    case(tape, 2, 1, 2, 3);
    // 0 to 20 parts of 4, both.
    case(tape, 3, 1, 3, 5);
    // From 0, both.
    case(tape, 4, 1, 3, 5);
    // 0 to 4 and 35 to 39 parts of 5: in seconds, the second is the wider.
    case(tape, 5, 1, 3, 5);
    // 0 to 7, 0 to 35, 0 to 35, 35, and from 35 parts of 7.
    case(tape, 6, 1, 6, 11);
    // 15,997 to 15,999 and 31,994 to 31,998 parts of 4.
    case(tape, 7, 2, 3, 5);
}

// S4 for 2 needs 2 marks and 4 times, and S6 for 1, which has no run, a mark and 2 times.
fn short_rooms(tape: &[u8]) {
    case(tape, 4, 2, 1, 4);
    case(tape, 4, 2, 2, 3);
    case(tape, 4, 2, 1, 3);
    case(tape, 4, 2, 0, 6);
    case(tape, 4, 2, 4, 0);
    case(tape, 4, 2, 2, 4);
    case(tape, 6, 1, 0, 2);
    case(tape, 6, 1, 1, 1);
    case(tape, 6, 1, 1, 2);
}

// k of 0, too large, and far too large, also where the rooms are too short.
fn out_of_range(first: &[u8], second: &[u8]) {
    case(first, 1, 0, 0, 0);
    case(first, 1, 0, 1, 2);
    case(first, 1, 1025, 1, 2);
    case(first, 1, HUGE, 1, 2);
    case(first, 1, 18446744073709551615, 1, 2);
    case(first, 11, 4000, 1, 2);
    case(second, 6, 205, 1, 2);
    case(second, 8, 65, 1, 2);
    case(second, 8, 268435456, 1, 2);
    case(second, 8, HUGE, 1, 2);
}

// As many steps as are allowed.
fn most_steps(first: &[u8], second: &[u8]) {
    // Step i: i to 2,976 + i ticks.
    case(first, 11, 1024, 1025, 2049);
    case(first, 11, 1024, 1023, 2048);
    case(first, 11, 1024, 1024, 2047);
    // Step i: i times 4,102,975 to i times 4,103,999 parts of 1026. The widest needs no room.
    case(second, 7, 1024, 1025, 2049);
    case(second, 7, 1024, 0, 0);
    // Closed up to step 1009, and then open.
    case(second, 8, 64, 1025, 2049);
}

// The reader's refusals come first: here k is far too large and the rooms are too short.
fn faults(tape: &[u8]) {
    case(tape, 9, HUGE, 1, 1);
    case(tape, 10, HUGE, 1, 1);
    case(tape, 11, HUGE, 1, 1);
    case(tape, 12, HUGE, 1, 1);
    case(tape, 13, HUGE, 1, 1);
    case(tape, 14, HUGE, 1, 1);
    case(tape, 15, HUGE, 1, 1);
    case(tape, 16, HUGE, 1, 1);
    // One of them alone.
    case(tape, 16, 0, 1, 1);
    case(tape, 16, 1, 0, 1);
}

// Two that take a long table.
fn long_tables() {
    let zeros = [0u8; 4097];
    show(b"4097 bytes", &zeros, HUGE, 1, 1);
    let mut bytes = [0u8; 327];
    fill(&mut bytes, b"\x01\x01", b"\x02\x01\x03\x00\x00", b"");
    show(b"65 guards", &bytes, HUGE, 1, 1);
}

fn main() {
    let first = testkit::TABLES;
    let second = TABLES;
    samples(&first);
    tables(&second);
    short_rooms(&first);
    out_of_range(&first, &second);
    most_steps(&first, &second);
    faults(&second);
    long_tables();
}
