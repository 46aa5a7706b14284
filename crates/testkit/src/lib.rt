// What the test programs share: 01's samples, tables of any length, and printing.
#![tactic(auto)]

ghost use Rattle.std.specs.Prelude.{◌≡◌, [], ◌∷◌, ◌≤◌, length};
ghost use Rattle.testkit.specs.Filled.{repeated_of, byte_of, filled_of, wide_steps};

// The standard output, as a file of the C library.
const STDOUT_FILENO: i32 = 1;

use std::array::from_fn;
use table::Refusal;

// A tape of cases: of each a name, a colon, the length of its table, and the table. First 01's samples; x is clock 1, y clock 2.
//
//   S1  x at least 3, x is reset                      S7   x at most 0, x over 0, x is reset
//   S2  x at least 3, y at most 5, x is reset         S8   x over 0, y under 1, x is reset
//   S3  S2 with y under 6                             S9   x exactly 2
//   S4  S2 with y at most 6                           S10  x at most 2, y is reset; then y at least 3, x is reset
//   S5  x over 0, y at most 0, x is reset             S11  x at least 1, y at most 4,000, x is reset
//   S6  x under 0
pub const TABLES: [u8; 403] = *b"\
    S1:\x0b\x01\x01\x02\x01\x03\x03\x00\x03\x01\x04\x05\
    S2:\x10\x01\x02\x02\x01\x03\x03\x00\x02\x02\x01\x05\x00\x03\x01\x04\x05\
    S3:\x10\x01\x02\x02\x01\x03\x03\x00\x02\x02\x00\x06\x00\x03\x01\x04\x05\
    S4:\x10\x01\x02\x02\x01\x03\x03\x00\x02\x02\x01\x06\x00\x03\x01\x04\x05\
    S5:\x10\x01\x02\x02\x01\x04\x00\x00\x02\x02\x01\x00\x00\x03\x01\x04\x05\
    S6:\x09\x01\x01\x02\x01\x00\x00\x00\x04\x05\
    S7:\x10\x01\x01\x02\x01\x01\x00\x00\x02\x01\x04\x00\x00\x03\x01\x04\x05\
    S8:\x10\x01\x02\x02\x01\x04\x00\x00\x02\x02\x00\x01\x00\x03\x01\x04\x05\
    S9:\x09\x01\x01\x02\x01\x02\x02\x00\x04\x05\
    S10:\x13\x01\x02\x02\x01\x01\x02\x00\x03\x02\x04\x02\x02\x03\x03\x00\x03\x01\x04\x05\
    S11:\x10\x01\x02\x02\x01\x03\x01\x00\x02\x02\x01\xa0\x0f\x03\x01\x04\x05\
    a bare step:\x04\x01\x01\x04\x05\
    no table:\x03\x01\x01\x05\
    two steps:\x05\x01\x01\x04\x04\x05\
    two bare steps:\x05\x01\x01\x04\x04\x05\
    every relation:\x1d\x01\x01\x02\x01\x00\x01\x00\x02\x01\x01\x02\x00\x02\x01\x02\x03\x00\x02\x01\x03\x04\x00\x02\x01\x04\xa0\x0f\x04\x05\
    three clocks:\x27\x01\x03\x03\x01\x02\x01\x01\x01\x00\x02\x02\x01\x02\x00\x02\x03\x01\x03\x00\x04\x02\x01\x03\x04\x00\x02\x02\x03\x05\x00\x02\x03\x04\x06\x00\x03\x02\x04\x05\
    a lead of 1022:\x10\x01\x02\x02\x01\x03\x01\x00\x02\x02\x01\xfe\x03\x03\x01\x04\x05";

// More tables, for scans, on a tape like the one above. x, y and z are clocks 1, 2 and 3, and a semicolon stands between steps.
//
//   numbers            x at most 9, y at most 9; x is reset, y at most 0, x at most 0
//   reset first        x is reset, x at most 2
//   exactly between    x at least 0, x exactly 5, x at most 9
//   exactly first      x exactly 5, x is reset, y at most 9
//   resets between     x is reset, x at least 2, y is reset, y at most 5, x at most 8
//   five relations     clock 1 under 5, clock 2 at most 5, clock 3 exactly 5, clock 4 at least 5, clock 5 over 5
//   six guards         clocks 1 to 6 at most 10, clocks 2 and 5 are reset
//   every two ticks    x exactly 2, x is reset
//   sixteen steps      x exactly 1; x exactly 2; and so on; x exactly 16, x is reset
//   rail               hook in: z at least 20, x is reset; settle: x at least 30, x at most 400;
//                      weigh: x at least 50, x under 600, y is reset; label: y at least 5, y at most 50;
//                      scan out: y over 10, x at most 1,000, z is reset
//
// Then six with one bare step, and ten that are refused.
pub const MORE_TABLES: [u8; 776] = *b"\
    x at most 4000:\x09\x01\x01\x02\x01\x01\xa0\x0f\x04\x05\
    x over 4000:\x09\x01\x01\x02\x01\x04\xa0\x0f\x04\x05\
    numbers:\x1b\x01\x02\x02\x01\x01\x09\x00\x02\x02\x01\x09\x00\x04\x03\x01\x02\x02\x01\x00\x00\x02\x01\x01\x00\x00\x04\x05\
    reset first:\x0b\x01\x01\x03\x01\x02\x01\x01\x02\x00\x04\x05\
    exactly between:\x13\x01\x01\x02\x01\x03\x00\x00\x02\x01\x02\x05\x00\x02\x01\x01\x09\x00\x04\x05\
    exactly first:\x10\x01\x02\x02\x01\x02\x05\x00\x03\x01\x02\x02\x01\x09\x00\x04\x05\
    resets between:\x17\x01\x02\x03\x01\x02\x01\x03\x02\x00\x03\x02\x02\x02\x01\x05\x00\x02\x01\x01\x08\x00\x04\x05\
    five relations:\x1d\x01\x05\x02\x01\x00\x05\x00\x02\x02\x01\x05\x00\x02\x03\x02\x05\x00\x02\x04\x03\x05\x00\x02\x05\x04\x05\x00\x04\x05\
    six guards:\x26\x01\x06\x02\x01\x01\x0a\x00\x02\x02\x01\x0a\x00\x02\x03\x01\x0a\x00\x02\x04\x01\x0a\x00\x02\x05\x01\x0a\x00\x02\x06\x01\x0a\x00\x03\x02\x03\x05\x04\x05\
    every two ticks:\x0b\x01\x01\x02\x01\x02\x02\x00\x03\x01\x04\x05\
    sixteen steps:\x65\x01\x01\x02\x01\x02\x01\x00\x04\x02\x01\x02\x02\x00\x04\x02\x01\x02\x03\x00\x04\x02\x01\x02\x04\x00\x04\x02\x01\x02\x05\x00\x04\x02\x01\x02\x06\x00\x04\x02\x01\x02\x07\x00\x04\x02\x01\x02\x08\x00\x04\x02\x01\x02\x09\x00\x04\x02\x01\x02\x0a\x00\x04\x02\x01\x02\x0b\x00\x04\x02\x01\x02\x0c\x00\x04\x02\x01\x02\x0d\x00\x04\x02\x01\x02\x0e\x00\x04\x02\x01\x02\x0f\x00\x04\x02\x01\x02\x10\x00\x03\x01\x04\x05\
    rail:\x3b\x01\x03\x02\x03\x03\x14\x00\x03\x01\x04\x02\x01\x03\x1e\x00\x02\x01\x01\x90\x01\x04\x02\x01\x03\x32\x00\x02\x01\x00\x58\x02\x03\x02\x04\x02\x02\x03\x05\x00\x02\x02\x01\x32\x00\x04\x02\x02\x04\x0a\x00\x02\x01\x01\xe8\x03\x03\x03\x04\x05\
    1 clock:\x04\x01\x01\x04\x05\
    2 clocks:\x04\x01\x02\x04\x05\
    3 clocks:\x04\x01\x03\x04\x05\
    4 clocks:\x04\x01\x04\x04\x05\
    5 clocks:\x04\x01\x05\x04\x05\
    6 clocks:\x04\x01\x06\x04\x05\
    no byte:\x00\
    kind 6:\x01\x06\
    no head:\x01\x05\
    clock 2 of 1:\x06\x01\x01\x03\x02\x04\x05\
    relation 5:\x09\x01\x01\x02\x01\x05\x00\x00\x04\x05\
    constant 4001:\x09\x01\x01\x02\x01\x00\xa1\x0f\x04\x05\
    no step:\x03\x01\x01\x05\
    a byte more:\x05\x01\x01\x04\x05\x05\
    reset twice:\x08\x01\x01\x03\x01\x03\x01\x04\x05\
    clock 2 of 1, in step 2:\x07\x01\x01\x04\x03\x02\x04\x05";

// Where a byte stands next in a text, from a place on; the end, where it does not.
pub fn find(text: &[u8], from: usize, byte: u8) -> usize
    requires { from ≤ length text.now }
    ensures { (from ≤ result) × (result ≤ length text.now) }
{
    match text[from..].iter().position(|x| *x == byte) {
        Some(i) => from + i,
        None => text.len(),
    }
}

// Where the name that begins at a place of a tape ends: the next colon, or the end.
fn colon(tape: &[u8], from: usize) -> usize
    requires { from ≤ length tape.now }
    ensures { (from ≤ result) × (result ≤ length tape.now) }
{
    find(tape, from, b':')
}

// Where the case ends whose name ends at a colon.
fn end(tape: &[u8], colon: usize) -> usize
    requires { colon ≤ length tape.now }
    ensures { (colon ≤ result) × (result ≤ length tape.now) }
{
    let left = tape.len() - colon;
    if left < 2 {
        return tape.len();
    }
    let size = tape[colon + 1] as usize;
    if left - 2 < size {
        return tape.len();
    }
    colon + 2 + size
}

// Where a case begins, counted from 1.
fn place(tape: &[u8], case: usize) -> usize
    ensures { result ≤ length tape.now }
{
    let mut at: usize = 0;
    for _ in 1..case {
        at = end(tape, colon(tape, at));
    }
    at
}

// The name of a case.
pub fn name<'a>(tape: &'a [u8], case: usize) -> &'a [u8] {
    let from = place(tape, case);
    &tape[from..colon(tape, from)]
}

// The table of a case.
pub fn table<'a>(tape: &'a [u8], case: usize) -> &'a [u8] {
    let from = colon(tape, place(tape, case));
    let to = end(tape, from);
    if to - from < 2 {
        return &tape[to..];
    }
    &tape[from + 2..to]
}

// Byte k of a pattern over and over; 0 where the pattern is empty.
#[tactic(auto, unfolding(crate::specs::Filled::repeated_of))]
fn repeated(pattern: &[u8], k: usize) -> u8
    ensures { result ≡ repeated_of pattern.now k }
{
    let n = pattern.len();
    if n == 0 {
        return 0;
    }
    pattern[k % n]
}

// The byte that has k bytes before it and, with itself, `left` to the end.
#[tactic(auto, unfolding(crate::specs::Filled::byte_of))]
fn byte(head: &[u8], pattern: &[u8], tail: &[u8], k: usize, left: usize) -> u8
    requires { 1 ≤ left }
    ensures { result ≡ byte_of head.now pattern.now tail.now k left }
{
    if k < head.len() {
        return head[k];
    }
    if tail.len() < left {
        return repeated(pattern, k - head.len());
    }
    tail[tail.len() - left]
}

// Fills a room: a head, a pattern over and over, and a tail, which ends with the room.
pub fn fill(out: &mut [u8], head: &[u8], pattern: &[u8], tail: &[u8])
    ensures { out.new
        ≡ filled_of (length out.old) head.now pattern.now tail.now }
{
    let size = out.len();
    for k in 0..size {
        out[k] = byte(head, pattern, tail, k, size - k);
    }
}

// Fills a room with a table of six clocks up to its tail: each step waits for a clock to read at least 1 and resets it, and
// the clocks take turns.
#[tactic(auto, unfolding(crate::specs::Filled::wide_steps))]
pub fn wide(out: &mut [u8], tail: &[u8])
    ensures { out.new ≡ filled_of (length out.old) (1 ∷ 6 ∷ []) wide_steps tail.now }
{
    let steps =
        b"\x02\x01\x03\x01\x00\x03\x01\x04\x02\x02\x03\x01\x00\x03\x02\x04\x02\x03\x03\x01\x00\x03\x03\x04\x02\x04\x03\x01\x00\x03\x04\x04\x02\x05\x03\x01\x00\x03\x05\x04\x02\x06\x03\x01\x00\x03\x06\x04";
    fill(out, b"\x01\x06", steps, tail);
}

// Number k of a text, from 0: its digits in six columns, where a blank counts as a 0; 0 past the end.
pub fn column(text: &[u8], k: usize) -> u16 {
    if text.len() / 6 <= k {
        return 0;
    }
    let mut value: u32 = 0;
    for digit in &text[k * 6..k * 6 + 6] {
        value = (value * 10 + (*digit % 16) as u32) % 65536;
    }
    value as u16
}

// The readings of a text that has a running record as its numbers 1 to 8.
pub fn readings_in(text: &[u8]) -> [u16; 6] {
    from_fn(|i| column(text, i + 2))
}

// This function and those below print on standard output and give nothing back, so that they have no contract: what they
// print is held against the programs' stdout files.
pub fn word(text: &[u8]) {
    io::write_all(STDOUT_FILENO, text);
}

pub fn number(x: u64) {
    io::print_decimal(STDOUT_FILENO, x);
}

pub fn signed(x: i64) {
    if x < 0 {
        word(b"-");
    }
    number(x.unsigned_abs());
}

// A word, and a number after it.
pub fn field(name: &[u8], x: u64) {
    word(name);
    number(x);
}

// What a case is called, before its answer.
pub fn title(name: &[u8]) {
    word(name);
    word(b": ");
}

pub fn refusal(why: Refusal) {
    let fault = why.fault;
    field(b"refused ", table::number(fault));
    field(b" at ", why.place as u64);
}

fn readings(r: [u16; 6]) {
    word(b", readings");
    for x in r {
        field(b" ", x as u64);
    }
}

// A running record.
pub fn record(step: u16, r: [u16; 6], counter: u16) {
    field(b" step ", step as u64);
    readings(r);
    field(b", counter ", counter as u64);
}

// A row's cells from a place on, four to a line.
pub fn cells(row: &[i64], from: usize) {
    for i in from..row.len() {
        signed(row[i]);
        if i % 4 == 3 {
            word(b"\n");
        } else {
            word(b" ");
        }
    }
    word(b"|\n");
}
