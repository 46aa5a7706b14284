// Writes the demands of some tables, in rows that are too short, exact and longer, and prints them.
#![tactic(auto)]

use demands::Listed;
use runs::Start;
use testkit::{cells, field, name, refusal, table, word};

// Which of testkit's tables, k, the cells of the row, and the first of them that is printed.
const CASES: [[u64; 4]; 23] = [
    // Mid-shift. S2 for 3 rounds has 11 demands, so 44 cells.
    [2, 3, 43, 36],
    [2, 3, 44, 0],
    [2, 3, 46, 36],
    [2, 3, 0, 0],
    // k of 0, too large, and far too large; the reader's refusals first.
    [2, 0, 4, 0],
    [2, 1025, 4, 0],
    [2, 18446744073709551615, 4, 0],
    [14, 513, 4, 0],
    [13, 0, 4, 0],
    [2, 1, 4, 0],
    // Every relation; exactly gives two demands, at most first.
    [16, 1, 32, 0],
    // Clock 1 is reset in the first step, clock 2 in the second, clock 3 never.
    [17, 2, 76, 0],
    // As many steps as are allowed.
    [12, 1024, 4104, 4092],
    [15, 512, 4104, 4092],
    // From log-in, each clock has one demand more. S1 for 1 round has 4: mid-shift, 12 cells do.
    [1, 1, 12, 0],
    [1, 1, 15, 0],
    [1, 1, 16, 0],
    // Each start demand is followed by its partner.
    [2, 1, 28, 0],
    [2, 3, 51, 44],
    [2, 3, 54, 36],
    [17, 2, 88, 64],
    [2, 0, 4, 0],
    [12, 1024, 4104, 4092],
];

// The variant of a case.
fn start_of(i: usize) -> Start {
    if i < 14 {
        return Start::MidShift;
    }
    Start::LogIn
}

// Whether the size of the row is in a case's name.
fn sized(i: usize) -> bool {
    if i < 4 {
        return true;
    }
    i >= 14
}

// The answer on k rounds of a table, and the row from a place on as it then is.
fn ask(bytes: &[u8], start: Start, k: u64, row: &mut [i64], from: usize) {
    let listed = demands::demands(bytes, start, k, &mut *row);
    match listed {
        Listed::Written(n) => field(b": demands ", n as u64),
        Listed::Refused(why) => {
            word(b": ");
            refusal(why);
        }
    }
    word(b"\n");
    cells(&*row, from);
}

// The same in the first cells of a row.
fn part(bytes: &[u8], start: Start, k: u64, row: &mut [i64], size: usize, from: usize) {
    if size <= row.len() {
        ask(bytes, start, k, &mut row[..size], from);
    }
}

fn start_note(start: Start) {
    match start {
        Start::LogIn => word(b", log-in"),
        Start::MidShift => word(b""),
    }
}

fn size_note(size: u64) {
    if size == 0 {
        word(b", no cell");
        return;
    }
    field(b", ", size);
    word(b" cells");
}

// A case, with the size of the row in its name or without it.
fn show(start: Start, case: u64, k: u64, size: u64, from: u64, sized: bool) {
    let tape = testkit::TABLES;
    word(name(&tape, case as usize));
    field(b" for ", k);
    start_note(start);
    if sized {
        size_note(size);
    }
    let mut row = [9i64; 4104];
    part(
        table(&tape, case as usize),
        start,
        k,
        &mut row,
        size as usize,
        from as usize,
    );
}

fn main() {
    let cases = CASES;
    let mut i: usize = 0;
    while i < 23 {
        let c = cases[i];
        show(start_of(i), c[0], c[1], c[2], c[3], sized(i));
        i += 1;
    }
}
