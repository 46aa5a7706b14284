// Plans rounds of tables in both variants of the start, in rooms that are too short, exact and longer, and prints the answer and all
// rooms.
#![tactic(auto)]

ghost use Rattle.std.specs.Prelude.{◌≤◌};

use plan::Outcome;
use runs::Start;
use testkit::{field, fill, name, refusal, table, wide, word};

// Which of testkit's tables, and k.
const CASES: [[u64; 2]; 41] = [
    // 01's samples, mid-shift.
    [1, 2],
    [2, 2],
    [2, 3],
    [3, 2],
    [3, 3],
    [4, 3],
    [4, 4],
    [5, 1],
    [5, 2],
    [6, 1],
    [7, 1],
    [8, 3],
    [9, 2],
    [10, 2],
    // k of 0, too large, and far too large; the reader's refusals first.
    [2, 0],
    [2, 1025],
    [2, 18446744073709551615],
    [14, 513],
    [13, 0],
    [11, 4001],
    // As many steps as are allowed, and one more.
    [1, 1024],
    [1, 1025],
    [18, 1023],
    [18, 1024],
    // The samples by log-in: as many rounds as are allowed, and one more.
    [1, 2],
    [2, 1],
    [2, 2],
    [3, 1],
    [3, 2],
    [4, 2],
    [4, 3],
    [5, 1],
    [6, 1],
    [7, 1],
    [8, 3],
    [9, 2],
    [10, 2],
    [11, 1025],
    [1, 1024],
    [18, 1022],
    [18, 1023],
];

// The places of the three rooms: for up to four steps and two clocks, and for as many as are allowed, with places to spare.
const SMALL: [usize; 3] = [5, 3, 8];

const LARGE: [usize; 3] = [1026, 7, 1032];

// What a room holds, from a place on.
fn room(name: &[u8], cells: &[u64], from: usize) {
    word(name);
    let mut i = from;
    while i < cells.len() {
        field(b" ", cells[i]);
        i += 1;
    }
}

// The answer on k rounds, and all three rooms as they then are.
fn ask(
    bytes: &[u8],
    start: Start,
    k: u64,
    times: &mut [u64],
    starts: &mut [u64],
    vertices: &mut [u64],
    from: usize,
) {
    let outcome = plan::plan(bytes, start, k, &mut *times, &mut *starts, &mut *vertices);
    match outcome {
        Outcome::Found(parts) => field(b"parts ", parts),
        Outcome::Loop(length) => field(b"loop ", length as u64),
        Outcome::Refused(why) => refusal(why),
    }
    room(b"\n  times", &*times, from);
    room(b"\n  starts", &*starts, 0);
    room(b"\n  loop", &*vertices, from);
}

// The same in the first places of some rooms.
fn part(
    bytes: &[u8],
    start: Start,
    k: u64,
    times: &mut [u64],
    starts: &mut [u64],
    vertices: &mut [u64],
    sizes: [usize; 3],
    from: usize,
) {
    let a = sizes[0];
    let b = sizes[1];
    let c = sizes[2];
    if a <= times.len() {
        if b <= starts.len() {
            if c <= vertices.len() {
                ask(
                    bytes,
                    start,
                    k,
                    &mut times[..a],
                    &mut starts[..b],
                    &mut vertices[..c],
                    from,
                );
            }
        }
    }
}

fn show(bytes: &[u8], start: Start, k: u64, sizes: [usize; 3], from: usize) {
    let mut times = [9u64; 1026];
    let mut starts = [9u64; 7];
    let mut vertices = [9u64; 1032];
    part(
        bytes,
        start,
        k,
        &mut times,
        &mut starts,
        &mut vertices,
        sizes,
        from,
    );
    word(b"\n");
}

fn case(number: u64, start: Start, k: u64, sizes: [usize; 3], from: usize) {
    let tape = testkit::TABLES;
    word(name(&tape, number as usize));
    field(b" for ", k);
    word(b": ");
    show(table(&tape, number as usize), start, k, sizes, from);
}

// Some of the cases, with the rooms' places and the first of them that is printed of the times and of the loop.
fn cases(start: Start, first: usize, end: usize, sizes: [usize; 3], from: usize)
    requires { end ≤ 41 }
{
    let all = CASES;
    let mut i = first;
    while i < end {
        let c = all[i];
        case(c[0], start, c[1], sizes, from);
        i += 1;
    }
}

// S2 for 2 needs 2 times, 2 starts and a loop room of 5, in each variant.
fn rooms(start: Start) {
    let tape = testkit::TABLES;
    let s2 = table(&tape, 2);
    word(b"times short: ");
    show(s2, start, 2, [1, 1, 4], 0);
    word(b"starts short: ");
    show(s2, start, 2, [2, 1, 4], 0);
    word(b"loop room short: ");
    show(s2, start, 2, [2, 2, 4], 0);
    word(b"all exact: ");
    show(s2, start, 2, [2, 2, 5], 0);
}

// As many steps as are allowed of a table with all clocks, and a round more.
fn widest(start: Start, k: u64) {
    let mut bytes = [0u8; 131];
    wide(&mut bytes, b"\x05");
    field(b"six clocks, sixteen steps for ", k);
    word(b": ");
    show(&bytes, start, k, LARGE, 1020);
}

// Sixteen steps within a tick of each other, of which the last comes 1000 ticks after the first: the loop goes back step by step.
fn chain(start: Start) {
    let mut bytes = [0u8; 138];
    fill(
        &mut bytes,
        b"\x01\x02\x02\x01\x01\x01\x00\x03\x01\x03\x02\x04",
        b"\x02\x01\x01\x01\x00\x03\x01\x04",
        b"\x02\x01\x01\x01\x00\x02\x02\x03\xe8\x03\x03\x01\x04\x05",
    );
    word(b"chain for 1: ");
    show(&bytes, start, 1, [16, 2, 20], 0);
}

fn mid_shift() {
    word(b"mid-shift\n");
    cases(Start::MidShift, 0, 14, SMALL, 0);
    rooms(Start::MidShift);
    cases(Start::MidShift, 14, 20, SMALL, 0);
    cases(Start::MidShift, 20, 24, LARGE, 1020);
    widest(Start::MidShift, 64);
    widest(Start::MidShift, 65);
    chain(Start::MidShift);
}

fn log_in() {
    word(b"by log-in\n");
    cases(Start::LogIn, 24, 38, SMALL, 0);
    rooms(Start::LogIn);
    cases(Start::LogIn, 38, 41, LARGE, 1020);
    widest(Start::LogIn, 64);
    chain(Start::LogIn);
}

fn main() {
    mid_shift();
    log_in();
}
