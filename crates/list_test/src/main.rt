// Writes the demands of a table to lists of records that are too short, exact and longer, and prints them.
#![tactic(auto)]

ghost use Rattle.std.specs.Prelude.{◌≡◌, ◌++◌, ◌≤◌, take, drop};
ghost use Rattle.demands.specs.Listed.{listed_of, row_of};
ghost use Rattle.demand_list.specs.Lines.{list_room, list_of};

use demand_list::Line;
use demands::Listed;
use runs::Start;
use testkit::{cells, field, number, refusal, signed, table, title, word};

// What the list entry answers, and the records as they then are.
#[derive(Clone, Copy)]
struct Done {
    listed: Listed,
    lines: [Line; 13],
}

// The list entry at the first n of some records.
fn run(bytes: &[u8], start: Start, k: u64, row: &mut [i64], lines: [Line; 13], n: usize) -> Done
    requires { n ≤ 13 }
    ensures { (result.listed ≡ listed_of bytes.now start k (list_room row.old (take n lines)))
        × (row.new
        ≡ row_of bytes.now start k (list_room row.old (take n lines)) row.old)
        × (result.lines
        ≡ list_of bytes.now start k (list_room row.old (take n lines)) (take n lines) ++ drop n lines) }
{
    let mut list = lines;
    let listed = demand_list::demand_list(bytes, start, k, row, &mut list[..n]);
    Done {
        listed,
        lines: list,
    }
}

fn answer(listed: Listed) {
    match listed {
        Listed::Written(n) => field(b"demands ", n as u64),
        Listed::Refused(why) => refusal(why),
    }
    word(b"\n");
}

// A record's four numbers on a line.
fn record(line: Line) {
    number(line.from);
    word(b" ");
    number(line.to);
    word(b" ");
    let bound = line.bound;
    signed(bound);
    word(b" ");
    number(line.strict);
    word(b"\n");
}

fn records(lines: [Line; 13]) {
    for i in 0..13 {
        let line = lines[i];
        record(line);
    }
    word(b"|\n");
}

// The list entry on k rounds of one of testkit's tables, at a list of n records that are all 9s: the answer, then all 13
// records and the row as they then are.
fn show(name: &[u8], start: Start, case: usize, k: u64, row: &mut [i64], n: usize)
    requires { n ≤ 13 }
{
    let tape = testkit::TABLES;
    let nine = Line {
        from: 9,
        to: 9,
        bound: 9,
        strict: 9,
    };
    let lines = [nine; 13];
    let done = run(table(&tape, case), start, k, &mut *row, lines, n);
    let listed = done.listed;
    let list = done.lines;
    title(name);
    answer(listed);
    records(list);
    cells(&*row, 0);
}

// S2 for 3 rounds mid-shift, which have 11 demands.
fn mid_shift(name: &[u8], row: &mut [i64], n: usize)
    requires { n ≤ 13 }
{
    show(name, Start::MidShift, 2, 3, row, n);
}

// The same from log-in: 13 demands.
fn log_in(name: &[u8], row: &mut [i64], n: usize)
    requires { n ≤ 13 }
{
    show(name, Start::LogIn, 2, 3, row, n);
}

// S1 for 1 round from log-in: 4 demands.
fn one_round(name: &[u8], row: &mut [i64], n: usize)
    requires { n ≤ 13 }
{
    show(name, Start::LogIn, 1, 1, row, n);
}

fn main() {
    let mut short = [9i64; 44];
    mid_shift(b"10 records, 44 cells", &mut short, 10);
    let mut exact = [9i64; 44];
    mid_shift(b"11 records, 44 cells", &mut exact, 11);
    let mut longer = [9i64; 46];
    mid_shift(b"13 records, 46 cells", &mut longer, 13);
    let mut narrow = [9i64; 43];
    mid_shift(b"11 records, 43 cells", &mut narrow, 11);
    let mut whole = [9i64; 52];
    log_in(b"log-in, 12 records, 52 cells", &mut whole, 12);
    log_in(b"log-in, 13 records, 52 cells", &mut whole, 13);
    let mut cut = [9i64; 51];
    log_in(b"log-in, 13 records, 51 cells", &mut cut, 13);
    let mut few = [9i64; 16];
    one_round(b"S1 for 1, log-in, 3 records, 16 cells", &mut few, 3);
    one_round(b"S1 for 1, log-in, 4 records, 16 cells", &mut few, 4);
}
