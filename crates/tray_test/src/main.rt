// Gives trays of scans to tables, and prints what is found, the verdicts, and the record after each.
//
// The cases are on standard input, a line each: a name, a colon, and numbers in six columns each. First the table, which is one of testkit's by its
// number, or of `MORE_TABLES` by 100 and its number; then the record's step, its six readings and its counter, where step 99 goes on from the
// record of the line before; how many counters the tray has, and how many places the room; and the counters, where each after the last that
// stands there is one more. In "back to an earlier counter" 02's premise does not hold; what is found is still that of the scans given singly.
#![tactic(auto)]

ghost use Rattle.std.specs.Prelude.{◌≤◌, length};

use scans::{Running, log_in};
use testkit::{column, field, find, name, readings_in, refusal, table, title, word};
use traying::tray;
use trays::Outcome;

// The standard input, as a file of the C library.
const STDIN_FILENO: i32 = 0;

fn record(running: Running) {
    let readings = running.readings;
    testkit::record(running.step, readings, running.counter);
}

// Whether the number at a place of a row stands in the next place too.
fn goes_on(row: &[u16], at: usize) -> bool {
    if row.len() < 2 {
        return false;
    }
    if row.len() - 2 < at {
        return false;
    }
    row[at] == row[at + 1]
}

// A number that stands so often in a row.
fn number(x: u16, times: u64) {
    field(b" ", x as u64);
    if 1 < times {
        field(b"*", times);
    }
}

// A row's numbers, and of equal ones in a row the first with how many there are: 0*256.
fn numbers(row: &[u16]) {
    let mut from: usize = 0;
    let mut at: usize = 0;
    while at < row.len() {
        let last = at;
        at += 1;
        if !goes_on(row, last) {
            number(row[last], (at - from) as u64);
            from = at;
        }
    }
}

// The counters of a tray: of many only the first, as each is one more than the one before.
fn asked(counters: &[u16]) {
    field(b": ", counters.len() as u64);
    word(b" counters");
    if counters.len() < 32 {
        numbers(counters);
        return;
    }
    number(counters[0], 1);
    word(b" and on");
}

fn found(outcome: Outcome) {
    match outcome {
        Outcome::Counted(accepted) => field(b": accepted ", accepted as u64),
        Outcome::Refused(why) => {
            word(b": ");
            refusal(why);
        }
    }
}

// A tray: its counters, what is found, the room and the record after it, which is given back.
fn give(bytes: &[u8], running: Running, counters: &[u16], room: &mut [u16]) -> Running {
    asked(counters);
    field(b", room ", room.len() as u64);
    let trayed = tray(bytes, running, counters, &mut *room);
    let outcome = trayed.outcome;
    found(outcome);
    word(b", verdicts");
    numbers(&*room);
    word(b";");
    let after = trayed.running;
    record(after);
    word(b"\n");
    after
}

// The counters of a case.
fn counters_of(text: &[u8]) -> [u16; 300] {
    let mut out = [0u16; 300];
    let mut last: u16 = 0;
    let mut k: usize = 0;
    while k < 300 {
        last = std::num::wrapping_add_u16(last, 1);
        if k + 11 < text.len() / 6 {
            last = column(text, k + 11);
        }
        out[k] = last;
        k += 1;
    }
    out
}

// A line: a tray of a case's counters, in a room filled with sevens.
fn line(named: &[u8], bytes: &[u8], running: Running, text: &[u8]) -> Running {
    word(named);
    word(b" from");
    record(running);
    let counters = counters_of(text);
    let mut room = [7u16; 300];
    let n = column(text, 9) as usize % 301;
    let places = column(text, 10) as usize % 301;
    give(bytes, running, &counters[..n], &mut room[..places])
}

// The same, by the table of a case.
fn ask(running: Running, text: &[u8]) -> Running {
    let which = column(text, 0) as usize;
    if which < 100 {
        let tape = testkit::TABLES;
        return line(name(&tape, which), table(&tape, which), running, text);
    }
    let tape = testkit::MORE_TABLES;
    let more = which - 100;
    line(name(&tape, more), table(&tape, more), running, text)
}

// The record of a case, or the one before.
fn record_of(text: &[u8], before: Running) -> Running {
    let step = column(text, 1);
    if step == 99 {
        return before;
    }
    let readings = readings_in(text);
    Running {
        step,
        readings,
        counter: column(text, 8),
    }
}

fn case(text: &[u8], before: Running) -> Running {
    let colon = find(text, 0, 58);
    if colon == text.len() {
        return before;
    }
    title(&text[0..colon]);
    let numbers = &text[colon + 1..];
    ask(record_of(numbers, before), numbers)
}

fn cases(text: &[u8])
    requires { length text.now ≤ 16384 }
{
    let mut running = log_in(0);
    let mut from: usize = 0;
    while from < text.len() {
        let end = find(text, from, 10);
        running = case(&text[from..end], running);
        from = end + 1;
    }
}

fn main() {
    let mut input = [0u8; 16384];
    let size = io::read_full(STDIN_FILENO, &mut input);
    cases(&input[..size]);
}
