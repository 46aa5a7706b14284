// Gives scans to tables, one after the other, and prints the verdicts and the record after them.
#![tactic(auto)]

use scanning::scan;
use scans::{Running, Verdict, log_in};
use testkit::{column, field, fill, name, readings_in, refusal, table, title, word};

// Cases are on tapes of the same form, with numbers in six columns each in place of a table. Their tables are testkit's by number,
// and `MORE_TABLES` by 100 and their number.
//
// From log-in: a table, the counter at log-in, and the counters of the scans.
const SHIFTS: [u8; 1662] = *b"\
    65535 to 0:\x12    12 65535     0\
    65535 to 1:\x12     9 65535     1\
    past 65535:\x2a   110 65530 65532 65534     0     2     3\
    32767 to 32768:\x12    12 32767 32768\
    none elapsed:\x18    12 65535 65535 65535\
    none elapsed:\x12     1     9     9\
    65535 elapsed:\x12    12     0 65535\
    65535 elapsed:\x12    12 65535 65534\
    65535 elapsed:\x12     9     3     2\
    3999 elapsed:\x12    12     0  3999\
    4000 elapsed:\x12    12     0  4000\
    4001 elapsed:\x12    12     0  4001\
    4002 elapsed:\x12    12     0  4002\
    4096 elapsed:\x12    12     0  4096\
    8192 elapsed:\x12    12     0  8192\
    16384 elapsed:\x12    12     0 16384\
    32768 elapsed:\x12    12     0 32768\
    5000 elapsed:\x12   102     0  5000\
    long gaps:\x1e    12     0 65535 65534 65533\
    away, then accepted:\x18     1     0     2     4\
    away, then accepted:\x2a    17    10    12    11    14    16    17\
    first of step 2:\x18   103     0     0     1\
    tested, then reset:\x12     1     0     3\
    tested, then reset:\x18   104     0     3     2\
    exactly is one:\x1e   105     0    12     3     5\
    resets have no number:\x1e   107     0     1     6     5\
    after the only step:\x12    12     5     5\
    after the first step:\x12    15     0     1\
    after the last step:\x18    15     0     1     2\
    after the first step again:\x1e    15     0     1     2     3\
    in whole ticks:\x1e     2     0     2     3     6\
    in whole ticks:\x1e     3     0     3     5     6\
    in whole ticks:\x1e     4     0     3     6     9\
    in whole ticks:\x18     5     0     0     1\
    in whole ticks:\x18     6     0     0 65535\
    in whole ticks:\x18     7     0     0     1\
    in whole ticks:\x18     8     0     0     1\
    in whole ticks:\x24     9     0     1     2     2     3\
    in whole ticks:\x24    10     0     3     2     4     5\
    in whole ticks:\x1e    16     0     0     1  4001\
    refused:\x12   126     7     5\
    refused:\x12   128     7     5";

// From a record: a table, the step, the readings, the counter, and the counters of the scans.
const CASES: [u8; 5830] = *b"\
    tick by tick:\x3c    12     1  3998     0     0     0     0     0     0     1\
    tick by tick:\x42    12     1  3998     0     0     0     0     0     0     1     2\
    tick by tick:\x48    12     1  3998     0     0     0     0     0     0     1     2     3\
    tick by tick:\x4e    12     1  3998     0     0     0     0     0     0     1     2     3     4\
    4001 and 65535 more:\x3c   101     1  4001     0     0     0     0     0     0 65535\
    4001 and 1 more:\x3c   101     1  4001     0     0     0     0     0     0     1\
    4001, then reset:\x3c     1     1  4001     0     0     0     0     0     0     0\
    4001, then reset:\x48     1     1  4001     0     0     0     0     0     0     0     2     3\
    in whole ticks:\x48    11     1     0  3999     0     0     0     0     0     1     2     3\
    second of step 2:\x3c   103     2     1     0     0     0     0     0     0     0\
    second of step 1:\x3c   103     1     0    10     0     0     0     0     0     0\
    exactly is one:\x3c   106     1     0     5     0     0     0     0     0     5\
    resets have no number:\x42   107     1     4     0     0     0     0     0     0     5     6\
    all hold:\x3c   108     1     3     4     4     4     5     7     0     1\
    1 fails:\x3c   108     1     4     4     4     4     5     7     0     1\
    2 fails:\x3c   108     1     3     5     4     4     5     7     0     1\
    3 fails:\x3c   108     1     3     4     3     4     5     7     0     1\
    3 fails:\x3c   108     1     3     4     5     4     5     7     0     1\
    4 fails:\x3c   108     1     3     4     4     3     5     7     0     1\
    5 fails:\x3c   108     1     3     4     4     4     4     7     0     1\
    all fail:\x3c   108     1     4     5     5     3     4     7     0     1\
    2 to 5 fail:\x3c   108     1     3     5     5     3     4     7     0     1\
    away again and again:\x4e     1     1     1     7     7     7     7     7   100   100   101   100   101\
    away, then accepted:\x48     1     1     1     7     7     7     7     7   100   100   101   102\
    away in step 2:\x3c    17     2     0     1     1 65535  4002     9    11    15\
    accepted in step 2:\x3c    17     2     0     1     1 65535  4002     9    11    17\
    one of six:\x3c   109     1     7     0     0     0     0     0     0     4\
    one of six:\x3c   109     1     0     7     0     0     0     0     0     4\
    one of six:\x3c   109     1     0     0     7     0     0     0     0     4\
    one of six:\x3c   109     1     0     0     0     7     0     0     0     4\
    one of six:\x3c   109     1     0     0     0     0     7     0     0     4\
    one of six:\x3c   109     1     0     0     0     0     0     7     0     4\
    the last reading:\x3c   113     1  4001 65535 65535 65535 65535 65535     0     1\
    the last reading:\x3c   113     1  4002 65535 65535 65535 65535 65535     0     1\
    the last reading:\x3c   114     1     0  4001 65535 65535 65535 65535     0     1\
    the last reading:\x3c   114     1     0  4002 65535 65535 65535 65535     0     1\
    the last reading:\x3c   115     1     0     0  4001 65535 65535 65535     0     1\
    the last reading:\x3c   115     1     0     0  4002 65535 65535 65535     0     1\
    the last reading:\x3c   116     1     0     0     0  4001 65535 65535     0     1\
    the last reading:\x3c   116     1     0     0     0  4002 65535 65535     0     1\
    the last reading:\x3c   117     1     0     0     0     0  4001 65535     0     1\
    the last reading:\x3c   117     1     0     0     0     0  4002 65535     0     1\
    the last reading:\x3c   118     1     0     0     0     0     0  4001     0     1\
    the last reading:\x3c   118     1     0     0     0     0     0  4002     0     1\
    all six:\x3c   109     1     1     2     3     4     5     6   100   104\
    all six:\x3c   118     1     0     1  3999  4000  4001     2     0     1\
    all six:\x3c   118     1     0     1  3999  4000  4001     2     0 65535\
    one too high:\x3c   118     1  4002     0     0     0     0     0     0     1\
    one too high:\x3c   118     1     0     0 65535     0     0     0     0     1\
    step 0:\x3c     1     0     0     0     0     0     0     0     0     3\
    step 2 of 1:\x3c     1     2     0     0     0     0     0     0     0     3\
    step 257 of 1:\x3c     1   257     0     0     0     0     0     0     0     3\
    step 65535 of 1:\x3c     1 65535     0     0     0     0     0     0     0     3\
    step 3 of 2:\x3c    10     3     0     0     0     0     0     0     0     0\
    step 16 of 16:\x3c   111    16    15     0     0     0     0     0     0     1\
    step 17 of 16:\x3c   111    17    15     0     0     0     0     0     0     1\
    step 0 of 16:\x3c   111     0     0     0     0     0     0     0     0     1\
    refused again and again:\x48     1     0     1     2     3     4     5     6     7    10    11    12\
    x reads 4001:\x3c     1     1  4001     0     0     0     0     0     0     3\
    x reads 4002:\x3c     1     1  4002     0     0     0     0     0     0     3\
    x reads 65535:\x3c     1     1 65535     0     0     0     0     0     0     3\
    y reads 4002:\x3c     2     1     0  4002     0     0     0     0     0     3\
    no clock y:\x3c     1     1     0  4002     0     0     0     0     0     3\
    no clock y, accepted:\x3c     1     1     0  9999 65535  4001  4002     1     0     3\
    no clock y, away:\x3c     1     1     0  9999 65535  4001  4002     1     0     2\
    no clock z:\x3c     2     1     0     0 65535 65535 65535 65535     0     3\
    step 0, and x reads 4002:\x3c     1     0  4002     0     0     0     0     0     0     3\
    refused:\x3c   119     0 65535 65535 65535 65535 65535 65535     7     5\
    refused:\x3c   120     0 65535 65535 65535 65535 65535 65535     7     5\
    refused:\x3c   121     0 65535 65535 65535 65535 65535 65535     7     5\
    refused:\x3c   122     0 65535 65535 65535 65535 65535 65535     7     5\
    refused:\x3c   123     0 65535 65535 65535 65535 65535 65535     7     5\
    refused:\x3c   124     0 65535 65535 65535 65535 65535 65535     7     5\
    refused:\x3c   125     0 65535 65535 65535 65535 65535 65535     7     5\
    refused:\x3c   126     0 65535 65535 65535 65535 65535 65535     7     5\
    refused:\x3c   127     0 65535 65535 65535 65535 65535 65535     7     5\
    refused:\x3c   128     0 65535 65535 65535 65535 65535 65535     7     5";

// At the rail, one after the other: the counters of the scans.
const RAIL: [u8; 318] = *b"\
    hook in:\x12 60010 60019 60020\
    settle:\x0c 60049 60050\
    weigh:\x0c 60069 60070\
    label:\x0c 60074 60075\
    scan out:\x0c 60080 60081\
    hook in:\x0c 60100 60080\
    settle:\x0c 60481 60480\
    weigh:\x0c 60680 60679\
    label:\x0c 60730 60729\
    scan out:\x0c 61081 61080\
    hook in:\x06 65535\
    settle:\x0c    28    29\
    weigh:\x0c    48    49\
    label:\x06    60\
    scan out:\x06    60\
    hook in:\x12    60    79    80";

// Scans at 1 to 32.
const TWICE: [u8; 192] =
    *b"     1     2     3     4     5     6     7     8     9    10    11    12    13    14    15    16    17    18    19    20    21    22    23    24    25    26    27    28    29    30    31    32";

fn record(running: Running) {
    let readings = running.readings;
    testkit::record(running.step, readings, running.counter);
}

// One scan: its counter and the verdict are printed, and the record after it is given back.
fn give(bytes: &[u8], running: Running, counter: u16) -> Running {
    field(b" ", counter as u64);
    let scanned = scan(bytes, running, counter);
    let found = scanned.verdict;
    match found {
        Verdict::Accepted => word(b" accepted"),
        Verdict::TurnedAway(guard) => field(b" away ", guard as u64),
        Verdict::Refused(why) => {
            word(b" ");
            refusal(why);
        }
    }
    word(b";");
    scanned.running
}

// Scans one after the other, by the numbers of a text from one of them up to another.
fn row(bytes: &[u8], running: Running, text: &[u8], from: usize, to: usize) -> Running {
    let mut now = running;
    let mut k = from;
    while k < to {
        now = give(bytes, now, column(text, k));
        k += 1;
    }
    now
}

// A line: what is asked, the verdicts, and the record after them, which is given back.
fn line(
    named: &[u8],
    bytes: &[u8],
    running: Running,
    text: &[u8],
    from: usize,
    to: usize,
) -> Running {
    word(named);
    word(b" from");
    record(running);
    word(b":");
    let after = row(bytes, running, text, from, to);
    record(after);
    word(b"\n");
    after
}

// The same for a case: its first number tells the table, and the scans are those from a number on.
fn ask(running: Running, text: &[u8], from: usize) {
    let to = text.len() / 6;
    let which = column(text, 0) as usize;
    if which < 100 {
        let tape = testkit::TABLES;
        line(
            name(&tape, which),
            table(&tape, which),
            running,
            text,
            from,
            to,
        );
        return;
    }
    let tape = testkit::MORE_TABLES;
    let own = which - 100;
    line(name(&tape, own), table(&tape, own), running, text, from, to);
}

fn shifts() {
    let tape = SHIFTS;
    let mut case: usize = 1;
    while case <= 42 {
        title(name(&tape, case));
        let text = table(&tape, case);
        ask(log_in(column(text, 1)), text, 2);
        case += 1;
    }
}

// The record of a case.
fn record_of(text: &[u8]) -> Running {
    let readings = readings_in(text);
    Running {
        step: column(text, 1),
        readings,
        counter: column(text, 8),
    }
}

fn cases() {
    let tape = CASES;
    let mut case: usize = 1;
    while case <= 77 {
        title(name(&tape, case));
        let text = table(&tape, case);
        ask(record_of(text), text, 9);
        case += 1;
    }
}

// A guard on x from log-in, at its edge.
fn edge(relation: &[u8], code: u8, constant: u16, text: &[u8]) {
    word(b"edge: x ");
    field(relation, constant as u64);
    let low = (constant % 256) as u8;
    let high = (constant / 256) as u8;
    let bytes: [u8; 9] = [1, 1, 2, 1, code, low, high, 4, 5];
    line(b"", &bytes, log_in(0), text, 0, text.len() / 6);
}

// Every relation with a constant.
fn edges(constant: u16, text: &[u8]) {
    edge(b"under ", 0, constant, text);
    edge(b"at most ", 1, constant, text);
    edge(b"exactly ", 2, constant, text);
    edge(b"at least ", 3, constant, text);
    edge(b"over ", 4, constant, text);
}

// Twice round a table of sixteen steps, a line for each scan.
fn sixteen_steps() {
    let tape = testkit::MORE_TABLES;
    let text = TWICE;
    let mut running = log_in(0);
    let mut k: usize = 0;
    while k < 32 {
        title(b"scan by scan");
        running = line(name(&tape, 11), table(&tape, 11), running, &text, k, k + 1);
        k += 1;
    }
}

// The same in one line, for six clocks that are waited for and reset in turn.
fn in_turn() {
    let text = TWICE;
    let mut bytes = [0u8; 131];
    testkit::wide(&mut bytes, b"\x05");
    title(b"twice round");
    line(b"six clocks in turn", &bytes, log_in(0), &text, 0, 32);
}

fn rail() {
    let tape = testkit::MORE_TABLES;
    let texts = RAIL;
    let mut running = log_in(60000);
    let mut case: usize = 1;
    while case <= 16 {
        title(name(&texts, case));
        let text = table(&texts, case);
        running = line(b"rail", table(&tape, 12), running, text, 0, text.len() / 6);
        case += 1;
    }
}

// As many guards in a step as are allowed, and the longest table, at its last step.
fn long_tables() {
    let mut guards = [0u8; 324];
    fill(
        &mut guards,
        b"\x01\x01",
        b"\x02\x01\x03\x00\x00",
        b"\x02\x01\x01\x05\x00\x04\x05",
    );
    line(
        b"guard 64: 64 guards",
        &guards,
        log_in(0),
        b"     6     5",
        0,
        2,
    );
    let step =
        b"\x02\x01\x01\xa0\x0f\x02\x02\x01\xa0\x0f\x02\x03\x01\xa0\x0f\x02\x04\x01\xa0\x0f\x03\x01\x03\x02\x03\x03\x03\x04\x03\x05\x03\x06\x04";
    let mut most = [0u8; 531];
    fill(&mut most, b"\x01\x06", step, b"\x05");
    let last = b"     0    16     1     2     3     4     5     6     0     1";
    line(b"step 16: 531 bytes", &most, record_of(last), last, 9, 10);
    let late = b"     0    16     0     0     0  4000     0     0     0     1";
    line(b"step 16: 531 bytes", &most, record_of(late), late, 9, 10);
}

// Tables that are too long and have too many guards are told before a record with no step.
fn too_long() {
    let text = b"     0     0     1     2     3     4     5     6     7     5";
    let zeros = [0u8; 4097];
    line(b"refused: 4097 bytes", &zeros, record_of(text), text, 9, 10);
    let mut bytes = [0u8; 329];
    fill(
        &mut bytes,
        b"\x01\x01",
        b"\x02\x01\x03\x00\x00",
        b"\x04\x05",
    );
    line(b"refused: 65 guards", &bytes, record_of(text), text, 9, 10);
}

fn main() {
    shifts();
    cases();
    edges(0, b"     0     1 65535");
    edges(1, b"     0     1     2");
    edges(5, b"     4     5     6");
    edges(256, b"   255   256   257");
    edges(4000, b"  3999  4000  4001  4002 65535");
    sixteen_steps();
    in_turn();
    long_tables();
    too_long();
    rail();
}
