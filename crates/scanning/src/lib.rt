// A scan, judged by a table's bytes: while they are read, the guards of the record's step are tested.
#![tactic(auto)]

ghost use Rattle.std.specs.Prelude.{◌≡◌, true, cond, ◌≤◌, ◌<◌, ◌+◌, ◌-◌, length, drop};
ghost use Rattle.ticks.specs.Ticks.{later_of};
ghost use Rattle.records.specs.Rules.{relation_of, is_free};
ghost use Rattle.wire.specs.Records.{record_at};
ghost use Rattle.wire.specs.Reading.{read_of};
ghost use Rattle.wire.specs.Listing.{guard_in, content_of};
ghost use Rattle.scans.specs.Scan.{compares, fits};
ghost use Rattle.scans.specs.Answer.{refused_with, scan_of};
ghost use Rattle.scanning.specs.Progress.{meets, started, failed, guard_tested, step_finished, noted, progress_of, settled, accepted_by, decided_by, concluded_by};
ghost use Rattle.scanning.specs.Safe.{GuardAt, Counts};

use records::{Tally, Verdict, between, body_size, is_free};
use scans::{Running, Scanned, can_go_on, next_step};
use table::{Fault, Read, Refusal};
use ticks::{elapsed, later};
use wire::{after_end, byte_in, judge};

// Whether a reading, so many ticks later, stands to a constant as a relation's byte says.
fn compare(relation: usize, constant: usize, reading: u16, ticks: u16) -> bool
    ensures { result ≡ compares (relation_of relation) constant (reading + ticks) }
{
    let later = reading as usize + ticks as usize;
    if later < constant {
        return relation < 2;
    }
    if constant < later {
        return 2 < relation;
    }
    between(1, relation, 3)
}

// Whether the guard whose record begins at a place holds of some readings so many ticks later. They are not held at 4,001 for that: no
// constant is above 4,000.
fn holds_at(bytes: &[u8], at: usize, readings: &[u16; 6], ticks: u16) -> bool
    requires { GuardAt bytes.now at }
    ensures { result ≡ meets readings.now ticks (guard_in (record_at at 2 (drop (at + 1) bytes.now))) }
{
    let clock = byte_in(bytes, at + 1);
    let relation = byte_in(bytes, at + 2);
    let low = byte_in(bytes, at + 3);
    let high = byte_in(bytes, at + 4);
    compare(relation, low + high * 256, readings[clock - 1], ticks)
}

// What has been found of a step, while the table is read: whether the step is under way; the guards before it; the number of its first
// guard that failed, counted from the table's first, or 0; and, once it is finished, the clocks that it resets, as binary digits: digit j
// for clock j.
#[derive(Clone, Copy)]
struct Progress {
    on: bool,
    first: usize,
    failing: usize,
    resets: u32,
}

// Before the first record, when a step is asked for, from 1.
fn begin(step: usize) -> Progress
    ensures { result ≡ started step }
{
    Progress {
        on: step == 1,
        first: 0,
        failing: 0,
        resets: 0,
    }
}

// A guard that does not hold, by its number in the table.
#[tactic(auto, unfolding(crate::specs::Progress::failed))]
fn fail(p: Progress, number: usize) -> Progress
    ensures { result ≡ failed p number }
{
    if p.failing != 0 {
        return p;
    }
    let mut out = p;
    out.failing = number;
    out
}

// The guard whose record begins at a place: it is tested if it is the step's.
#[tactic(auto, unfolding(crate::specs::Progress::guard_tested))]
fn test_guard(
    bytes: &[u8],
    at: usize,
    readings: &[u16; 6],
    ticks: u16,
    t: Tally,
    p: Progress,
) -> Progress
    requires { GuardAt bytes.now at × (t.guards ≤ 64) }
    ensures { result ≡ guard_tested readings.now ticks t p (guard_in (record_at at 2 (drop (at + 1) bytes.now))) }
{
    if !p.on {
        return p;
    }
    if holds_at(bytes, at, readings, ticks) {
        return p;
    }
    fail(p, t.guards + 1)
}

// A step of the table is finished: its resets are noted if it is the one asked for, and the guards so far if the next one is.
#[tactic(auto, unfolding(crate::specs::Progress::step_finished))]
fn finish_step(step: usize, t: Tally, p: Progress) -> Progress
    requires { t.steps ≤ 16 }
    ensures { result ≡ step_finished step t p }
{
    let mut out = p;
    if p.on {
        out.resets = t.pending;
    }
    out.on = t.steps + 2 == step;
    if out.on {
        out.first = t.guards;
    }
    out
}

// The record of a kind at a place, after the records that a tally counts.
fn note(
    bytes: &[u8],
    at: usize,
    k: usize,
    step: usize,
    readings: &[u16; 6],
    ticks: u16,
    t: Tally,
    p: Progress,
) -> Progress
    requires { Counts bytes.now at k t }
    ensures { result ≡ noted step readings.now ticks t p (content_of (record_at at k (drop (at + 1) bytes.now))) }
{
    if k == 2 {
        return test_guard(bytes, at, readings, ticks, t, p);
    }
    if k == 4 {
        return finish_step(step, t, p);
    }
    p
}

// The answer to the question "read", and what has been found of a step.
#[derive(Clone, Copy)]
struct Watched {
    answer: Read,
    progress: Progress,
}

// The two of them.
fn told(answer: Read, progress: Progress) -> Watched
    ensures { (result.answer ≡ answer) × (result.progress ≡ progress) }
{
    Watched { answer, progress }
}

// Bytes that are not too long are read, and the guards of a step, from 1, are tested on some readings so many ticks later.
fn watch(bytes: &[u8], step: usize, readings: &[u16; 6], ticks: u16) -> Watched
    requires { length bytes.now ≤ 4096 }
    ensures { (result.answer ≡ read_of bytes.now)
        × (result.progress ≡ progress_of step readings.now ticks bytes.now) }
{
    let len = bytes.len();
    let mut t = Tally {
        clocks: 0,
        steps: 0,
        guards: 0,
        pending: 0,
    };
    let mut p = begin(step);
    let mut at: usize = 0;
    while at < len {
        let verdict = judge(bytes, at, t);
        let k = byte_in(bytes, at);
        let next = at + 1 + body_size(k);
        match verdict {
            Verdict::Refused(r) => {
                return told(Read::Refused(r), p);
            }
            Verdict::Last => {
                return told(after_end(bytes, next, t), p);
            }
            Verdict::Next(u) => {
                p = note(bytes, at, k, step, readings, ticks, t, p);
                t = u;
                at = next;
            }
        }
    }
    told(
        Read::Refused(Refusal {
            fault: Fault::Cut,
            place: len,
        }),
        p,
    )
}

// The reading of a clock after an accepted scan.
fn settle_one(reading: u16, clock: usize, ticks: u16, resets: u32) -> u16
    ensures { result ≡ cond (is_free resets clock) (later_of reading ticks) 0 }
{
    if is_free(resets, clock) {
        return later(reading, ticks);
    }
    0
}

// All readings after an accepted scan: those of the table's clocks are so many ticks later, or 0 where they are reset.
fn settle(readings: [u16; 6], clocks: usize, ticks: u16, resets: u32) -> [u16; 6]
    requires { clocks ≤ 6 }
    ensures { result ≡ settled clocks ticks resets readings }
{
    let mut out = readings;
    for (i, reading) in out[..clocks].iter_mut().enumerate() {
        *reading = settle_one(*reading, i + 1, ticks, resets);
    }
    out
}

// All guards of the step hold.
fn accept(
    resets: u32,
    clocks: usize,
    ticks: u16,
    steps: usize,
    running: Running,
    counter: u16,
) -> Scanned
    requires { (clocks ≤ 6) × (running.step ≤ steps) × (steps ≤ 16) }
    ensures { result ≡ accepted_by resets clocks ticks steps running counter }
{
    let step = next_step(running.step, steps);
    let was = running.readings;
    let readings = settle(was, clocks, ticks, resets);
    let next = Running {
        step,
        readings,
        counter,
    };
    Scanned {
        verdict: scans::Verdict::Accepted,
        running: next,
    }
}

// All guards of the step are tested: accepted, or turned away by the first that failed.
#[tactic(auto, unfolding(crate::specs::Progress::decided_by))]
fn decide(
    p: Progress,
    clocks: usize,
    ticks: u16,
    steps: usize,
    running: Running,
    counter: u16,
) -> Scanned
    requires { (clocks ≤ 6) × (running.step ≤ steps) × (steps ≤ 16) × ((p.failing ≡ 0 → ⊥) → p.first ≤ p.failing) }
    ensures { result ≡ decided_by p clocks ticks steps running counter }
{
    let failing = p.failing;
    if failing != 0 {
        return Scanned {
            verdict: scans::Verdict::TurnedAway(failing - p.first),
            running,
        };
    }
    accept(p.resets, clocks, ticks, steps, running, counter)
}

fn refuse(running: Running, refusal: Refusal) -> Scanned
    ensures { result ≡ refused_with running refusal }
{
    Scanned {
        verdict: scans::Verdict::Refused(refusal),
        running,
    }
}

// The bytes are accepted: a record that the table cannot go on from is refused, and any other is judged.
fn conclude(
    p: Progress,
    clocks: usize,
    ticks: u16,
    steps: usize,
    running: Running,
    counter: u16,
) -> Scanned
    requires { (clocks ≤ 6) × (steps ≤ 16) × (fits clocks steps running ≡ true → (p.failing ≡ 0 → ⊥) → p.first ≤ p.failing) }
    ensures { result ≡ concluded_by p clocks ticks steps running counter }
{
    if !can_go_on(running, clocks, steps) {
        let refusal = Refusal {
            fault: Fault::Record,
            place: 0,
        };
        return refuse(running, refusal);
    }
    decide(p, clocks, ticks, steps, running, counter)
}

// `scan` for bytes that are not too long.
fn scan_short(bytes: &[u8], running: Running, counter: u16) -> Scanned
    requires { length bytes.now ≤ 4096 }
    ensures { result ≡ scan_of bytes.now running counter }
{
    let readings = running.readings;
    let ticks = elapsed(running.counter, counter);
    let watched = watch(bytes, running.step as usize, &readings, ticks);
    let answer = watched.answer;
    let p = watched.progress;
    match answer {
        Read::Refused(refusal) => refuse(running, refusal),
        Read::Counted {
            clocks,
            steps,
            guards: _,
        } => conclude(p, clocks, ticks, steps, running, counter),
    }
}

// One scan: what is found of it, and the record after it.
pub fn scan(bytes: &[u8], running: Running, counter: u16) -> Scanned
    ensures { result ≡ scan_of bytes.now running counter }
{
    if 4096 < bytes.len() {
        let refusal = Refusal {
            fault: Fault::Length,
            place: 4096,
        };
        return refuse(running, refusal);
    }
    scan_short(bytes, running, counter)
}
