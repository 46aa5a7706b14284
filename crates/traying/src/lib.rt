// A tray of scans, judged by a table's bytes, which are read once: each guard is brought to the range of readings that it allows, and every scan
// of the tray is tested by these ranges.
#![tactic(auto)]

ghost use Rattle.std.specs.Prelude.{◌≡◌, true, cond, ◌≤◌, ◌<◌, eqb, ltb, length};
ghost use Rattle.std.proofs.lemmas.List.Edits.{sets};
ghost use Rattle.table.specs.Refusal.{placeless};
ghost use Rattle.table.specs.Step.{Good, steps_of};
ghost use Rattle.ticks.specs.Ticks.{later_of};
ghost use Rattle.runs.specs.Demand.{Clocks};
ghost use Rattle.scans.specs.Scan.{aged, fits};
ghost use Rattle.trays.specs.Tray.{verdicts_by, running_by, verdict_number, verdict_row, accepted_in};
ghost use Rattle.ranges.specs.Allowed.{ranges_of};
ghost use Rattle.trays.specs.Answer.{outcome_of, running_of, verdicts_of};
ghost use Rattle.traying.specs.Moved.{cleared_at, moved_on};
ghost use Rattle.traying.specs.Given.{scan_by, Given};

use decode::parse;
use ranges::{Range, first_outside, ranges_of};
use scans::{Running, can_go_on, next_step};
use table::{Fault, Read, Refusal, Table};
use ticks::{elapsed, later};
use trays::{Outcome, Trayed};

// ---- one scan

// The reading of the clock at a place, counted from 0, some ticks later, where the table has that clock.
fn age_one(reading: u16, i: usize, clocks: usize, ticks: u16) -> u16
    ensures { result ≡ cond (ltb i clocks) (later_of reading ticks) reading }
{
    if i < clocks {
        return later(reading, ticks);
    }
    reading
}

// All readings some ticks later.
fn age(readings: [u16; 6], clocks: usize, ticks: u16) -> [u16; 6]
    ensures { result ≡ aged clocks ticks readings }
{
    let mut out = readings;
    for (i, reading) in out.iter_mut().enumerate() {
        *reading = age_one(*reading, i, clocks, ticks);
    }
    out
}

// A reading, or 0 where its clock is reset.
fn clear_one(reading: u16, reset: bool) -> u16
    ensures { result ≡ cond reset 0 reading }
{
    if reset { 0 } else { reading }
}

// All readings after the resets of step i, from 0.
fn clear(readings: [u16; 6], resets: &[bool; 119], i: usize) -> [u16; 6]
    requires { (i < 16) × (length resets.now ≡ 119) }
    ensures { result ≡ cleared_at resets.now i readings }
{
    let mut out = readings;
    for (j, reading) in out.iter_mut().enumerate() {
        *reading = clear_one(*reading, resets[7 * i + j + 1]);
    }
    out
}

// The record after a scan whose first guard that failed has a number, or 0, on readings that have aged.
#[tactic(auto, unfolding(crate::specs::Moved::moved_on))]
fn move_on(
    running: Running,
    counter: u16,
    readings: [u16; 6],
    failing: usize,
    steps: usize,
    resets: &[bool; 119],
) -> Running
    requires { (1 ≤ running.step) × (running.step ≤ steps) × (steps ≤ 16) × (length resets.now ≡ 119) }
    ensures { result ≡ moved_on steps resets.now running counter readings failing }
{
    if failing != 0 {
        return running;
    }
    let step = next_step(running.step, steps);
    let after = clear(readings, resets, running.step as usize - 1);
    Running {
        step,
        readings: after,
        counter,
    }
}

// One scan by a table: the record after it, and the number of the guard that turns it away, or 0.
#[tactic(auto, using(crate::specs::Scans::due_places))]
fn give_one(t: &Table, ranges: &[Range; 64], r: Running, counter: u16) -> (Running, usize)
    requires { Good t.now × Clocks t.now.clocks (steps_of t.now) × (ranges.now ≡ ranges_of t.now)
        × (fits t.now.clocks t.now.steps r ≡ true) }
    ensures { (result.0 ≡ (scan_by t.now r counter).running)
        × (result.1 ≡ verdict_number (scan_by t.now r counter).verdict) × (result.1 ≤ 64) }
{
    let readings = age(r.readings, t.clocks, elapsed(r.counter, counter));
    let s = r.step as usize;
    let due = &ranges[t.ends[s - 1]..t.ends[s]];
    let failing = first_outside(due, &readings).unwrap_or(0);
    (
        move_on(r, counter, readings, failing, t.steps, &t.resets),
        failing,
    )
}

// ---- the tray

// All scans of a tray, one after the other.
fn give(t: Table, running: Running, counters: &[u16], verdicts: &mut [u16]) -> Trayed
    requires { Good t × Clocks t.clocks (steps_of t) × (fits t.clocks t.steps running ≡ true)
        × (length counters.now ≤ 256) × (length counters.now ≤ length verdicts.old) }
    ensures { (result.outcome ≡ Outcome.Counted (accepted_in (verdicts_by (scan_by t) running counters.now)))
        × (result.running ≡ running_by (scan_by t) running counters.now)
        × (verdicts.new ≡ sets verdicts.old 0 (verdict_row (verdicts_by (scan_by t) running counters.now))) }
{
    let ranges = ranges_of(t);
    let mut r = running;
    let mut accepted: usize = 0;
    for (at, counter) in counters.iter().enumerate() {
        let (after, failing) = give_one(&t, &ranges, r, *counter);
        r = after;
        verdicts[at] = failing as u16;
        accepted += usize::from(failing == 0);
    }
    Trayed {
        outcome: Outcome::Counted(accepted),
        running: r,
    }
}

// A fault that has no place.
fn refuse(running: Running, fault: Fault) -> Trayed
    ensures { result ≡ record { outcome = Outcome.Refused (placeless fault); running = running } }
{
    Trayed {
        outcome: Outcome::Refused(Refusal { fault, place: 0 }),
        running,
    }
}

// A tray by an accepted table: a record that it cannot go on from is refused, too many counters, and a short room.
#[tactic(auto, using(crate::proofs::Admitted::admitted_rules))]
fn admit(t: Table, running: Running, counters: &[u16], verdicts: &mut [u16]) -> Trayed
    requires { Good t × Clocks t.clocks (steps_of t) }
    ensures { Given t running counters.now verdicts.old result verdicts.new }
{
    if !can_go_on(running, t.clocks, t.steps) {
        return refuse(running, Fault::Record);
    }
    if 256 < counters.len() {
        return refuse(running, Fault::Tray);
    }
    if verdicts.len() < counters.len() {
        return refuse(running, Fault::Verdicts);
    }
    give(t, running, counters, verdicts)
}

// A tray of scans: what is found of it, and the record after it; the verdicts stand in the lent room.
pub fn tray(bytes: &[u8], running: Running, counters: &[u16], verdicts: &mut [u16]) -> Trayed
    ensures { (result.outcome ≡ outcome_of bytes.now running counters.now (length verdicts.old))
        × (result.running ≡ running_of bytes.now running counters.now (length verdicts.old))
        × (verdicts.new ≡ verdicts_of bytes.now running counters.now verdicts.old) }
{
    let parsed = parse(bytes);
    let answer = parsed.answer;
    let t = parsed.table;
    match answer {
        Read::Refused(refusal) => Trayed {
            outcome: Outcome::Refused(refusal),
            running,
        },
        Read::Counted {
            clocks: _,
            steps: _,
            guards: _,
        } => admit(t, running, counters, verdicts),
    }
}
