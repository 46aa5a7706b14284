// The tests of one record, whose fields are numbers, after the records before it.
#![tactic(auto)]

ghost use Rattle.std.specs.Prelude.{◌≡◌, ◌≤◌};
ghost use Rattle.records.specs.Rules.{body_size, within, is_free, marked, headed, guarded, cleared, finished, ended};

use table::{Fault, Refusal};

// What the tests of a record ask of the records before it: the clocks, the finished steps and all guards; and what the step under
// way has so far, as binary digits: digit 0 for a guard, digit j for a reset of clock j.
#[derive(Clone, Copy)]
pub struct Tally {
    pub clocks: usize,
    pub steps: usize,
    pub guards: usize,
    pub pending: u32,
}

// What is found of a record: a fault; the tally after it; or that it is the end.
#[derive(Clone, Copy)]
pub enum Verdict {
    Refused(Refusal),
    Next(Tally),
    Last,
}

// The length of a body in bytes, by the kind.
pub fn body_size(k: usize) -> usize
    ensures { (result ≡ body_size k) × (result ≤ 4) }
{
    if k == 1 {
        return 1;
    }
    if k == 2 {
        return 4;
    }
    if k == 3 {
        return 1;
    }
    if k == 7 {
        return 1;
    }
    0
}

// Whether a number is from one to another.
pub fn between(low: usize, x: usize, high: usize) -> bool
    ensures { result ≡ within low x high }
{
    if x < low {
        return false;
    }
    x <= high
}

// A fault at a place.
pub fn refuse(fault: Fault, place: usize) -> Verdict
    ensures { result ≡ Verdict.Refused (record { fault = fault; place = place }) }
{
    Verdict::Refused(Refusal { fault, place })
}

// Whether a step does not reset a clock yet.
pub fn is_free(pending: u32, clock: usize) -> bool
    ensures { result ≡ is_free pending clock }
{
    (pending >> (clock % 32)) % 2 == 0
}

// What a step has, with a digit more.
fn mark(pending: u32, digit: usize) -> u32
    ensures { result ≡ marked pending digit }
{
    pending | (1 << (digit % 32))
}

// A head, with a number of clocks.
pub fn take_head(place: usize, n: usize) -> Verdict
    ensures { result ≡ headed place n }
{
    if !between(1, n, 6) {
        return refuse(Fault::Head, place);
    }
    Verdict::Next(Tally {
        clocks: n,
        steps: 0,
        guards: 0,
        pending: 0,
    })
}

// A guard.
#[tactic(auto, unfolding(crate::specs::Rules::guarded))]
pub fn take_guard(t: Tally, place: usize, clock: usize, relation: usize, constant: usize) -> Verdict
    ensures { result ≡ guarded t place clock relation constant }
{
    let fits = t.guards < 64;
    let is_clock = between(1, clock, t.clocks);
    if !fits {
        return refuse(Fault::Bounds, place);
    }
    if !is_clock {
        return refuse(Fault::Timer, place);
    }
    if 4 < relation {
        return refuse(Fault::Relation, place);
    }
    if 4000 < constant {
        return refuse(Fault::Constant, place);
    }
    Verdict::Next(Tally {
        clocks: t.clocks,
        steps: t.steps,
        guards: t.guards + 1,
        pending: mark(t.pending, 0),
    })
}

// A reset of a clock.
#[tactic(auto, unfolding(crate::specs::Rules::cleared))]
pub fn take_reset(t: Tally, place: usize, clock: usize) -> Verdict
    ensures { result ≡ cleared t place clock }
{
    let exists = between(1, clock, t.clocks);
    let free = is_free(t.pending, clock);
    if exists {
        if free {
            return Verdict::Next(Tally {
                clocks: t.clocks,
                steps: t.steps,
                guards: t.guards,
                pending: mark(t.pending, clock),
            });
        }
        return refuse(Fault::Twice, place);
    }
    refuse(Fault::Timer, place)
}

// The end of a step.
pub fn take_step(t: Tally, place: usize) -> Verdict
    ensures { result ≡ finished t place }
{
    if 16 <= t.steps {
        return refuse(Fault::Steps, place);
    }
    Verdict::Next(Tally {
        clocks: t.clocks,
        steps: t.steps + 1,
        guards: t.guards,
        pending: 0, // the next step has nothing yet
    })
}

// The end of the table.
pub fn take_end(t: Tally, place: usize) -> Verdict
    ensures { result ≡ ended t place }
{
    if t.steps < 1 {
        return refuse(Fault::Steps, place);
    }
    if t.pending != 0 {
        return refuse(Fault::Steps, place);
    }
    Verdict::Last
}
