// What runs of a table are, and what contradicts them: definitions and laws, in specs/.
#![tactic(auto)]

// A difference constraint between two moments (01: a demand): time(to) − time(from) is at most d ticks, or under d if strict. The
// bound d is up − down, and one of these is 0.
#[derive(Clone, Copy)]
pub struct Demand {
    pub from: usize,
    pub to: usize,
    pub up: u64,
    pub down: u64,
    pub strict: bool,
}

// The variant of the start, which says what the readings of the clocks may be at the start of a run: all 0, as log-in sets them, or
// any, as they are in mid-shift.
#[derive(Clone, Copy)]
pub enum Start {
    LogIn,
    MidShift,
}
