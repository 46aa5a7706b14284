// A tray of scans, given all at once: what it gives, by what a single scan gives. Definitions, in specs/.
#![tactic(auto)]

use scans::Running;
use table::Refusal;

// What is found of a tray: how many of its scans are accepted; or the table, the record, the tray or the room for the verdicts is refused.
#[derive(Clone, Copy)]
pub enum Outcome {
    Counted(usize),
    Refused(Refusal),
}

// The outcome, and the running record after the tray.
#[derive(Clone, Copy)]
pub struct Trayed {
    pub outcome: Outcome,
    pub running: Running,
}
