// The running record that a terminal holds for a table, and what log-in and a scan make of it: definitions, in specs/; log-in, and whether a
// table can go on from a record.
#![tactic(auto)]

ghost use Rattle.std.specs.Prelude.{◌≡◌, ◌≤◌};
ghost use Rattle.scans.specs.Scan.{log_in, following, held_all, fits};

use records::between;
use table::Refusal;

// A running record: the next step, from 1; the reading of each clock in whole ticks, held at 4,001 once there; and the rail's counter
// at the last scan that was accepted, or at log-in. Readings of clocks that the table does not have mean nothing.
#[derive(Clone, Copy)]
pub struct Running {
    pub step: u16,
    pub readings: [u16; 6],
    pub counter: u16,
}

// What is found of a scan: it is accepted; it is turned away by a guard of the next step, by its number there, from 1; or the table or
// the record is refused.
#[derive(Clone, Copy)]
pub enum Verdict {
    Accepted,
    TurnedAway(usize),
    Refused(Refusal),
}

// The verdict, and the running record after the scan.
#[derive(Clone, Copy)]
pub struct Scanned {
    pub verdict: Verdict,
    pub running: Running,
}

// The record at log-in, by the rail's counter.
pub fn log_in(counter: u16) -> Running
    ensures { result ≡ log_in counter }
{
    Running {
        step: 1,
        readings: [0; 6],
        counter,
    }
}

// Whether the readings of a table's clocks are at most 4,001.
fn held_all(readings: [u16; 6], clocks: usize) -> bool
    requires { clocks ≤ 6 }
    ensures { result ≡ held_all clocks readings }
{
    readings[..clocks].iter().all(|reading| *reading <= 4001)
}

// Whether a table of so many clocks and steps can go on from a record.
#[tactic(auto, unfolding(crate::specs::Scan::fits))]
pub fn can_go_on(running: Running, clocks: usize, steps: usize) -> bool
    requires { clocks ≤ 6 }
    ensures { result ≡ fits clocks steps running }
{
    between(1, running.step as usize, steps) && held_all(running.readings, clocks)
}

// The step after a step.
pub fn next_step(step: u16, steps: usize) -> u16
    requires { (step ≤ steps) × (steps ≤ 16) }
    ensures { result ≡ following steps step }
{
    if step as usize == steps {
        return 1;
    }
    step + 1
}
