// What is refused after the table: a number of rounds, and rooms that are too short.
#![tactic(auto)]

ghost use Rattle.std.specs.Prelude.{◌≡◌, ◌+◌, ◌≤◌, leb};
ghost use Rattle.asking.specs.Admission.{refused_for, in_range, admit_of};

use table::{Fault, Refusal};

// Whether a question is refused.
#[derive(Clone, Copy)]
pub enum Admission {
    Refused(Refusal),
    Accepted,
}

// Whether k is not 0, and k rounds of so many steps have at most 1,024 steps.
pub fn in_range(k: u64, steps: usize) -> bool
    ensures { result ≡ in_range k steps }
{
    if k < 1 {
        return false;
    }
    if steps < 1 {
        return true;
    }
    if 1024 < k {
        return false;
    }
    if 1024 < steps {
        return false;
    }
    k as usize * steps <= 1024
}

// A refusal for a fault that has place 0.
pub fn refuse(fault: Fault) -> Admission
    ensures { result ≡ refused_for fault }
{
    Admission::Refused(Refusal { fault, place: 0 })
}

// Whether a room of so many places has those of a loop: 0 to total, and one for each clock.
fn loop_fits(total: usize, clocks: usize, room: usize) -> bool
    requires { total ≤ 1024 }
    ensures { result ≡ leb (total + clocks + 1) room }
{
    if room < total + 1 {
        return false;
    }
    clocks <= room - (total + 1)
}

// A plan for k rounds of a table with so many clocks and steps, with rooms of these lengths.
pub fn admit(
    clocks: usize,
    steps: usize,
    k: u64,
    times: usize,
    starts: usize,
    room: usize,
) -> Admission
    ensures { result ≡ admit_of clocks steps k times starts room }
{
    if !in_range(k, steps) {
        return refuse(Fault::Rounds);
    }
    let total = k as usize * steps;
    if times < total {
        return refuse(Fault::Times);
    }
    if starts < clocks {
        return refuse(Fault::Starts);
    }
    if !loop_fits(total, clocks, room) {
        return refuse(Fault::Loop);
    }
    Admission::Accepted
}
