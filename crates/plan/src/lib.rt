// The question "plan for k": the earliest moments and the smallest starts of k rounds, or a negative cycle (01: loop).
#![tactic(auto)]

ghost use Rattle.std.specs.Prelude.{◌≡◌, ◌*◌};
ghost use Rattle.runs.specs.Demand.{starts_of};
ghost use Rattle.constraints.specs.Sized.{Sized, Tabled, rounds_of};
ghost use Rattle.solving.specs.Solve.{Roomy};
ghost use Rattle.plan.specs.Answer.{rooms, Answered, admit_rooms, Meets, Answers};
ghost use Rattle.plan.specs.Found.{outcome_of};

use asking::{Admission, admit};
use decode::parse;
use last_resets::put_distances;
use leads::put_leads;
use runs::Start;
use scaling::put_scaled;
use sides::put_keys;
use solving::Solution;
use spaces::solve_here;
use table::{Read, Refusal, Table};

// The answer to the question "plan for k": the parts to a tick; or the length of a loop; or why it is refused.
#[derive(Clone, Copy)]
pub enum Outcome {
    Found(u64),
    Loop(usize),
    Refused(Refusal),
}

// The answer that a solution in so many parts is.
fn told(parts: u64, found: Solution) -> Outcome
    ensures { result ≡ outcome_of parts found }
{
    match found {
        Solution::Least => Outcome::Found(parts),
        Solution::Cycle(length) => Outcome::Loop(length),
    }
}

// The plan of k rounds, or a loop.
fn plan_rounds(
    t: Table,
    start: Start,
    k: usize,
    times: &mut [u64],
    starts: &mut [u64],
    room: &mut [u64],
) -> Outcome
    requires { Sized t k × Roomy (k * t.steps) t.clocks times.old starts.old room.old }
    ensures { Answered t.clocks (rounds_of t k) (starts_of start)
        (rooms times.old starts.old room.old)
        (rooms times.new starts.new room.new) result }
{
    let total = k * t.steps;
    let parts = (total + t.clocks + 1) as u64;
    let mut constants: [u64; 64] = [0; 64];
    put_scaled(t, parts, &mut constants);
    let mut low: [u64; 112] = [sides::NONE; 112];
    put_keys(t, &constants, false, &mut low);
    let mut up: [u64; 112] = [sides::NONE; 112];
    put_keys(t, &constants, true, &mut up);
    let mut led: [u64; 82] = [0; 82];
    put_leads(t, &constants, &mut led);
    let mut far: [usize; 112] = [0; 112];
    put_distances(&t.resets, t.steps, &mut far);
    let found = solve_here(
        &low, &up, &led, &far, start, t.steps, t.clocks, total, times, starts, room,
    );
    told(parts, found)
}

// The question, after the table.
fn plan_table(
    t: Table,
    start: Start,
    k: u64,
    times: &mut [u64],
    starts: &mut [u64],
    room: &mut [u64],
) -> Outcome
    requires { Tabled t }
    ensures { Meets
        (admit_rooms t.clocks t.steps k (rooms times.old starts.old room.old))
        t.clocks (rounds_of t k) (starts_of start)
        (rooms times.old starts.old room.old)
        (rooms times.new starts.new room.new) result }
{
    let admission = admit(t.clocks, t.steps, k, times.len(), starts.len(), room.len());
    match admission {
        Admission::Refused(refusal) => Outcome::Refused(refusal),
        Admission::Accepted => plan_rounds(t, start, k as usize, times, starts, room),
    }
}

// The question "plan for k" to a table's bytes, in a variant of the start. If a run exists, the parts to a tick are answered, the earliest moments stand in
// the first places of `times`, and the smallest starts for them in the first places of `starts`; otherwise the length of a loop is
// answered, and its moments stand in the first places of `room`. All other places keep their contents.
pub fn plan(
    bytes: &[u8],
    start: Start,
    k: u64,
    times: &mut [u64],
    starts: &mut [u64],
    room: &mut [u64],
) -> Outcome
    ensures { Answers bytes.now start k
        (rooms times.old starts.old room.old)
        (rooms times.new starts.new room.new) result }
{
    let parsed = parse(bytes);
    let answer = parsed.answer;
    match answer {
        Read::Refused(refusal) => Outcome::Refused(refusal),
        Read::Counted {
            clocks: _,
            steps: _,
            guards: _,
        } => plan_table(parsed.table, start, k, times, starts, room),
    }
}
