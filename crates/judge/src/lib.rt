// The four questions, for a terminal to call from C, where a slice is a pointer and a length. An answer is four numbers, written
// to the first places of a lent answer room; its other places keep their contents. An answer room of fewer than four places gives
// false, and then no room changes. A refusal is 01's number, its place, 0, 0; the first number of every other answer is 0. Runs start
// at log-in, with all readings 0; entries named mid_shift ask the same of runs that start in mid-shift, with any readings.
#![tactic(auto)]

ghost use Rattle.std.specs.Prelude.{◌≡◌};
ghost use Rattle.wire.specs.Reading.{read_of};
ghost use Rattle.plan.specs.Answer.{rooms};
ghost use Rattle.demands.specs.Listed.{listed_of, row_room};
ghost use Rattle.answers.specs.Four.{read_numbers};
ghost use Rattle.numbers.specs.Numbers.{demands_numbers};
ghost use Rattle.answers.specs.Answered.{roomy, answered};
ghost use Rattle.runs.specs.declared.Start.TheVariants.{LogIn, MidShift};
ghost use Rattle.judge.specs.Room.{listed_row, RoundsTold, PlanTold};

use answers::{put, read_numbers};
use numbers::{count_numbers, demands_numbers, plan_numbers};
use runs::Start;

// how many numbers an answer has
const PLACES: usize = 4;

// The question "read": 0, clocks, steps, guards (01: n, L, bounds).
pub fn judge_read(table: &[u8], answer: &mut [u64]) -> bool
    ensures { (result ≡ roomy answer.old)
        × (answer.new ≡ answered answer.old (read_numbers (read_of table.now))) }
{
    if answer.len() < PLACES {
        return false;
    }
    let numbers = read_numbers(wire::read(table));
    put(answer, numbers);
    true
}

// The question "rounds": 0, 0, the count, 0; without end: 0, 1, 0, 0.
fn rounds_from(table: &[u8], start: Start, answer: &mut [u64]) -> bool
    ensures { (result ≡ roomy answer.old)
        × RoundsTold result table.now start answer.old answer.new }
{
    if answer.len() < PLACES {
        return false;
    }
    let numbers = count_numbers(rounds::rounds(table, start));
    put(answer, numbers);
    true
}

pub fn judge_rounds(table: &[u8], answer: &mut [u64]) -> bool
    ensures { (result ≡ roomy answer.old)
        × RoundsTold result table.now LogIn answer.old answer.new }
{
    rounds_from(table, Start::LogIn, answer)
}

pub fn judge_rounds_mid_shift(table: &[u8], answer: &mut [u64]) -> bool
    ensures { (result ≡ roomy answer.old)
        × RoundsTold result table.now MidShift answer.old answer.new }
{
    rounds_from(table, Start::MidShift, answer)
}

// The question "plan for k": 0, 0, the parts to a tick, 0, and the plan is in the times and starts rooms; or 0, 1, the length of a
// loop, 0, and the loop is in the loop room, `room`.
fn plan_from(
    table: &[u8],
    start: Start,
    k: u64,
    times: &mut [u64],
    starts: &mut [u64],
    room: &mut [u64],
    answer: &mut [u64],
) -> bool
    ensures { (result ≡ roomy answer.old)
        × PlanTold result table.now start k
        (rooms times.old starts.old room.old)
        (rooms times.new starts.new room.new)
        answer.old answer.new }
{
    if answer.len() < PLACES {
        return false;
    }
    let numbers = plan_numbers(plan::plan(table, start, k, times, starts, room));
    put(answer, numbers);
    true
}

pub fn judge_plan(
    table: &[u8],
    k: u64,
    times: &mut [u64],
    starts: &mut [u64],
    room: &mut [u64],
    answer: &mut [u64],
) -> bool
    ensures { (result ≡ roomy answer.old)
        × PlanTold result table.now LogIn k
        (rooms times.old starts.old room.old)
        (rooms times.new starts.new room.new)
        answer.old answer.new }
{
    plan_from(table, Start::LogIn, k, times, starts, room, answer)
}

pub fn judge_plan_mid_shift(
    table: &[u8],
    k: u64,
    times: &mut [u64],
    starts: &mut [u64],
    room: &mut [u64],
    answer: &mut [u64],
) -> bool
    ensures { (result ≡ roomy answer.old)
        × PlanTold result table.now MidShift k
        (rooms times.old starts.old room.old)
        (rooms times.new starts.new room.new)
        answer.old answer.new }
{
    plan_from(table, Start::MidShift, k, times, starts, room, answer)
}

// The question "demands for k": 0, their number, 0, 0, and the demands are in the row, four numbers to a demand.
fn demands_from(table: &[u8], start: Start, k: u64, row: &mut [i64], answer: &mut [u64]) -> bool
    ensures { (result ≡ roomy answer.old)
        × (answer.new ≡ answered answer.old
        (demands_numbers (listed_of table.now start k (row_room row.old))))
        × (row.new ≡ listed_row answer.old table.now start k row.old) }
{
    if answer.len() < PLACES {
        return false;
    }
    let numbers = demands_numbers(demands::demands(table, start, k, row));
    put(answer, numbers);
    true
}

pub fn judge_demands(table: &[u8], k: u64, row: &mut [i64], answer: &mut [u64]) -> bool
    ensures { (result ≡ roomy answer.old)
        × (answer.new ≡ answered answer.old
        (demands_numbers (listed_of table.now LogIn k (row_room row.old))))
        × (row.new ≡ listed_row answer.old table.now LogIn k row.old) }
{
    demands_from(table, Start::LogIn, k, row, answer)
}

pub fn judge_demands_mid_shift(table: &[u8], k: u64, row: &mut [i64], answer: &mut [u64]) -> bool
    ensures { (result ≡ roomy answer.old)
        × (answer.new ≡ answered answer.old
        (demands_numbers (listed_of table.now MidShift k (row_room row.old))))
        × (row.new ≡ listed_row answer.old table.now MidShift k row.old) }
{
    demands_from(table, Start::MidShift, k, row, answer)
}
