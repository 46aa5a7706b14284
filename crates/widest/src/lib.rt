// The question "widest window of k rounds": of the closed windows from log-in the widest, or that none is closed.
#![tactic(auto)]

ghost use Rattle.std.specs.Prelude.{◌*◌};
ghost use Rattle.runs.specs.declared.Start.TheVariants.{LogIn};
ghost use Rattle.constraints.specs.Sized.{Sized, Tabled, rounds_of};
ghost use Rattle.solving.specs.Solve.{Roomy};
ghost use Rattle.widest.specs.Answer.{admit_of, Answered, Meets, Answers};

use asking::in_range;
use decode::parse;
use spans::exact;
use table::{Fault, Read, Refusal, Table};
use window::Choice;

// The answer to the question: the two times, or that no window is closed; or why it is refused.
#[derive(Clone, Copy)]
pub enum Answer {
    Told(Choice),
    Refused(Refusal),
}

// The widest window of k rounds, with space to work in: for first moments, for starts, and for last moments or a loop.
fn widest_within(
    t: Table,
    k: usize,
    firsts: &mut [u64],
    starts: &mut [u64],
    lasts: &mut [u64],
) -> Answer
    requires { Sized t k × Roomy (k * t.steps) t.clocks firsts.old starts.old lasts.old }
    ensures { Answered t.clocks (rounds_of t k) result }
{
    let total = k * t.steps;
    if !exact(t, k, firsts, starts, lasts) {
        return Answer::Told(Choice::NoneClosed);
    }
    let parts = (total + t.clocks + 1) as u64;
    Answer::Told(showing::widest(firsts, &lasts[1..], parts, total))
}

// The widest window of k rounds.
fn widest_rounds(t: Table, k: usize) -> Answer
    requires { Sized t k }
    ensures { Answered t.clocks (rounds_of t k) result }
{
    let mut firsts: [u64; 1024] = [0; 1024];
    let mut starts: [u64; 6] = [0; 6];
    let mut lasts: [u64; 1031] = [0; 1031];
    widest_within(t, k, &mut firsts, &mut starts, &mut lasts)
}

// The question, after the table.
fn widest_table(t: Table, k: u64) -> Answer
    requires { Tabled t }
    ensures { Meets (admit_of t.steps k) t.clocks (rounds_of t k) result }
{
    if !in_range(k, t.steps) {
        return Answer::Refused(Refusal {
            fault: Fault::Rounds,
            place: 0,
        });
    }
    widest_rounds(t, k as usize)
}

// The question to a table's bytes.
pub fn widest(bytes: &[u8], k: u64) -> Answer
    ensures { Answers bytes.now k result }
{
    let parsed = parse(bytes);
    let answer = parsed.answer;
    match answer {
        Read::Refused(refusal) => Answer::Refused(refusal),
        Read::Counted {
            clocks: _,
            steps: _,
            guards: _,
        } => widest_table(parsed.table, k),
    }
}
