// The question "windows of k rounds": when each step may happen from log-in, in seconds, as a wall panel shows it.
#![tactic(auto)]

ghost use Rattle.std.specs.Prelude.{◌≡◌, ◌*◌, length};
ghost use Rattle.constraints.specs.Sized.{Sized, Tabled, rounds_of};
ghost use Rattle.runs.specs.declared.Start.TheVariants.{LogIn};
ghost use Rattle.solving.specs.Solve.{Roomy};
ghost use Rattle.showing.specs.Shown.{Room};
ghost use Rattle.windows.specs.Admit.{admit_of};
ghost use Rattle.windows.specs.Answer.{rooms, Answered, Meets, Answers};

use asking::{Admission, in_range, refuse};
use decode::parse;
use showing::{show, show_absent};
use spans::exact;
use table::{Fault, Read, Refusal, Table};

// The answer to the question: how many steps are shown; or why it is refused.
#[derive(Clone, Copy)]
pub enum Panel {
    Shown(usize),
    Refused(Refusal),
}

// k rounds of so many steps, with rooms for so many marks and times.
fn admit_windows(steps: usize, k: u64, marks: usize, times: usize) -> Admission
    ensures { result ≡ admit_of steps k marks times }
{
    if !in_range(k, steps) {
        return refuse(Fault::Rounds);
    }
    let total = k as usize * steps;
    if marks < total {
        return refuse(Fault::Times);
    }
    if times < total * 2 {
        return refuse(Fault::Times);
    }
    Admission::Accepted
}

// The windows of k rounds, with space to work in: for first moments, for starts, and for last moments or a loop.
fn show_within(
    t: Table,
    k: usize,
    firsts: &mut [u64],
    starts: &mut [u64],
    lasts: &mut [u64],
    marks: &mut [u8],
    times: &mut [f64],
) -> Panel
    requires { Sized t k × Roomy (k * t.steps) t.clocks firsts.old starts.old lasts.old
        × Room (k * t.steps) (length marks.old) (length times.old) }
    ensures { Answered t.clocks (rounds_of t k)
        (rooms marks.old times.old) (rooms marks.new times.new) result }
{
    let total = k * t.steps;
    if !exact(t, k, firsts, starts, lasts) {
        show_absent(total, marks, times);
        return Panel::Shown(total);
    }
    let parts = (total + t.clocks + 1) as u64;
    show(firsts, &lasts[1..], parts, total, marks, times);
    Panel::Shown(total)
}

// The windows of k rounds.
fn show_rounds(t: Table, k: usize, marks: &mut [u8], times: &mut [f64]) -> Panel
    requires { Sized t k × Room (k * t.steps) (length marks.old) (length times.old) }
    ensures { Answered t.clocks (rounds_of t k)
        (rooms marks.old times.old) (rooms marks.new times.new) result }
{
    let mut firsts: [u64; 1024] = [0; 1024];
    let mut starts: [u64; 6] = [0; 6];
    let mut lasts: [u64; 1031] = [0; 1031];
    show_within(t, k, &mut firsts, &mut starts, &mut lasts, marks, times)
}

// The question, after the table.
fn windows_table(t: Table, k: u64, marks: &mut [u8], times: &mut [f64]) -> Panel
    requires { Tabled t }
    ensures { Meets (admit_of t.steps k (length marks.old) (length times.old))
        t.clocks (rounds_of t k)
        (rooms marks.old times.old) (rooms marks.new times.new) result }
{
    let admission = admit_windows(t.steps, k, marks.len(), times.len());
    match admission {
        Admission::Refused(refusal) => Panel::Refused(refusal),
        Admission::Accepted => show_rounds(t, k as usize, marks, times),
    }
}

// The question to a table's bytes. Answered, the window of each step of k rounds stands in the first places of the two rooms, in step
// order: a mark, 2 for a closed window, 1 for an open one and 0 where no run exists, and two times side by side, the earliest and the
// latest in seconds, 0 where there is none. All other places keep their contents.
pub fn windows(bytes: &[u8], k: u64, marks: &mut [u8], times: &mut [f64]) -> Panel
    ensures { Answers bytes.now k
        (rooms marks.old times.old) (rooms marks.new times.new) result }
{
    let parsed = parse(bytes);
    let answer = parsed.answer;
    match answer {
        Read::Refused(refusal) => Panel::Refused(refusal),
        Read::Counted {
            clocks: _,
            steps: _,
            guards: _,
        } => windows_table(parsed.table, k, marks, times),
    }
}
