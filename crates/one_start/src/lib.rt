// The question "one start for every length": the smallest starting readings from which every number of rounds runs, in mid-shift.
#![tactic(auto)]

ghost use Rattle.std.specs.Prelude.{◌≡◌, ◌+◌, ◌≤◌, length};
ghost use Rattle.table.specs.Step.{steps_of, Good};
ghost use Rattle.joins.specs.Round.{UsesAll};
ghost use Rattle.one_start.specs.Answer.{Answered, admit_of, Meets, Answers};

use asking::{Admission, refuse};
use decode::parse;
use rounds::search;
use runs::Start;
use smallest::smallest;
use table::{Fault, Read, Refusal, Table};

// The answer: the count of rounds where it is finite; or, where it is without end, the parts to a tick of the readings; or a refusal.
#[derive(Clone, Copy)]
pub enum Lasting {
    Finite(u64),
    Parts(u64),
    Refused(Refusal),
}

// Whether a room of so many places has those of the starts of so many clocks.
fn admit_starts(clocks: usize, starts: usize) -> Admission
    ensures { result ≡ admit_of clocks starts }
{
    if starts < clocks {
        return refuse(Fault::Starts);
    }
    Admission::Accepted
}

// The answer for an accepted table, with room for its starts.
fn start_of(t: Table, starts: &mut [u64]) -> Lasting
    requires { Good t × UsesAll (t.clocks + 1) t × (t.clocks ≤ length starts.old) }
    ensures { Answered t.clocks (steps_of t) starts.old starts.new result }
{
    let mut row: [u64; 4900] = [0; 4900];
    let mut out: [u64; 441] = [0; 441];
    let mut left: [u64; 441] = [0; 441];
    let found = search(&mut row, &mut out, &mut left, t, Start::MidShift);
    if !found.endless {
        return Lasting::Finite(found.count);
    }
    let side = t.clocks + 1;
    let place = found.place;
    smallest(starts, &mut left, &row, place, side);
    Lasting::Parts(side as u64)
}

// The question, after the table.
fn start_in(t: Table, starts: &mut [u64]) -> Lasting
    requires { Good t × UsesAll (t.clocks + 1) t }
    ensures { Meets (admit_of t.clocks (length starts.old)) t.clocks (steps_of t)
        starts.old starts.new result }
{
    let admission = admit_starts(t.clocks, starts.len());
    match admission {
        Admission::Refused(refusal) => Lasting::Refused(refusal),
        Admission::Accepted => start_of(t, starts),
    }
}

// The question to a table's bytes. Where every number of rounds runs, the smallest readings from which all of them do stand in the first
// places of `starts`; all other places keep their contents.
pub fn one_start(bytes: &[u8], starts: &mut [u64]) -> Lasting
    ensures { Answers bytes.now starts.old starts.new result }
{
    let parsed = parse(bytes);
    let answer = parsed.answer;
    match answer {
        Read::Refused(refusal) => Lasting::Refused(refusal),
        Read::Counted { .. } => {
            let table = parsed.table;
            start_in(table, starts)
        }
    }
}
