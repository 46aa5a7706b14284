// The question "demands for k": the difference constraints (01: demands) of k rounds of a table, written to a lent row of numbers.
#![tactic(auto)]

ghost use Rattle.std.specs.Prelude.{◌≡◌, min, length};
ghost use Rattle.constraints.specs.Demands.{demands_of};
ghost use Rattle.cells.specs.Lines.{cells};
ghost use Rattle.constraints.specs.Sized.{Tabled};
ghost use Rattle.demands.specs.Listed.{refused_for, answer_of, listed_of, unless_refused, row_room, row_of};

use runs::Start;
use table::{Fault, Read, Refusal, Table};

// The answer: so many demands are written; or a refusal, and nothing is.
#[derive(Clone, Copy)]
pub enum Listed {
    Written(usize),
    Refused(Refusal),
}

// A refusal at place 0.
fn refused(fault: Fault) -> Listed
    ensures { result ≡ refused_for fault }
{
    Listed::Refused(Refusal { fault, place: 0 })
}

// The answer for an accepted table.
fn answer(t: Table, start: Start, k: u64, row: &mut [i64], limit: usize) -> Listed
    requires { Tabled t }
    ensures { (result ≡ answer_of t.steps k (length (demands_of t start k)) (min (row_room row.old) limit))
        × (row.new ≡ unless_refused result (cells (demands_of t start k)) row.old) }
{
    if !asking::in_range(k, t.steps) {
        return refused(Fault::Rounds);
    }
    let rounds = k as usize;
    let n = writing::count(t, start, rounds);
    if row.len() / 4 < n {
        return refused(Fault::List);
    }
    if limit < n {
        return refused(Fault::List);
    }
    writing::write(t, start, rounds, row);
    Listed::Written(n)
}

// The row entry's work, where there may be no more than `limit` demands.
pub fn rows(bytes: &[u8], start: Start, k: u64, row: &mut [i64], limit: usize) -> Listed
    ensures { (result ≡ listed_of bytes.now start k (min (row_room row.old) limit))
        × (row.new
        ≡ row_of bytes.now start k (min (row_room row.old) limit) row.old) }
{
    let parsed = decode::parse(bytes);
    let read = parsed.answer;
    let table = parsed.table;
    match read {
        Read::Refused(refusal) => Listed::Refused(refusal),
        Read::Counted {
            clocks: _,
            steps: _,
            guards: _,
        } => answer(table, start, k, row, limit),
    }
}

// The row entry: the demands are written to the row, in demand order, four numbers to a demand.
pub fn demands(bytes: &[u8], start: Start, k: u64, row: &mut [i64]) -> Listed
    ensures { (result ≡ listed_of bytes.now start k (row_room row.old))
        × (row.new ≡ row_of bytes.now start k (row_room row.old) row.old) }
{
    let limit = row.len() / 4;
    rows(bytes, start, k, row, limit)
}
