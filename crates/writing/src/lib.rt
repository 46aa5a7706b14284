// The demands of k rounds of a table by value: how many they are, and all of them written to a row.
#![tactic(auto)]

ghost use Rattle.std.specs.Prelude.{◌≡◌, ◌+◌, ◌*◌, ◌<◌, ◌≤◌, length, get_or};
ghost use Rattle.table.specs.Step.{Good};
ghost use Rattle.constraints.specs.Demands.{demands_of};
ghost use Rattle.constraints.specs.Number.{guard_number};
ghost use Rattle.cells.specs.Lines.{cells, over};
ghost use Rattle.cells.specs.Writing.{Fits, Wrote};
ghost use Rattle.writing.specs.Passed.{guards_due};
ghost use Rattle.constraints.specs.Sized.{Sized};

use runs::Start;
use table::{Relation, Table};

// The number of demands of a guard.
fn guard_number(relation: Relation) -> usize
    ensures { result ≡ guard_number relation }
{
    if constraints::twice(relation) { 2 } else { 1 }
}

// The number of demands of k rounds: in each, one for each step and those of its guards; and for each clock one and its
// partners.
pub fn count(t: Table, start: Start, k: usize) -> usize
    requires { Sized t k }
    ensures { result ≡ length (demands_of t start k) }
{
    let steps = t.steps;
    let mut n = steps;
    for place in t.ends[0]..t.ends[steps] {
        n += guard_number(t.guards[place].relation);
    }
    k * n + t.clocks * (1 + constraints::partners(start))
}

// Writes the demands of the guards of step s, whose moment is i + 1, and gives the place after them.
fn write_guards(
    t: &Table,
    s: usize,
    i: usize,
    resets: &[usize; 7],
    row: &mut [i64],
    q: usize,
) -> usize
    requires { Good t.now × (s < t.now.steps) × (i < 1024)
        × Fits row.old q (guards_due t.now s i resets.now (get_or t.now.ends s 0)) }
    ensures { Wrote row.old q (guards_due t.now s i resets.now (get_or t.now.ends s 0)) row.new result }
{
    let mut p = q;
    for g in t.ends[s]..t.ends[s + 1] {
        let guard = t.guards[g];
        let clock = guard.clock as usize;
        let second = guard.second as usize;
        let end = constraints::end_of(second, i + 1, resets);
        p = cells::put_guard(row, p, guard, resets[clock], end);
    }
    p
}

// Writes all demands of k rounds to the row: of each step the order demand and those of its guards, then those of the
// starts. So many steps are past, and step s of the table is next.
pub fn write(t: Table, start: Start, k: usize, row: &mut [i64])
    requires { Sized t k × (4 * length (demands_of t start k) ≤ length row.old) }
    ensures { row.new ≡ over (cells (demands_of t start k)) row.old }
{
    let total = k * t.steps;
    let mut resets = constraints::fresh(total);
    let mut q: usize = 0;
    let mut s: usize = 0;
    for past in 0..total {
        q = cells::put_not_after(row, q, past + 1, past);
        q = write_guards(&t, s, past, &resets, row, q);
        constraints::reset_clocks(&t.resets, s, past + 1, &mut resets);
        s = constraints::following(s, t.steps);
    }
    cells::put_starts(row, q, start, t.clocks, total);
}
