// The effect of one step, as a difference bound matrix in a lent row of cells: see crate effects. A configuration has `side`
// vertices, now and the clocks that the table has: before the step they are 0 to side - 1, after it the next.
#![tactic(auto)]

ghost use Rattle.std.specs.Prelude.{◌≡◌, [], ◌∷◌, false, cond, ◌-◌, ◌<◌, ◌≤◌, length};
ghost use Rattle.table.specs.Step.{up_of, down_of, end_of, FairGuard, step_at, Good};
ghost use Rattle.runs.specs.Demand.{plus, guard_demands, guards_demands};
ghost use Rattle.effects.specs.Demands.{each};
ghost use Rattle.effects.specs.StepDemands.{reset_demands, clock_demands, Uses, Short};
ghost use Rattle.effects.specs.Whole.{Side, whole};
ghost use Rattle.effects.specs.Tells.{Tells};
ghost use Rattle.zones.specs.Cells.{matrix};
ghost use Rattle.steps.specs.Puts.{put_of, puts_of};

use closing::close;
use constraints::{bit_of, down_of, guard_demand, twice, up_of};
use runs::Demand;
use table::{Guard, Table};
use zones::{ZERO, tighten, unbounded};

// The vertex of clock j's last reset after the step: the step, or its last reset before.
fn last(side: usize, j: usize, reset: bool) -> usize
    requires { j < side }
    ensures { (result ≡ cond reset side j) × (result ≤ side) }
{
    if reset { side } else { j }
}

// Clock j between the two configurations: not last reset after the start, and reset by the step or kept.
fn clock(cells: &mut [u64], side: usize, j: usize, reset: bool)
    requires { (0 < j) × (j < side) × (side ≤ 7) × (length cells.old ≡ 441) }
    ensures { cells.new ≡ puts_of (plus 0 j 0 false ∷ reset_demands side reset j) cells.old }
{
    let from = last(side, j, reset);
    tighten(cells, 0, j, ZERO);
    tighten(cells, from, side + j, ZERO);
    tighten(cells, side + j, from, ZERO);
}

// The vertex that a guard's clock is compared with: the step, or the last reset of the second clock before.
fn end(second: usize, side: usize) -> usize
    requires { second < side }
    ensures { (result ≡ end_of second side (λ j. j)) × (result ≤ side) }
{
    if second == 0 { side } else { second }
}

// A demand put in.
pub fn put(cells: &mut [u64], d: Demand)
    requires { (length cells.old ≡ 441) × Short 21 d }
    ensures { cells.new ≡ put_of d cells.old }
{
    let strict = bit_of(d.strict);
    tighten(cells, d.from, d.to, ZERO + 2 * d.up - 2 * d.down - strict);
}

// A guard, on the time from its clock's last reset to the step, or to the last reset of its second clock.
fn guard(cells: &mut [u64], side: usize, g: Guard)
    requires { FairGuard g × (g.clock < side) × (g.second < side) × (side ≤ 7) × (length cells.old ≡ 441) }
    ensures { cells.new
        ≡ puts_of (guard_demands g.relation (up_of g) (down_of g) g.clock (end_of g.second side (λ j. j))) cells.old }
{
    let relation = g.relation;
    let j = g.clock as usize;
    let e = end(g.second as usize, side);
    let up = up_of(g);
    let down = down_of(g);
    let first = guard_demand(relation, up, down, j, e, false);
    put(cells, first);
    if !twice(relation) {
        return;
    }
    let second = guard_demand(relation, up, down, j, e, true);
    put(cells, second);
}

// Time does not go back, and every clock.
fn clocks(cells: &mut [u64], side: usize, t: Table, i: usize)
    requires { (i < 16) × Side side × (length cells.old ≡ 441) }
    ensures { cells.new
        ≡ puts_of (plus side 0 0 false ∷ each (side - 1) (clock_demands side (step_at t i))) cells.old }
{
    tighten(cells, side, 0, ZERO);
    for j in (1..side).rev() {
        clock(cells, side, j, t.resets[7 * i + j]);
    }
}

// The guards of step i.
fn guards(cells: &mut [u64], side: usize, t: Table, i: usize)
    requires { Good t × (i < t.steps) × Uses side (step_at t i) × (side ≤ 7) × (length cells.old ≡ 441) }
    ensures { cells.new ≡ puts_of (guards_demands (step_at t i).guards side (λ j. j)) cells.old }
{
    for g in &t.guards[t.ends[i]..t.ends[i + 1]] {
        guard(cells, side, *g);
    }
}

// The effect of step i of a table in the cells, or that it has no run.
pub fn step_effect(cells: &mut [u64], side: usize, t: Table, i: usize) -> bool
    requires { Good t × (i < t.steps) × Uses side (step_at t i) × Side side × (length cells.old ≡ 441) }
    ensures { Tells (step_at t i ∷ []) result (whole side (matrix cells.new)) }
{
    unbounded(cells, side + side);
    clocks(cells, side, t, i);
    guards(cells, side, t, i);
    close(cells, 0, side + side)
}
