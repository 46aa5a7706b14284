// The effects of steps one after the other, in places of a lent row: see crate effects. The row has 25 places of 196 codes.
#![tactic(auto)]

ghost use Rattle.std.specs.Prelude.{◌≡◌, ◌+◌, ◌*◌, ◌<◌, ◌≤◌, length};
ghost use Rattle.table.specs.Step.{steps_from, steps_of, Good};
ghost use Rattle.zones.specs.Cells.{matrix};
ghost use Rattle.effects.specs.Describes.{Describes};
ghost use Rattle.effects.specs.Whole.{Side, whole};
ghost use Rattle.effects.specs.Tells.{Tells};
ghost use Rattle.effects.specs.Joining.{Joinable, Joins};
ghost use Rattle.gluing.specs.Laying.{effect_at};
ghost use Rattle.joins.specs.Keeping.{LinesTo};
ghost use Rattle.joins.specs.Round.{UsesAll};

use closing::close;
use gluing::glue;
use steps::step_effect;
use table::Table;
use zones::copy_line;

// The effect at place a and then the one at place b, in the cells of `out`, or that both together have no run.
pub fn join(out: &mut [u64], row: &[u64], a: usize, b: usize, side: usize) -> bool
    requires { (length out.old ≡ 441) × (length row.now ≡ 4900) × Side side × (a < 25) × (b < 25)
        × Joinable side (effect_at row.now (a * 196)) × Joinable side (effect_at row.now (b * 196)) }
    ensures { Joins side (effect_at row.now (a * 196)) (effect_at row.now (b * 196)) result
        (matrix out.new) }
{
    glue(out, row, a, b, side);
    close(out, side + side, side + side + side)
}

// Keeps the bounds among the first 2 * side vertices of `out` at a place of the row.
pub fn keep(row: &mut [u64], out: &[u64], place: usize, side: usize)
    requires { (length row.old ≡ 4900) × (length out.now ≡ 441) × (place < 25) × (side ≤ 7) }
    ensures { LinesTo (side + side) (place * 196) (side + side) out.now row.old row.new }
{
    let size = side + side;
    for r in 0..size {
        copy_line(row, out, place * 196 + r * 14, r * 21, size);
    }
}

// Step i after the steps before it, whose effect is at place 0: the effect of all of them there, or that they have no run.
fn step_more(row: &mut [u64], out: &mut [u64], t: Table, i: usize, side: usize) -> bool
    requires { (length row.old ≡ 4900) × (length out.old ≡ 441) × Good t × Side side × UsesAll side t × (0 < i)
        × (i < t.steps) × Describes (steps_from t 0 i) (whole side (effect_at row.old 0)) }
    ensures { Tells (steps_from t 0 (i + 1)) result (whole side (effect_at row.new 0)) }
{
    if !step_effect(out, side, t, i) {
        return false;
    }
    keep(row, out, 1, side);
    if !join(out, row, 0, 1, side) {
        return false;
    }
    keep(row, out, 0, side);
    true
}

// The effect of one round of a table at place 0 of the row, or that it has no run.
pub fn round_effect(row: &mut [u64], out: &mut [u64], t: Table, side: usize) -> bool
    requires { (length row.old ≡ 4900) × (length out.old ≡ 441) × Good t × Side side × UsesAll side t }
    ensures { Tells (steps_of t) result (whole side (effect_at row.new 0)) }
{
    if !step_effect(out, side, t, 0) {
        return false;
    }
    keep(row, out, 0, side);
    for i in 1..t.steps {
        if !step_more(row, out, t, i, side) {
            return false;
        }
    }
    true
}
