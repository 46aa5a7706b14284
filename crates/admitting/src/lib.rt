// Whether an effect runs from a start that a variant allows: see crate effects. Its left part, the bounds among its first `side`
// vertices, tells from where the steps run. With the demands of the variant put in it has a solution, or it has none.
#![tactic(auto)]

ghost use Rattle.std.specs.Prelude.{◌≡◌, true, List, ◌↔◌, ◌-◌, ◌<◌, ◌≤◌, length};
ghost use Rattle.table.specs.Step.{Step};
ghost use Rattle.runs.specs.Demand.{starts_of};
ghost use Rattle.effects.specs.Begins.{Begins};
ghost use Rattle.effects.specs.Demands.{each};
ghost use Rattle.effects.specs.Starts.{starts_for};
ghost use Rattle.effects.specs.Whole.{Side};
ghost use Rattle.steps.specs.Puts.{puts_of};
ghost use Rattle.effects.specs.Stored.{EffectOf};
ghost use Rattle.admitting.specs.Grid.{Lies, LeftTo};

use closing::close;
use constraints::{Partner, partner_of, partners};
use runs::Start;
use steps::put;
use zones::copy_line;

// The left part of the effect in `cells`, whose rows begin `stride` codes apart from index `base` on, in the cells of `left`.
fn left_part(left: &mut [u64], cells: &[u64], base: usize, stride: usize, side: usize)
    requires { (length left.old ≡ 441) × Lies side base stride (length cells.now) }
    ensures { LeftTo side side base stride cells.now left.new }
{
    for r in 0..side {
        copy_line(left, cells, r * 21, base + r * stride, side);
    }
}

// The demand that the variant has for clock j.
fn clock(left: &mut [u64], start: Start, j: usize)
    requires { (length left.old ≡ 441) × (0 < j) × (j ≤ 6) }
    ensures { left.new ≡ puts_of (starts_of start j) left.old }
{
    match partner_of(start, 0, j) {
        Partner::One(d) => put(left, d),
        Partner::None => {}
    }
}

// Those for every clock.
fn clocks(left: &mut [u64], start: Start, side: usize)
    requires { (length left.old ≡ 441) × Side side }
    ensures { left.new ≡ puts_of (each (side - 1) (starts_of start)) left.old }
{
    for j in (1..side).rev() {
        clock(left, start, j);
    }
}

// Whether the effect in `cells`, whose rows begin `stride` codes apart from index `base` on, runs from a start that the variant
// allows. A variant without demands allows them all.
pub fn admits(
    cells: &[u64],
    base: usize,
    stride: usize,
    left: &mut [u64],
    start: Start,
    side: usize,
) -> bool
    requires { (length left.old ≡ 441) × Side side × Lies side base stride (length cells.now)
        × ((σ : List Step) × EffectOf side base stride cells.now σ) }
    ensures { (σ : List Step) → EffectOf side base stride cells.now σ
        → (result ≡ true) ↔ Begins (starts_for side start) σ }
{
    if partners(start) == 0 {
        return true;
    }
    left_part(left, cells, base, stride, side);
    clocks(left, start, side);
    close(left, 0, side)
}
