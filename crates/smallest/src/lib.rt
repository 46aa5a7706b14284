// The smallest starting readings that the left part of an effect allows, in as many parts to a tick as a configuration has vertices: the
// left part in parts, closed, tells them in its first row. See crate zones (Grid, InParts).
#![tactic(auto)]

ghost use Rattle.std.specs.Prelude.{◌≡◌, List, ℕ, ◌+◌, ◌*◌, ◌-◌, ◌/◌, ◌<◌, ◌≤◌, length, get_or};
ghost use Rattle.table.specs.Step.{Step};
ghost use Rattle.basics.specs.Places.{at, written};
ghost use Rattle.zones.specs.Codes.{BIAS, ZERO, Coded};
ghost use Rattle.effects.specs.Whole.{Side};
ghost use Rattle.effects.specs.Stored.{EffectOf};
ghost use Rattle.gluing.specs.Laying.{code, effect_at};
ghost use Rattle.smallest.specs.Codes.{most, parts_code, PartsLine, PartsTo};
ghost use Rattle.smallest.specs.Least.{Written};

use closing::close;
use zones::{BASE, NONE, ZERO};

// The code of a bound in parts: a strict one is a part less.
fn in_parts(e: u64, parts: u64) -> u64
    requires { Coded most e × (parts ≤ 7) }
    ensures { result ≡ parts_code parts e }
{
    if e == NONE {
        return NONE;
    }
    let strict = 1 - e % 2;
    e / 2 * parts * 2 + ZERO - parts * BASE - 2 * strict
}

// `size` codes of the row from index `from` on, in `size` parts to a tick, in the cells from index `to` on.
fn line(cells: &mut [u64], row: &[u64], to: usize, from: usize, size: usize)
    requires { (length cells.old ≡ 441) × (length row.now ≡ 4900) × (to + size ≤ 441) × (from + size ≤ 4900) × (size ≤ 7)
        × ((c : ℕ) → c < size → Coded most (get_or row.now (from + c) 0)) }
    ensures { PartsLine size to from size row.now cells.old cells.new }
{
    for c in 0..size {
        cells[to + c] = in_parts(row[from + c], size as u64);
    }
}

// The left part of the effect at a place of the row, in `side` parts to a tick, in the cells.
fn left_in_parts(cells: &mut [u64], row: &[u64], place: usize, side: usize)
    requires { (length cells.old ≡ 441) × (length row.now ≡ 4900) × (place < 25) × (side ≤ 7)
        × ((a b : ℕ) → a < side → b < side → Coded most (code row.now (place * 196) a b)) }
    ensures { PartsTo side side (place * 196) row.now cells.new }
{
    for r in 0..side {
        line(cells, row, r * 21, place * 196 + r * 14, side);
    }
}

// The readings that the first row of the cells tells, of clocks 1 to `side` - 1, in the first places.
fn fetch(starts: &mut [u64], cells: &[u64], side: usize)
    requires { (length cells.now ≡ 441) × (0 < side) × (side ≤ 7) × (side ≤ length starts.old + 1)
        × ((a : ℕ) → a < side → at cells.now a ≤ ZERO) }
    ensures { starts.new
        ≡ written (λ j. BIAS - at cells.now (j + 1) / 2) (side - 1) starts.old }
{
    for j in 0..side - 1 {
        starts[j] = BASE / 2 - cells[j + 1] / 2;
    }
}

// The smallest readings that the left part of the effect at a place allows, in `side` parts to a tick, in the first places of `starts`.
pub fn smallest(starts: &mut [u64], cells: &mut [u64], row: &[u64], place: usize, side: usize)
    requires { (length cells.old ≡ 441) × (length row.now ≡ 4900) × (place < 25) × Side side
        × (side ≤ length starts.old + 1) × ((σ : List Step) × EffectOf side (place * 196) 14 row.now σ) }
    ensures { Written side (effect_at row.now (place * 196)) starts.old starts.new }
{
    left_in_parts(cells, row, place, side);
    close(cells, 0, side);
    fetch(starts, cells, side);
}
