// Two effects of a lent row as one matrix in a row of cells: see crate effects. An effect takes 196 codes, 14 for each of up
// to 14 vertices, of which the first `side` are the configuration before and the next `side` the one after.
#![tactic(auto)]

ghost use Rattle.std.specs.Prelude.{◌≡◌, ◌+◌, ◌*◌, ◌<◌, ◌≤◌, length};
ghost use Rattle.gluing.specs.Blocks.{strip_of, block_of};
ghost use Rattle.gluing.specs.Laying.{lay_of};
ghost use Rattle.gluing.specs.Gluing.{Glued};

use zones::{clear, tighter};

// Lays the `side` codes of the row from index `from` on over those of `out` from index `to` on: the tighter stays.
fn strip(out: &mut [u64], row: &[u64], to: usize, from: usize, side: usize)
    requires { (length out.old ≡ 441) × (length row.now ≡ 4900) × (to + side ≤ 441) × (from + side ≤ 4900) }
    ensures { out.new ≡ strip_of to from row.now side out.old }
{
    for c in 0..side {
        let old = out[to + c];
        let new = row[from + c];
        out[to + c] = tighter(old, new);
    }
}

// The same of `side` rows.
fn block(out: &mut [u64], row: &[u64], to: usize, from: usize, side: usize)
    requires { (length out.old ≡ 441) × (length row.now ≡ 4900) × (side ≤ 7) × (to + side * 22 ≤ 462)
        × (from + side * 15 ≤ 4914) }
    ensures { out.new ≡ block_of to from row.now side side out.old }
{
    for r in 0..side {
        strip(out, row, to + r * 21, from + r * 14, side);
    }
}

// Lays the effect at index `at` over `out`: the configuration before comes to the vertices from lo on, the one after to those
// from hi.
fn lay(out: &mut [u64], row: &[u64], at: usize, lo: usize, hi: usize, side: usize)
    requires { (length out.old ≡ 441) × (length row.now ≡ 4900) × (side ≤ 7) × (at + 196 ≤ 4900)
        × (lo + side ≤ 21) × (hi + side ≤ 21) }
    ensures { out.new ≡ lay_of side at lo hi row.now out.old }
{
    block(out, row, lo * 22, at, side);
    block(out, row, lo * 21 + hi, at + side, side);
    block(out, row, hi * 21 + lo, at + side * 14, side);
    block(out, row, hi * 22, at + side * 15, side);
}

// The effects at places a and b of the row as one matrix: before at the first `side` vertices, after at the next, and
// between, which they share, at the last.
pub fn glue(out: &mut [u64], row: &[u64], a: usize, b: usize, side: usize)
    requires { (length out.old ≡ 441) × (length row.now ≡ 4900) × (side ≤ 7) × (a < 25) × (b < 25) }
    ensures { Glued side (a * 196) (b * 196) row.now out.new }
{
    clear(out, side * 3);
    lay(out, row, a * 196, 0, side * 2, side);
    lay(out, row, b * 196, side * 2, side, side);
}
