// Difference bound matrices, closed by Floyd and Warshall's pivots: only the vertices in use are looked at.
#![tactic(auto)]

ghost use Rattle.std.specs.Prelude.{◌≡◌, ◌<◌, ◌≤◌, ◌^◌};
ghost use Rattle.zones.specs.Codes.{ZERO, Coded, sum_of};
ghost use Rattle.zones.specs.Cells.{cell, Ranged};
ghost use Rattle.closing.specs.Rows.{RowReady, RowTo, RowsTo};
ghost use Rattle.closing.specs.Closing.{Closing};

use zones::{BASE, NONE, ZERO, tighter};

// The code of the sum of two bounds: weak where both are. Within 2^57 ticks it neither wraps nor meets NONE.
fn sum(e: u64, f: u64) -> u64
    requires { (Coded (2 ^ 57) e) × (Coded (2 ^ 57) f) }
    ensures { result ≡ sum_of e f }
{
    if e == NONE {
        return NONE;
    }
    if f == NONE {
        return NONE;
    }
    let weak = (e % 2).max(f % 2);
    e + f - BASE - weak
}

// Row a of the first `size` vertices: every bound, or the way through p where that is tighter.
fn pivot_row(cells: &mut [u64], a: usize, p: usize, size: usize)
    requires { RowReady size a p cells.old }
    ensures { RowTo size a p size cells.old cells.new }
{
    let first = cells[a * 21 + p];
    if first == NONE {
        return;
    }
    for b in 0..size {
        let old = cells[a * 21 + b];
        let second = cells[p * 21 + b];
        let way = sum(first, second);
        cells[a * 21 + b] = tighter(old, way);
    }
}

// Every bound, or the way through p where that is tighter. Row by row in place, since a pivot at a diagonal that is not
// below zero leaves its own row as it is.
fn pivot(cells: &mut [u64], p: usize, size: usize)
    requires { (size ≤ 21) × (p < size) × (Ranged (2 ^ 57) size cells.old) × (ZERO ≤ cell cells.old p p) }
    ensures { RowsTo size p size cells.old cells.new }
{
    for a in 0..size {
        pivot_row(cells, a, p, size);
    }
}

// The pivots from .. size - 1 in turn, up to the first diagonal below zero: whether there was none. An entry within 2^52
// ticks stays within 21 times that before the last pivot, so that no sum wraps.
pub fn close(cells: &mut [u64], from: usize, size: usize) -> bool
    requires { (from ≤ size) × (size ≤ 21) × (Ranged (2 ^ 52) size cells.old) }
    ensures { Closing size from cells.old cells.new result }
{
    for p in from..size {
        if cells[p * 21 + p] < ZERO {
            return false;
        }
        pivot(cells, p, size);
    }
    true
}
