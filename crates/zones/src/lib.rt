// Difference bound matrices in a lent row of 441 cells, 21 for each of up to 21 vertices: codes of bounds, and bounds put in.
#![tactic(auto)]

ghost use Rattle.std.specs.Prelude.{◌≡◌, ◌+◌, ◌*◌, ◌<◌, ◌≤◌, min, length};
ghost use Rattle.zones.specs.Cells.{Clear, Diagonal, tighten_of};
ghost use Rattle.zones.specs.Lines.{LineTo};

// The code of no bound.
pub const NONE: u64 = 4611686018427387904;

// The code of the weak zero: every other bound of d ticks lies 2 * d above it, and one less where it is strict.
pub const ZERO: u64 = 576460752303423489;

// The code of the strict zero, which sums of codes count twice.
pub const BASE: u64 = 576460752303423488;

// The tighter of two codes.
pub fn tighter(e: u64, f: u64) -> u64
    ensures { result ≡ min e f }
{
    e.min(f)
}

// No bound at all from the first `size` vertices.
pub fn clear(cells: &mut [u64], size: usize)
    requires { (length cells.old ≡ 441) × (size ≤ 21) }
    ensures { Clear (size * 21) cells.new }
{
    cells[..size * 21].fill(NONE);
}

// No bounds among the first `size` vertices: the weak zero from each to itself, and none elsewhere.
pub fn unbounded(cells: &mut [u64], size: usize)
    requires { (length cells.old ≡ 441) × (size ≤ 21) }
    ensures { Diagonal size size cells.new }
{
    clear(cells, size);
    for i in 0..size {
        cells[i * 22] = ZERO;
    }
}

// The bound from a to b, tightened by the code e.
pub fn tighten(cells: &mut [u64], a: usize, b: usize, e: u64)
    requires { (a < 21) × (b < 21) × (length cells.old ≡ 441) }
    ensures { cells.new ≡ tighten_of a b e cells.old }
{
    let at = a * 21 + b;
    let old = cells[at];
    cells[at] = tighter(old, e);
}

// Copies `size` codes of `other` from index `from` on into the row, from index `to` on.
pub fn copy_line(row: &mut [u64], other: &[u64], to: usize, from: usize, size: usize)
    requires { (length row.old ≤ 4900) × (length other.now ≤ 4900) × (to + size ≤ length row.old)
        × (from + size ≤ length other.now) }
    ensures { LineTo to from size other.now row.old row.new }
{
    for c in 0..size {
        row[to + c] = other[from + c];
    }
}
