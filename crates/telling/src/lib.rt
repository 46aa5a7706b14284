// An effect told as bounds in ticks and marks, row by row.
#![tactic(auto)]

ghost use Rattle.std.specs.Prelude.{◌≡◌, ℕ, ◌+◌, ◌*◌, ◌<◌, ◌≤◌, length, get_or};
ghost use Rattle.zones.specs.Codes.{NONE, bound};
ghost use Rattle.effects.specs.Tightest.{ticks_told, mark_told};
ghost use Rattle.gluing.specs.Laying.{code};
ghost use Rattle.telling.specs.Told.{ToldLine, ToldTo};

use zones::{BASE, NONE};

// The ticks of a bound's code, 0 where there is none.
fn ticks_of(e: u64) -> i64
    requires { e ≤ NONE }
    ensures { result ≡ ticks_told (bound e) }
{
    if e == NONE {
        return 0;
    }
    (e / 2) as i64 - (BASE / 2) as i64
}

// Its mark: 0 none, 1 weak, 2 strict.
fn mark_of(e: u64) -> u8
    ensures { result ≡ mark_told (bound e) }
{
    if e == NONE {
        return 0;
    }
    if e % 2 == 0 {
        return 2;
    }
    1
}

// `size` codes of the row from index `from` on, told in both rooms from index `to` on.
fn line(bounds: &mut [i64], marks: &mut [u8], row: &[u64], to: usize, from: usize, size: usize)
    requires { (length row.now ≡ 4900) × (to + size ≤ length bounds.old) × (to + size ≤ length marks.old) × (to ≤ 196) × (from + size ≤ 4900)
        × (size ≤ 14) × ((c : ℕ) → c < size → get_or row.now (from + c) 0 ≤ NONE) }
    ensures { ToldLine to from size row.now bounds.old bounds.new marks.old marks.new }
{
    for c in 0..size {
        let e = row[from + c];
        bounds[to + c] = ticks_of(e);
        marks[to + c] = mark_of(e);
    }
}

// The effect with `size` vertices at a place of the row, told in the first places of both rooms.
pub fn tell(bounds: &mut [i64], marks: &mut [u8], row: &[u64], place: usize, size: usize)
    requires { (length row.now ≡ 4900) × (size * size ≤ length bounds.old) × (size * size ≤ length marks.old) × (place < 25)
        × (size ≤ 14) × ((a b : ℕ) → a < size → b < size → code row.now (place * 196) a b ≤ NONE) }
    ensures { ToldTo size (place * 196) size row.now bounds.old bounds.new marks.old marks.new }
{
    for r in 0..size {
        line(bounds, marks, row, r * size, place * 196 + r * 14, size);
    }
}
