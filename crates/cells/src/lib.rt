// Demands written to a row, four numbers to a demand: one, those of a guard, and those of the starts.
#![tactic(auto)]

ghost use Rattle.std.specs.Prelude.{◌≡◌, false, [], ◌∷◌, map, ◌≤◌, ◌<◌};
ghost use Rattle.std.proofs.lemmas.List.Edits.{sets};
ghost use Rattle.table.specs.Step.{up_of, down_of};
ghost use Rattle.runs.specs.Demand.{ticks_of, plus, guard_demands, moved, starts_of, start_demands};
ghost use Rattle.cells.specs.Lines.{cells, Small};
ghost use Rattle.cells.specs.Writing.{Fits, Wrote};

use constraints::Partner;
use runs::{Demand, Start};
use table::Guard;

// The bound of a demand, up − down.
fn bound_of(d: Demand) -> i64
    requires { Small d }
    ensures { result ≡ ticks_of d }
{
    d.up as i64 - d.down as i64
}

// Writes the four numbers of a demand at a place of the row, and gives the place after them.
fn put(row: &mut [i64], q: usize, d: Demand) -> usize
    requires { Fits row.old q (d ∷ []) }
    ensures { Wrote row.old q (d ∷ []) row.new result }
{
    row[q] = d.from as i64;
    row[q + 1] = d.to as i64;
    row[q + 2] = bound_of(d);
    row[q + 3] = i64::from(d.strict);
    q + 4
}

// Writes the one or two demands of a guard, when its clock was last reset at moment z and is compared with moment e.
pub fn put_guard(row: &mut [i64], q: usize, guard: Guard, z: usize, e: usize) -> usize
    requires { Fits row.old q (guard_demands guard.relation (up_of guard) (down_of guard) z e) }
    ensures { Wrote row.old q (guard_demands guard.relation (up_of guard) (down_of guard) z e) row.new result }
{
    let relation = guard.relation;
    let up = constraints::up_of(guard);
    let down = constraints::down_of(guard);
    let first = constraints::guard_demand(relation, up, down, z, e, false);
    let p = put(row, q, first);
    if !constraints::twice(relation) {
        return p;
    }
    let second = constraints::guard_demand(relation, up, down, z, e, true);
    put(row, p, second)
}

// Writes the demand "from a to b of 0".
pub fn put_not_after(row: &mut [i64], q: usize, from: usize, to: usize) -> usize
    requires { Fits row.old q (plus from to 0 false ∷ []) }
    ensures { Wrote row.old q (plus from to 0 false ∷ []) row.new result }
{
    let demand = constraints::not_after(from, to);
    put(row, q, demand)
}

// Writes the partner of the start demand of clock j, where the variant has one.
#[tactic(auto, using(crate::specs::Writing::wrote_none))]
fn put_partner(row: &mut [i64], q: usize, start: Start, total: usize, j: usize) -> usize
    requires { (total ≤ 1024) × (0 < j) × (j ≤ 6) × Fits row.old q (map (moved total) (starts_of start j)) }
    ensures { Wrote row.old q (map (moved total) (starts_of start j)) row.new result }
{
    match constraints::partner_of(start, total, j) {
        Partner::One(d) => put(row, q, d),
        Partner::None => q,
    }
}

// Writes the start demands of the clocks, each followed by its partner.
#[tactic(auto, using(crate::specs::Pieces::start_fits, crate::specs::Pieces::starts_all, crate::specs::Pieces::starts_end, crate::specs::Writing::left_done))]
pub fn put_starts(row: &mut [i64], q: usize, start: Start, clocks: usize, total: usize)
    requires { (clocks ≤ 6) × (total ≤ 1024) × Fits row.old q (start_demands total (starts_of start) 1 clocks) }
    ensures { row.new ≡ sets row.old q (cells (start_demands total (starts_of start) 1 clocks)) }
{
    let mut p = q;
    for j in 1..clocks + 1 {
        p = put_not_after(row, p, 0, total + j);
        p = put_partner(row, p, start, total, j);
    }
}
