// The count of rounds by doubling: effects of 1, 2, 4, .. rounds in the places of a lent row.
#![tactic(auto)]

ghost use Rattle.std.specs.Prelude.{◌≡◌, true, List, ◌↔◌, ◌+◌, ◌*◌, ◌<◌, ◌≤◌, ◌^◌, length};
ghost use Rattle.table.specs.Step.{Step};
ghost use Rattle.effects.specs.Starts.{starts_for};
ghost use Rattle.effects.specs.Whole.{Side};
ghost use Rattle.climbing.specs.LeftPart.{SameLine, SameLeft};
ghost use Rattle.climbing.specs.Climbing.{Reached};
ghost use Rattle.climbing.specs.Ways.{Climbs, Down};

use admitting::admits;
use joins::{join, keep};
use runs::Start;

// Where doubling ended: the highest place and its number of rounds, twice which have no run; or place 24, where every number
// has one. Runs are those from the starts that the variant allows. Where every number has one, the effect at the place `settled` has a
// left part that more rounds leave as it is.
#[derive(Clone, Copy)]
pub struct Top {
    pub place: usize,
    pub settled: usize,
    pub power: u64,
}

// Whether the left parts of the effect at a place and of the one in `out`, the bounds among their first `side` vertices, are
// the same.
fn same_left(row: &[u64], out: &[u64], place: usize, side: usize) -> bool
    requires { (length row.now ≡ 4900) × (length out.now ≡ 441) × (place < 25) × (side ≤ 7) }
    ensures { (result ≡ true) ↔ SameLeft side side (place * 196) row.now out.now }
{
    (0..side).all(|r| {
        let at = place * 196 + r * 14;
        let from = r * 21;
        row[at..at + side] == out[from..from + side]
    })
}

// From the effect of one round, at place 0, doubled as far as runs from an allowed start exist and the left part still changes: that
// of 2^i rounds comes to place i. The left part tells from where the rounds run: once it stays, they run without end.
pub fn up(row: &mut [u64], out: &mut [u64], left: &mut [u64], start: Start, side: usize) -> Top
    requires { (length row.old ≡ 4900) × (length out.old ≡ 441) × (length left.old ≡ 441) × Side side
        × ((τ : List Step) × Reached side (starts_for side start) τ 0 row.old) }
    ensures { Climbs side (starts_for side start) row.old row.new result.place result.settled result.power }
{
    let mut power: u64 = 1;
    for i in 0..24 {
        let twice = join(out, row, i, i, side);
        if !twice {
            return Top {
                place: i,
                settled: i,
                power,
            };
        }
        let same = same_left(row, out, i, side);
        if same {
            return Top {
                place: 24,
                settled: i,
                power,
            };
        }
        let admitted = admits(out, 0, 21, left, start, side);
        if !admitted {
            return Top {
                place: i,
                settled: i,
                power,
            };
        }
        keep(row, out, i + 1, side);
        power += power;
    }
    Top {
        place: 24,
        settled: 24,
        power,
    }
}

// The rounds counted, whose effect is at a place, and those at place i too where both together run from an allowed start: their
// number, and their effect at the place.
fn add(
    row: &mut [u64],
    out: &mut [u64],
    left: &mut [u64],
    start: Start,
    place: usize,
    i: usize,
    count: u64,
    power: u64,
    side: usize,
) -> u64
    requires { (length row.old ≡ 4900) × (length out.old ≡ 441) × (length left.old ≡ 441) × Side side × (i < place)
        × (place < 24) × (power ≡ 2 ^ i) × ((τ : List Step) × Down side (starts_for side start) τ place (i + 1) count row.old) }
    ensures { (τ : List Step) → Down side (starts_for side start) τ place (i + 1) count row.old
        → Down side (starts_for side start) τ place i result row.new }
{
    let more = join(out, row, place, i, side);
    if !more {
        return count;
    }
    let allowed = admits(out, 0, 21, left, start, side);
    if !allowed {
        return count;
    }
    keep(row, out, place, side);
    count + power
}

// From the highest place down: the smaller powers of two added where the sum still runs. The count.
pub fn down(
    row: &mut [u64],
    out: &mut [u64],
    left: &mut [u64],
    start: Start,
    place: usize,
    power: u64,
    side: usize,
) -> u64
    requires { (length row.old ≡ 4900) × (length out.old ≡ 441) × (length left.old ≡ 441) × Side side × (place < 24)
        × (power ≡ 2 ^ place) × ((τ : List Step) × Down side (starts_for side start) τ place place power row.old) }
    ensures { (τ : List Step) → Down side (starts_for side start) τ place place power row.old
        → Down side (starts_for side start) τ place 0 result row.new }
{
    let mut count = power;
    let mut half = power;
    for i in (0..place).rev() {
        half /= 2;
        count = add(row, out, left, start, place, i, count, half, side);
    }
    count
}
