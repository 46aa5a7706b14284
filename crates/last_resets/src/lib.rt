// The last resets of the clocks at each step of the rounds, from their distances: how many steps ago in rounds without end.
#![tactic(auto)]

ghost use Rattle.std.specs.Prelude.{◌≡◌, ◌+◌, ◌%◌, ◌≤◌, ◌<◌, length, replicate};
ghost use Rattle.table.specs.Step.{Good};
ghost use Rattle.table.specs.declared.Table.{Table};
ghost use Rattle.last_resets.specs.Since.{one_more};
ghost use Rattle.last_resets.specs.Distance.{last_of, distances_of};
ghost use Rattle.last_resets.specs.Carried.{carried, Small};
ghost use Rattle.last_resets.specs.Walking.{preceding_of};

use constraints::following;

// The steps since the last reset, `n` before a step and this after it.
fn one_more(reset: bool, n: usize) -> usize
    requires { n ≤ 1000 }
    ensures { result ≡ one_more reset n }
{
    if reset {
        return 1;
    }
    if n == 0 { 0 } else { n + 1 }
}

// Carries `count` numbers of the row from one step on to the next.
#[tactic(auto, using(crate::specs::Carried::carried_more, crate::specs::Carried::carried_zero))]
fn carry(flags: &[bool; 119], from: usize, to: usize, count: usize, row: &mut [usize; 112])
    requires { (length flags.now ≡ 119) × (from + count ≤ 112) × (to + count ≤ 112) × Small 500 row.old }
    ensures { row.new ≡ carried flags.now from to row.old count }
{
    for n in 0..count {
        row[to + n] = one_more(flags[from + n], row[from + n]);
    }
}

// Puts the distances of all steps and clocks, that of step s and clock j at place 7 * s + j, into a row of zeros: carried on over two
// rounds. The table is told by its resets and how many steps it has.
pub fn put_distances(resets: &[bool; 119], steps: usize, row: &mut [usize; 112])
    requires { (length resets.now ≡ 119) × (0 < steps) × (steps ≤ 16) × (row.old ≡ replicate 112 0) }
    ensures { (t : Table) → Good t → t.resets ≡ resets.now → t.steps ≡ steps
        → row.new ≡ distances_of t }
{
    let last = 7 * steps - 7;
    carry(resets, 0, 7, last, row);
    carry(resets, last, 0, 7, row);
    carry(resets, 0, 7, last, row);
}

// The moment of the last reset of clock j when i of `total` steps are past, from its distance.
#[tactic(auto, using(crate::specs::Distance::last_none, crate::specs::Distance::last_reached, crate::specs::Distance::last_before))]
pub fn last_reset(distance: usize, total: usize, i: usize, j: usize) -> usize
    requires { (total ≤ 1024) × (i ≤ 1024) × (j ≤ 6) }
    ensures { result ≡ last_of distance total i j }
{
    if distance == 0 {
        return total + j;
    }
    if distance < i + 1 {
        return i + 1 - distance;
    }
    total + j
}

// The step of a round before step s.
pub fn preceding(s: usize, steps: usize) -> usize
    requires { 0 < steps }
    ensures { result ≡ preceding_of s steps }
{
    if s == 0 { steps - 1 } else { s - 1 }
}

// The step of its round that step `next` is, when step i is step s.
#[tactic(auto, using(crate::specs::Walking::following_mod))]
pub fn step_of(s: usize, i: usize, next: usize, steps: usize) -> usize
    requires { (0 < steps) × (steps ≤ 16) × (i < 1024) × (s ≡ i % steps) }
    ensures { result ≡ next % steps }
{
    if next == i + 1 {
        return following(s, steps);
    }
    next % steps
}

// The lower of two moments, where the stamp of the second is not below `since`; else the first.
fn lower(low: usize, z: usize, stamp: u64, since: u64) -> usize
    ensures { result ≤ low }
{
    if stamp < since { low } else { low.min(z) }
}

// The lowest of a moment and the last resets at step i whose stamp is not below `since`, where something was raised. It is step s of its
// round.
#[tactic(auto, using(crate::specs::Within::last_within))]
pub fn lowest(
    raised: bool,
    far: &[usize],
    clocks: usize,
    total: usize,
    s: usize,
    i: usize,
    stamp: &[u64],
    since: u64,
    low: usize,
) -> usize
    requires { (length far.now ≡ 112) × (clocks ≤ 6) × (total ≤ 1024) × (s < 16) × (i < total) × (total + clocks + 1 ≤ length stamp.now) }
    ensures { result ≤ low }
{
    if !raised {
        return low;
    }
    let mut found = low;
    for j in 1..clocks + 1 {
        let z = last_reset(far[7 * s + j], total, i, j);
        found = lower(found, z, stamp[z], since);
    }
    found
}

// Not before moment `top`, and step i's moment where that was raised or lowered.
pub fn later(top: usize, i: usize, hit: bool, total: usize) -> usize
    requires { (i < total) × (top ≤ total) }
    ensures { (top ≤ result) × (result ≤ total) }
{
    if hit { top.max(i + 1) } else { top }
}
