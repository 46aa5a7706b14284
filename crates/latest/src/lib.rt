// The last moments of the steps of k rounds: bounds from above, lowered by checks of the demands until all of them hold.
#![tactic(auto)]

ghost use Rattle.std.specs.Prelude.{◌≡◌, ◌+◌, ◌-◌, ◌%◌, ◌≤◌, ◌<◌};
ghost use Rattle.sweeps.specs.Order.{upper_at};
ghost use Rattle.ways.specs.Forth.{Going};
ghost use Rattle.lowering.specs.Bounded.{Bounded};
ghost use Rattle.lowering.specs.Outcome.{Falling, Greatest};
ghost use Rattle.latest.specs.Steps.{forth_edges, back_edges, step_edges};
ghost use Rattle.latest.specs.Descent.{Descended};
ghost use Rattle.latest.specs.Ascending.{Stepped, Ascended};
ghost use Rattle.latest.specs.Glide.{Risen};

use bounding::{bound, bound_side};
use constraints::{following, not_after};
use last_resets::{later, preceding, step_of};

// No moment: there are at most so many.
pub const NEVER: usize = 1031;

// How far an ascent has come: whether it has lowered a bound, the step to go on with, and how many steps it may still go back.
#[derive(Clone, Copy)]
pub struct Way {
    pub hit: bool,
    pub next: usize,
    pub left: usize,
}

// The checks back over the steps before `from`, from the last of them on: the order demand of each, then its tightest guards from
// below. They stop at a moment below which nothing is lowered, neither by them nor, as the caller says with `floor`, before them. The
// answer is such a moment. Step `from` is step `first` of its round.
pub fn descend(
    low: &[u64],
    far: &[usize],
    steps: usize,
    clocks: usize,
    total: usize,
    from: usize,
    first: usize,
    floor: usize,
    late: &mut [u64],
) -> usize
    requires { Going low.now far.now steps clocks total × (from ≤ total) × (first ≡ from % steps)
        × Bounded (total + clocks + 1) (forth_edges low.now far.now steps clocks total) late.old }
    ensures { Descended low.now far.now steps clocks total from floor
        late.old late.new result }
{
    let mut s = first;
    let mut lowest = floor;
    for i in (0..from).rev() {
        if i + 1 < lowest {
            return lowest;
        }
        s = preceding(s, steps);
        let ordered = bound(not_after(i + 1, i), late, lowest);
        lowest = bound_side(false, low, far, clocks, total, s, i, late, ordered);
    }
    lowest
}

// The checks of step i forth, its tightest guards from above. Where they lower it, and steps are left to go back, the checks back from
// it follow at once, and the ascent goes on after the lowest moment that they lower. It is step s of its round.
fn ascend_step(
    low: &[u64],
    up: &[u64],
    far: &[usize],
    steps: usize,
    clocks: usize,
    total: usize,
    s: usize,
    i: usize,
    left: usize,
    late: &mut [u64],
    hit: bool,
) -> Way
    requires { Going low.now far.now steps clocks total × Going up.now far.now steps clocks total × (i < total)
        × (s ≡ i % steps) × Bounded (total + clocks + 1) (step_edges low.now up.now far.now steps clocks total) late.old }
    ensures { Stepped low.now far.now steps clocks total
        (upper_at up.now far.now steps clocks total) (back_edges up.now far.now steps clocks total) i hit
        late.old late.new result.hit result.next }
{
    let lowest = bound_side(true, up, far, clocks, total, s, i, late, NEVER);
    if NEVER <= lowest {
        return Way {
            hit,
            next: i + 1,
            left,
        };
    }
    if left == 0 {
        return Way {
            hit: true,
            next: i + 1,
            left,
        };
    }
    let after = following(s, steps);
    let next = descend(low, far, steps, clocks, total, i + 1, after, i + 1, late);
    Way {
        hit: true,
        next,
        left: left.saturating_sub(i + 2 - next),
    }
}

// The checks forth over all steps, with so many steps to go back: whether they have lowered a bound.
fn ascend(
    low: &[u64],
    up: &[u64],
    far: &[usize],
    steps: usize,
    clocks: usize,
    total: usize,
    left: usize,
    late: &mut [u64],
) -> bool
    requires { Going low.now far.now steps clocks total × Going up.now far.now steps clocks total
        × Bounded (total + clocks + 1) (step_edges low.now up.now far.now steps clocks total) late.old }
    ensures { Ascended low.now far.now steps clocks total (back_edges up.now far.now steps clocks total)
        late.old late.new result }
{
    let mut way = Way {
        hit: false,
        next: 0,
        left,
    };
    let mut i: usize = 0;
    let mut s: usize = 0;
    while i < total {
        way = ascend_step(
            low, up, far, steps, clocks, total, s, i, way.left, late, way.hit,
        );
        s = step_of(s, i, way.next, steps);
        i = way.next;
    }
    way.hit
}

// The checks forth over the steps from `from` on: the tightest guards from above of each. They stop a round after the last moment that
// they lower or that, as the caller says with `last`, was lowered before them. The answer is such a moment. Step `from` is step `first`
// of its round.
fn rise(
    up: &[u64],
    far: &[usize],
    steps: usize,
    clocks: usize,
    total: usize,
    from: usize,
    first: usize,
    last: usize,
    late: &mut [u64],
) -> usize
    requires { Going up.now far.now steps clocks total × (last ≤ total) × (first ≡ from % steps)
        × Bounded (total + clocks + 1) (back_edges up.now far.now steps clocks total) late.old }
    ensures { Risen up.now far.now steps clocks total last late.old late.new result }
{
    let mut s = first;
    let mut top = last;
    for i in from..total {
        if top + steps <= i {
            return top;
        }
        let lowest = bound_side(true, up, far, clocks, total, s, i, late, NEVER);
        top = later(top, i, lowest < NEVER, total);
        s = following(s, steps);
    }
    top
}

// How far a glide has come: the moment to go on with, and how many steps it may still go.
#[derive(Clone, Copy)]
struct Gone {
    next: usize,
    left: usize,
}

// The checks of step i back: its order demand and its tightest guards from below. Where they lower an earlier moment, the checks forth
// from there follow at once, and the glide goes on with the last moment that they lower. It is step s of its round.
fn glide_step(
    low: &[u64],
    up: &[u64],
    far: &[usize],
    steps: usize,
    clocks: usize,
    total: usize,
    s: usize,
    i: usize,
    left: usize,
    late: &mut [u64],
) -> Gone
    requires { Going low.now far.now steps clocks total × Going up.now far.now steps clocks total × (i < total)
        × (s ≡ i % steps) × (0 < left)
        × Bounded (total + clocks + 1) (step_edges low.now up.now far.now steps clocks total) late.old }
    ensures { Falling (total + clocks + 1) (step_edges low.now up.now far.now steps clocks total)
        late.old late.new × (result.next ≤ total) × (result.left < left) }
{
    let ordered = bound(not_after(i + 1, i), late, NEVER);
    let lowest = bound_side(false, low, far, clocks, total, s, i, late, ordered);
    if i < lowest {
        return Gone {
            next: i,
            left: left - 1,
        };
    }
    let first = lowest % steps;
    let top = rise(up, far, steps, clocks, total, lowest, first, i, late);
    Gone {
        next: top,
        left: left.saturating_sub(top + steps + 1 - lowest),
    }
}

// A glide over all steps, with so many steps to go: back step by step, and forth at once from each moment that is lowered.
fn glide(
    low: &[u64],
    up: &[u64],
    far: &[usize],
    steps: usize,
    clocks: usize,
    total: usize,
    most: usize,
    late: &mut [u64],
)
    requires { Going low.now far.now steps clocks total × Going up.now far.now steps clocks total
        × Bounded (total + clocks + 1) (step_edges low.now up.now far.now steps clocks total) late.old }
    ensures { Falling (total + clocks + 1) (step_edges low.now up.now far.now steps clocks total)
        late.old late.new }
{
    let mut i = total;
    let mut left = most;
    while 0 < i {
        if left == 0 {
            return;
        }
        let s = (i - 1) % steps;
        let way = glide_step(low, up, far, steps, clocks, total, s, i - 1, left, late);
        i = way.next;
        left = way.left;
    }
}

// Lowers the bounds until all demands of the steps hold: once forth over all steps, then back and forth in turn, until nothing is
// lowered on the way forth. After the first of them, a way forth may go back four times as many steps as there are; and a glide of up to
// sixteen times as many goes before each turn but the first.
pub fn settle(
    low: &[u64],
    up: &[u64],
    far: &[usize],
    steps: usize,
    clocks: usize,
    total: usize,
    late: &mut [u64],
)
    requires { Going low.now far.now steps clocks total × Going up.now far.now steps clocks total × (total % steps ≡ 0)
        × Bounded (total + clocks + 1) (step_edges low.now up.now far.now steps clocks total) late.old }
    ensures { Greatest (total + clocks + 1) (step_edges low.now up.now far.now steps clocks total)
        late.old late.new }
{
    ascend(low, up, far, steps, clocks, total, 0, late);
    let mut hit = true;
    let mut most: usize = 0;
    while hit {
        glide(low, up, far, steps, clocks, total, most, late);
        descend(low, far, steps, clocks, total, total, 0, 0, late);
        hit = ascend(low, up, far, steps, clocks, total, 4 * total, late);
        most = 16 * total;
    }
}
