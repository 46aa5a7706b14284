// A way out over the steps of k rounds: once forth, then back step by step, and wherever a step's guards from above raise an earlier step, forth at once
// from there, and back again from the last step raised.
#![tactic(auto)]

ghost use Rattle.std.specs.Prelude.{◌≡◌, ◌+◌, ◌*◌, ◌%◌, ◌≤◌, ◌<◌, ◌^◌};
ghost use Rattle.sweeps.specs.Order.{forth_of};
ghost use Rattle.paths.specs.State.{state};
ghost use Rattle.checks.specs.Some.{Able};
ghost use Rattle.ways.specs.Forth.{Going};
ghost use Rattle.ways.specs.Steps.{steps_of, Went};

use checks::{Sweep, check, check_side};
use constraints::{following, not_after};
use last_resets::{later, lowest};
use ways::CHECKS;

// How far a way has come: the moment to go on with, and the stamp of the next check.
#[derive(Clone, Copy)]
struct Way {
    next: usize,
    stamp: u64,
}

// The checks forth over the steps from `from` on: the order demand of each, then its tightest guards from below. They stop a round after
// the last moment that they raise or that, as the caller says with `last`, comes before them. The answer is such a moment. Step `from` is
// step `first` of its round.
fn forth_from(
    low: &[u64],
    far: &[usize],
    steps: usize,
    clocks: usize,
    total: usize,
    from: usize,
    first: usize,
    last: usize,
    time: &mut [u64],
    parent: &mut [u64],
    stamp: &mut [u64],
    q: u64,
) -> Way
    requires { Going low.now far.now steps clocks total × (from ≤ total) × (last ≤ total) × (first ≡ from % steps) × (q ≤ 2 ^ 37 + 2 ^ 20)
        × Able (total + clocks + 1) (forth_of low.now far.now steps clocks total 0 total) (state time.old parent.old stamp.old) q }
    ensures { Went (forth_of low.now far.now steps clocks total 0 total) (7 * total) q
        (state time.old parent.old stamp.old)
        (state time.new parent.new stamp.new) result.stamp × (result.next ≤ total) }
{
    let mut s = first;
    let mut top = last;
    let mut next = q;
    for i in from..total {
        if top + steps <= i {
            break;
        }
        let begun = Sweep {
            raised: false,
            stamp: next,
        };
        let ordered = check(not_after(i + 1, i), time, parent, stamp, begun);
        let swept = check_side(
            false, low, far, clocks, total, s, i, time, parent, stamp, ordered,
        );
        top = later(top, i, swept.raised, total);
        next = swept.stamp;
        s = following(s, steps);
    }
    Way {
        next: top,
        stamp: next,
    }
}

// The checks of step i back, its order demand and its tightest guards from above. Where they raise an earlier step, those forth from
// there follow at once. It is step s of its round.
fn out_step(
    low: &[u64],
    up: &[u64],
    far: &[usize],
    steps: usize,
    clocks: usize,
    total: usize,
    s: usize,
    i: usize,
    time: &mut [u64],
    parent: &mut [u64],
    stamp: &mut [u64],
    q: u64,
) -> Way
    requires { Going low.now far.now steps clocks total × Going up.now far.now steps clocks total × (i < total) × (s ≡ i % steps) × (q ≤ 2 ^ 37)
        × Able (total + clocks + 1) (steps_of low.now up.now far.now steps clocks total) (state time.old parent.old stamp.old) q }
    ensures { Went (steps_of low.now up.now far.now steps clocks total) 7175 q
        (state time.old parent.old stamp.old)
        (state time.new parent.new stamp.new) result.stamp × (q < result.stamp) × (result.next ≤ total) }
{
    let begun = Sweep {
        raised: false,
        stamp: q,
    };
    let ordered = check(not_after(i + 1, i), time, parent, stamp, begun);
    let turned = Sweep {
        raised: false,
        stamp: ordered.stamp,
    };
    let swept = check_side(
        true, up, far, clocks, total, s, i, time, parent, stamp, turned,
    );
    let found = lowest(
        swept.raised,
        far,
        clocks,
        total,
        s,
        i,
        stamp,
        ordered.stamp,
        i + 1,
    );
    if i < found {
        return Way {
            next: i,
            stamp: swept.stamp,
        };
    }
    let first = found % steps;
    forth_from(
        low,
        far,
        steps,
        clocks,
        total,
        found,
        first,
        i,
        time,
        parent,
        stamp,
        swept.stamp,
    )
}

// A way out over all steps, after one forth over them. Where there are steps that it raises again and again it ends early, so that a
// pass is made before the next way. The answer is the stamp of the next check.
pub fn out(
    low: &[u64],
    up: &[u64],
    far: &[usize],
    steps: usize,
    clocks: usize,
    total: usize,
    time: &mut [u64],
    parent: &mut [u64],
    stamp: &mut [u64],
    q: u64,
) -> u64
    requires { Going low.now far.now steps clocks total × Going up.now far.now steps clocks total × (q ≤ 2 ^ 36 + 2 ^ 16)
        × Able (total + clocks + 1) (steps_of low.now up.now far.now steps clocks total) (state time.old parent.old stamp.old) q }
    ensures { Went (steps_of low.now up.now far.now steps clocks total) (2 ^ 16) q
        (state time.old parent.old stamp.old)
        (state time.new parent.new stamp.new) result }
{
    let gone = forth_from(
        low, far, steps, clocks, total, 0, 0, total, time, parent, stamp, q,
    );
    let mut next = gone.stamp;
    let last = next + CHECKS * total as u64;
    let mut i = total;
    while 0 < i {
        if last <= next {
            return next;
        }
        let s = (i - 1) % steps;
        let come = out_step(
            low,
            up,
            far,
            steps,
            clocks,
            total,
            s,
            i - 1,
            time,
            parent,
            stamp,
            next,
        );
        i = come.next;
        next = come.stamp;
    }
    next
}
