// A way home over the steps of k rounds: forth step by step, and wherever a step's guards from above raise an earlier step, back at
// once from there and on again after it.
#![tactic(auto)]

ghost use Rattle.std.specs.Prelude.{◌≡◌, ◌+◌, ◌*◌, ◌%◌, ◌≤◌, ◌<◌, ◌^◌};
ghost use Rattle.sweeps.specs.Order.{upper_of};
ghost use Rattle.paths.specs.State.{state};
ghost use Rattle.checks.specs.Some.{Able};
ghost use Rattle.ways.specs.Forth.{Going};
ghost use Rattle.ways.specs.Steps.{steps_of, Went};

use checks::{Sweep, check, check_side};
use constraints::{following, not_after};
use last_resets::{lowest, preceding, step_of};
use ways::CHECKS;

// How far a way has come: the step to go on with, and the stamp of the next check.
#[derive(Clone, Copy)]
struct Way {
    next: usize,
    stamp: u64,
}

// The checks back over the steps before `from`, from the last of them on: the tightest guards from above of each. They stop below the
// lowest step that they raise. Step `from` is step `first` of its round.
fn back_from(
    up: &[u64],
    far: &[usize],
    steps: usize,
    clocks: usize,
    total: usize,
    from: usize,
    first: usize,
    time: &mut [u64],
    parent: &mut [u64],
    stamp: &mut [u64],
    q: u64,
) -> Way
    requires { Going up.now far.now steps clocks total × (from ≤ total) × (first ≡ from % steps) × (q ≤ 2 ^ 37 + 2 ^ 20)
        × Able (total + clocks + 1) (upper_of up.now far.now steps clocks total total) (state time.old parent.old stamp.old) q }
    ensures { Went (upper_of up.now far.now steps clocks total total) (6 * from) q
        (state time.old parent.old stamp.old)
        (state time.new parent.new stamp.new) result.stamp × (result.next ≤ from) }
{
    let mut s = first;
    let mut low = from;
    let mut next = q;
    for i in (0..from).rev() {
        if i + 1 < low {
            break;
        }
        s = preceding(s, steps);
        let begun = Sweep {
            raised: false,
            stamp: next,
        };
        let swept = check_side(
            true, up, far, clocks, total, s, i, time, parent, stamp, begun,
        );
        low = lowest(swept.raised, far, clocks, total, s, i, stamp, next, low);
        next = swept.stamp;
    }
    Way {
        next: low,
        stamp: next,
    }
}

// The checks of step i forth, and those back from it. It is step s of its round.
fn home_step(
    low: &[u64],
    up: &[u64],
    far: &[usize],
    steps: usize,
    clocks: usize,
    total: usize,
    s: usize,
    i: usize,
    time: &mut [u64],
    parent: &mut [u64],
    stamp: &mut [u64],
    q: u64,
) -> Way
    requires { Going low.now far.now steps clocks total × Going up.now far.now steps clocks total × (i < total) × (s ≡ i % steps) × (q ≤ 2 ^ 37)
        × Able (total + clocks + 1) (steps_of low.now up.now far.now steps clocks total) (state time.old parent.old stamp.old) q }
    ensures { Went (steps_of low.now up.now far.now steps clocks total) 6151 q
        (state time.old parent.old stamp.old)
        (state time.new parent.new stamp.new) result.stamp × (q < result.stamp) × (result.next ≤ i + 1) }
{
    let begun = Sweep {
        raised: false,
        stamp: q,
    };
    let ordered = check(not_after(i + 1, i), time, parent, stamp, begun);
    let lowered = check_side(
        false, low, far, clocks, total, s, i, time, parent, stamp, ordered,
    );
    let after = following(s, steps);
    back_from(
        up,
        far,
        steps,
        clocks,
        total,
        i + 1,
        after,
        time,
        parent,
        stamp,
        lowered.stamp,
    )
}

// A way home over all steps. Where there are steps that it raises again and again it ends early, so that a pass is made before the next
// way. The answer is the stamp of the next check.
pub fn home(
    low: &[u64],
    up: &[u64],
    far: &[usize],
    steps: usize,
    clocks: usize,
    total: usize,
    time: &mut [u64],
    parent: &mut [u64],
    stamp: &mut [u64],
    q: u64,
) -> u64
    requires { Going low.now far.now steps clocks total × Going up.now far.now steps clocks total × (q ≤ 2 ^ 36)
        × Able (total + clocks + 1) (steps_of low.now up.now far.now steps clocks total) (state time.old parent.old stamp.old) q }
    ensures { Went (steps_of low.now up.now far.now steps clocks total) (2 ^ 16) q
        (state time.old parent.old stamp.old)
        (state time.new parent.new stamp.new) result }
{
    let last = q + CHECKS * total as u64;
    let mut i: usize = 0;
    let mut s: usize = 0;
    let mut next = q;
    while i < total {
        if last <= next {
            return next;
        }
        let come = home_step(
            low, up, far, steps, clocks, total, s, i, time, parent, stamp, next,
        );
        s = step_of(s, i, come.next, steps);
        i = come.next;
        next = come.stamp;
    }
    next
}
