// The checks of tables that have guards between two clocks: back over all steps with these, and a way home forth over all steps, which
// returns wherever a step raises an earlier one.
#![tactic(auto)]

ghost use Rattle.std.specs.Prelude.{◌≡◌, ◌+◌, ◌%◌, ◌≤◌, ◌<◌, ◌^◌};
ghost use Rattle.leads.specs.Leads.{led_by, Leading};
ghost use Rattle.sweeps.specs.Order.{back_of};
ghost use Rattle.paths.specs.State.{state};
ghost use Rattle.checks.specs.Checks.{Checkable, Checked};
ghost use Rattle.checks.specs.Some.{Able};
ghost use Rattle.ways.specs.Forth.{Going};
ghost use Rattle.ways.specs.Steps.{Went};
ghost use Rattle.led_ways.specs.Home.{led_steps};

use checks::{Sweep, check, check_leads, check_side};
use constraints::not_after;
use last_resets::{lowest, preceding, step_of};

// How many checks a way home has for each step, if it is not to end early: twice as many as a step can have.
const CHECKS: u64 = 282;

// The checks back, from the last step to the first: the tightest guards of each from above, then those between two clocks. Step i is
// step s of its round.
pub fn back_led(
    up: &[u64],
    leads: &[u64],
    far: &[usize],
    steps: usize,
    clocks: usize,
    total: usize,
    time: &mut [u64],
    parent: &mut [u64],
    stamp: &mut [u64],
    w: Sweep,
) -> Sweep
    requires { Going up.now far.now steps clocks total × Leading leads.now steps × (total % steps ≡ 0)
        × Checkable (back_of up.now (led_by leads.now) far.now steps clocks total total) (state time.old parent.old stamp.old)
        w.stamp }
    ensures { Checked (back_of up.now (led_by leads.now) far.now steps clocks total total) w.raised w.stamp
        (state time.old parent.old stamp.old)
        (state time.new parent.new stamp.new) result.raised result.stamp }
{
    let mut swept = w;
    let mut s: usize = 0;
    for i in (0..total).rev() {
        s = preceding(s, steps);
        let sided = check_side(
            true, up, far, clocks, total, s, i, time, parent, stamp, swept,
        );
        swept = check_leads(leads, far, total, s, i, time, parent, stamp, sided);
    }
    swept
}

// How far a way has come: the step to go on with, and the stamp of the next check.
#[derive(Clone, Copy)]
struct Way {
    next: usize,
    stamp: u64,
}

// The checks of step i, which is step s of its round: its order demand, its tightest guards from below and from above, and those between
// two clocks. The way goes on with the step after the lowest moment that the last two raise, or else with the next step.
fn led_step(
    low: &[u64],
    up: &[u64],
    leads: &[u64],
    far: &[usize],
    steps: usize,
    clocks: usize,
    total: usize,
    s: usize,
    i: usize,
    time: &mut [u64],
    parent: &mut [u64],
    stamp: &mut [u64],
    q: u64,
) -> Way
    requires { Going low.now far.now steps clocks total × Going up.now far.now steps clocks total × Leading leads.now steps × (i < total) × (s ≡ i % steps) × (q ≤ 2 ^ 37)
        × Able (total + clocks + 1) (led_steps low.now up.now leads.now far.now steps clocks total) (state time.old parent.old stamp.old) q }
    ensures { Went (led_steps low.now up.now leads.now far.now steps clocks total) 141 q
        (state time.old parent.old stamp.old)
        (state time.new parent.new stamp.new) result.stamp × (q < result.stamp) }
{
    let begun = Sweep {
        raised: false,
        stamp: q,
    };
    let ordered = check(not_after(i + 1, i), time, parent, stamp, begun);
    let lowered = check_side(
        false, low, far, clocks, total, s, i, time, parent, stamp, ordered,
    );
    let turned = Sweep {
        raised: false,
        stamp: lowered.stamp,
    };
    let sided = check_side(
        true, up, far, clocks, total, s, i, time, parent, stamp, turned,
    );
    let swept = check_leads(leads, far, total, s, i, time, parent, stamp, sided);
    let next = lowest(
        swept.raised,
        far,
        clocks,
        total,
        s,
        i,
        stamp,
        lowered.stamp,
        i + 1,
    );
    Way {
        next,
        stamp: swept.stamp,
    }
}

// A way home over all steps. Where there are steps that it raises again and again it ends early, so that a pass is made before the next
// way. The answer is the stamp of the next check.
pub fn home_led(
    low: &[u64],
    up: &[u64],
    leads: &[u64],
    far: &[usize],
    steps: usize,
    clocks: usize,
    total: usize,
    time: &mut [u64],
    parent: &mut [u64],
    stamp: &mut [u64],
    q: u64,
) -> u64
    requires { Going low.now far.now steps clocks total × Going up.now far.now steps clocks total × Leading leads.now steps × (q ≤ 2 ^ 36)
        × Able (total + clocks + 1) (led_steps low.now up.now leads.now far.now steps clocks total) (state time.old parent.old stamp.old) q }
    ensures { Went (led_steps low.now up.now leads.now far.now steps clocks total) (2 ^ 19) q
        (state time.old parent.old stamp.old)
        (state time.new parent.new stamp.new) result }
{
    let last = q + CHECKS * total as u64;
    let mut i: usize = 0;
    let mut s: usize = 0;
    let mut next = q;
    while i < total {
        if last <= next {
            return next;
        }
        let come = led_step(
            low, up, leads, far, steps, clocks, total, s, i, time, parent, stamp, next,
        );
        s = step_of(s, i, come.next, steps);
        i = come.next;
        next = come.stamp;
    }
    next
}
