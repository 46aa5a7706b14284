// The difference constraints of k rounds, checked pass after pass over lent times, with ways home and out between the passes where a few
// are not enough.
#![tactic(auto)]

ghost use Rattle.std.specs.Prelude.{◌+◌, ◌≤◌, ◌^◌};
ghost use Rattle.leads.specs.Leads.{led_by, Leading};
ghost use Rattle.sweeps.specs.Order.{back_of};
ghost use Rattle.paths.specs.State.{state};
ghost use Rattle.checks.specs.Checks.{Checkable, Checked};
ghost use Rattle.checks.specs.Some.{Able};
ghost use Rattle.ways.specs.Forth.{Going};
ghost use Rattle.led_ways.specs.Home.{led_steps};
ghost use Rattle.relaxing.specs.Rows.{rows, moments, constraints_of, Tells};
ghost use Rattle.relaxing.specs.Pass.{Passable, Swept, Turning};
ghost use Rattle.relaxing.specs.Passes.{Ready, Ended};
ghost use Rattle.relaxing.specs.Ending.{Approached};

use checks::Sweep;
use homing::home;
use leads::any_leads;
use leaving::out;
use led_ways::{back_led, home_led};
use paths::{fill, find_cycle};
use runs::Start;
use ways::{back, check_partners, check_starts, forth};

// How many passes are made before the first way, and how many before passes go on alone.
const PLAIN: usize = 3;

const TRIES: usize = 16;

// The checks back over all steps, with guards between two clocks where `led` says that there are any.
fn turn_back(
    led: bool,
    up: &[u64],
    leads: &[u64],
    far: &[usize],
    steps: usize,
    clocks: usize,
    total: usize,
    time: &mut [u64],
    parent: &mut [u64],
    stamp: &mut [u64],
    w: Sweep,
) -> Sweep
    requires { Turning led up.now leads.now far.now steps clocks total
        × Checkable (back_of up.now (led_by leads.now) far.now steps clocks total total) (state time.old parent.old stamp.old) w.stamp }
    ensures { Checked (back_of up.now (led_by leads.now) far.now steps clocks total total) w.raised w.stamp
        (state time.old parent.old stamp.old)
        (state time.new parent.new stamp.new) result.raised result.stamp }
{
    if led {
        return back_led(up, leads, far, steps, clocks, total, time, parent, stamp, w);
    }
    back(up, far, steps, clocks, total, time, parent, stamp, w)
}

// A check of each demand, the first with the stamp q: the partners, forth, then back and the starts. Whether the way back has raised a
// time; if not, all demands hold, since the partners and the way forth leave their own satisfied.
fn pass(
    led: bool,
    low: &[u64],
    up: &[u64],
    leads: &[u64],
    far: &[usize],
    start: Start,
    steps: usize,
    clocks: usize,
    total: usize,
    time: &mut [u64],
    parent: &mut [u64],
    stamp: &mut [u64],
    q: u64,
) -> Sweep
    requires { Passable (rows low.now up.now leads.now far.now start steps clocks total) (state time.old parent.old stamp.old) q
        × Tells led (rows low.now up.now leads.now far.now start steps clocks total) }
    ensures { Swept (rows low.now up.now leads.now far.now start steps clocks total) q
        (state time.old parent.old stamp.old)
        (state time.new parent.new stamp.new) result.raised result.stamp }
{
    let begun = Sweep {
        raised: false,
        stamp: q,
    };
    let started = check_partners(start, total, clocks, time, parent, stamp, begun);
    let gone = forth(low, far, steps, clocks, total, time, parent, stamp, started);
    let turned = Sweep {
        raised: false,
        stamp: gone.stamp,
    };
    let come = turn_back(
        led, up, leads, far, steps, clocks, total, time, parent, stamp, turned,
    );
    check_starts(total, clocks, time, parent, stamp, come)
}

// What comes before a pass of a table with guards between two clocks, when m are made: nothing before the first, then a way home with
// these. Before the first of those that go on alone the stamps are taken away after it. The answer is the stamp of the next check.
fn approach_led(
    m: usize,
    low: &[u64],
    up: &[u64],
    leads: &[u64],
    far: &[usize],
    steps: usize,
    clocks: usize,
    total: usize,
    time: &mut [u64],
    parent: &mut [u64],
    stamp: &mut [u64],
    q: u64,
) -> u64
    requires { Going low.now far.now steps clocks total × Going up.now far.now steps clocks total × Leading leads.now steps × (q ≤ 2 ^ 36) × (m ≤ 16)
        × Able (total + clocks + 1) (led_steps low.now up.now leads.now far.now steps clocks total) (state time.old parent.old stamp.old) q }
    ensures { Approached (total + clocks + 1) (led_steps low.now up.now leads.now far.now steps clocks total) m q
        (state time.old parent.old stamp.old)
        (state time.new parent.new stamp.new) result }
{
    if m == 0 {
        return q;
    }
    let near = home_led(
        low, up, leads, far, steps, clocks, total, time, parent, stamp, q,
    );
    if m < TRIES {
        return near;
    }
    fill(stamp, total + clocks + 1, 0);
    1
}

// What comes before a pass, when m are made: nothing before the first ones, then a way home or a way out, in turn. Before the first of
// those that go on alone the stamps are taken away, after both. The answer is the stamp of the next check.
fn approach(
    led: bool,
    m: usize,
    low: &[u64],
    up: &[u64],
    leads: &[u64],
    far: &[usize],
    steps: usize,
    clocks: usize,
    total: usize,
    time: &mut [u64],
    parent: &mut [u64],
    stamp: &mut [u64],
    q: u64,
) -> u64
    requires { Going low.now far.now steps clocks total × Going up.now far.now steps clocks total × Leading leads.now steps × (q ≤ 2 ^ 36)
        × Able (total + clocks + 1) (led_steps low.now up.now leads.now far.now steps clocks total) (state time.old parent.old stamp.old) q }
    ensures { Approached (total + clocks + 1) (led_steps low.now up.now leads.now far.now steps clocks total) m q
        (state time.old parent.old stamp.old)
        (state time.new parent.new stamp.new) result }
{
    if TRIES < m {
        return q;
    }
    if led {
        return approach_led(
            m, low, up, leads, far, steps, clocks, total, time, parent, stamp, q,
        );
    }
    if m < PLAIN {
        return q;
    }
    if m == TRIES {
        let near = home(low, up, far, steps, clocks, total, time, parent, stamp, q);
        let last = out(
            low, up, far, steps, clocks, total, time, parent, stamp, near,
        );
        fill(stamp, total + clocks + 1, 0);
        return 1;
    }
    if m % 2 == 0 {
        return out(low, up, far, steps, clocks, total, time, parent, stamp, q);
    }
    home(low, up, far, steps, clocks, total, time, parent, stamp, q)
}

// Passes from the start values, until one raises nothing on the way back, or there is a cycle of parents: a vertex on it, or else the
// number of moments. Of the passes that go on alone N are enough for N moments.
pub fn passes(
    low: &[u64],
    up: &[u64],
    leads: &[u64],
    far: &[usize],
    start: Start,
    steps: usize,
    clocks: usize,
    total: usize,
    time: &mut [u64],
    parent: &mut [u64],
    stamp: &mut [u64],
    marks: &mut [u64],
) -> usize
    requires { Ready (rows low.now up.now leads.now far.now start steps clocks total) (state time.old parent.old stamp.old) marks.old }
    ensures { Ended (moments (rows low.now up.now leads.now far.now start steps clocks total))
        (constraints_of (rows low.now up.now leads.now far.now start steps clocks total))
        (state time.old parent.old stamp.old)
        (state time.new parent.new stamp.new) result }
{
    let n = total + clocks + 1;
    let led = any_leads(leads, steps);
    let mut q: u64 = 1;
    for m in 0..n + TRIES {
        let near = approach(
            led, m, low, up, leads, far, steps, clocks, total, time, parent, stamp, q,
        );
        let swept = pass(
            led, low, up, leads, far, start, steps, clocks, total, time, parent, stamp, near,
        );
        if !swept.raised {
            return n;
        }
        let u = find_cycle(parent, stamp, marks, n);
        if u < n {
            return u;
        }
        q = swept.stamp;
    }
    n
}
