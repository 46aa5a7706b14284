// The checks of a pass over the difference constraints of k rounds: those that the variant of the start has, forth those that raise a
// later moment, back those that raise an earlier one, and those of all starts.
#![tactic(auto)]

ghost use Rattle.std.specs.Prelude.{◌≡◌, ◌≤◌, ◌%◌};
ghost use Rattle.runs.specs.Demand.{start_demands, any_starts, starts_of};
ghost use Rattle.constraints.specs.Partner.{partner_list};
ghost use Rattle.sweeps.specs.Order.{forth_of, upper_of, partners_from};
ghost use Rattle.paths.specs.State.{state};
ghost use Rattle.checks.specs.Checks.{Checkable, Checked};
ghost use Rattle.ways.specs.Forth.{Going};

use checks::{Sweep, check, check_side};
use constraints::{Partner, following, not_after, partner_of, partners};
use last_resets::preceding;
use runs::Start;

// How many checks a way home or out has for each step, if it is not to end early: twice as many as a pass can have.
pub const CHECKS: u64 = 26;

// The check of a partner, if it is one.
fn check_partner(
    partner: Partner,
    time: &mut [u64],
    parent: &mut [u64],
    stamp: &mut [u64],
    w: Sweep,
) -> Sweep
    requires { Checkable (partner_list partner) (state time.old parent.old stamp.old) w.stamp }
    ensures { Checked (partner_list partner) w.raised w.stamp
        (state time.old parent.old stamp.old)
        (state time.new parent.new stamp.new) result.raised result.stamp }
{
    match partner {
        Partner::One(d) => check(d, time, parent, stamp, w),
        Partner::None => w,
    }
}

// The checks of the partner of each clock, in a variant that has some.
pub fn check_partners(
    start: Start,
    total: usize,
    clocks: usize,
    time: &mut [u64],
    parent: &mut [u64],
    stamp: &mut [u64],
    w: Sweep,
) -> Sweep
    requires { (total ≤ 1024) × (clocks ≤ 6) × Checkable (partners_from total (starts_of start) 1 clocks)
        (state time.old parent.old stamp.old) w.stamp }
    ensures { Checked (partners_from total (starts_of start) 1 clocks) w.raised w.stamp
        (state time.old parent.old stamp.old)
        (state time.new parent.new stamp.new) result.raised result.stamp }
{
    if partners(start) == 0 {
        return w;
    }
    let mut swept = w;
    for clock in 1..clocks + 1 {
        let partner = partner_of(start, total, clock);
        swept = check_partner(partner, time, parent, stamp, swept);
    }
    swept
}

// The checks forth, from step to step: the order demand of a step, then its tightest guards from below. Step i is step s of its round.
pub fn forth(
    low: &[u64],
    far: &[usize],
    steps: usize,
    clocks: usize,
    total: usize,
    time: &mut [u64],
    parent: &mut [u64],
    stamp: &mut [u64],
    w: Sweep,
) -> Sweep
    requires { Going low.now far.now steps clocks total
        × Checkable (forth_of low.now far.now steps clocks total 0 total) (state time.old parent.old stamp.old)
        w.stamp }
    ensures { Checked (forth_of low.now far.now steps clocks total 0 total) w.raised w.stamp
        (state time.old parent.old stamp.old)
        (state time.new parent.new stamp.new) result.raised result.stamp }
{
    let mut swept = w;
    let mut s: usize = 0;
    for i in 0..total {
        let ordered = check(not_after(i + 1, i), time, parent, stamp, swept);
        swept = check_side(
            false, low, far, clocks, total, s, i, time, parent, stamp, ordered,
        );
        s = following(s, steps);
    }
    swept
}

// The checks back, from the last step to the first: the tightest guards of each from above. Step i is step s of its round.
pub fn back(
    up: &[u64],
    far: &[usize],
    steps: usize,
    clocks: usize,
    total: usize,
    time: &mut [u64],
    parent: &mut [u64],
    stamp: &mut [u64],
    w: Sweep,
) -> Sweep
    requires { Going up.now far.now steps clocks total × (total % steps ≡ 0)
        × Checkable (upper_of up.now far.now steps clocks total total) (state time.old parent.old stamp.old)
        w.stamp }
    ensures { Checked (upper_of up.now far.now steps clocks total total) w.raised w.stamp
        (state time.old parent.old stamp.old)
        (state time.new parent.new stamp.new) result.raised result.stamp }
{
    let mut swept = w;
    let mut s: usize = 0;
    for i in (0..total).rev() {
        s = preceding(s, steps);
        swept = check_side(
            true, up, far, clocks, total, s, i, time, parent, stamp, swept,
        );
    }
    swept
}

// The checks of the start demand of each clock.
pub fn check_starts(
    total: usize,
    clocks: usize,
    time: &mut [u64],
    parent: &mut [u64],
    stamp: &mut [u64],
    w: Sweep,
) -> Sweep
    requires { (total ≤ 1024) × (clocks ≤ 6) × Checkable (start_demands total any_starts 1 clocks)
        (state time.old parent.old stamp.old) w.stamp }
    ensures { Checked (start_demands total any_starts 1 clocks) w.raised w.stamp
        (state time.old parent.old stamp.old)
        (state time.new parent.new stamp.new) result.raised result.stamp }
{
    let mut swept = w;
    for j in 1..clocks + 1 {
        swept = check(not_after(0, total + j), time, parent, stamp, swept);
    }
    swept
}
