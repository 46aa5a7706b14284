// Checks of demands in parts as difference constraints, over lent times: of one demand, of a key, and of one side of a step.
#![tactic(auto)]

ghost use Rattle.std.specs.Prelude.{◌≡◌, ◌||◌, [], ◌∷◌, length, ◌+◌, ◌≤◌, ◌<◌};
ghost use Rattle.table.specs.Step.{up_of, down_of};
ghost use Rattle.runs.specs.Demand.{guard_demands};
ghost use Rattle.constraints.specs.Pieces.{guard_demand};
ghost use Rattle.scaling.specs.Constants.{with_constant};
ghost use Rattle.sides.specs.Sides.{none};
ghost use Rattle.sides.specs.Tight.{key_demand, key_demands};
ghost use Rattle.last_resets.specs.Distance.{last_of};
ghost use Rattle.leads.specs.Leads.{led_by};
ghost use Rattle.sweeps.specs.Order.{side_of, leads_at};
ghost use Rattle.paths.specs.State.{state};
ghost use Rattle.checks.specs.Checks.{Checkable, Checked};
ghost use Rattle.checks.specs.SideChecks.{Placed};
ghost use Rattle.checks.specs.Led.{lasts_at, lead_demands, Led};

use constraints::{bit_of, guard_demand, twice};
use last_resets::last_reset;
use leads::guard_at;
use paths::relax;
use runs::Demand;
use sides::NONE;
use sweeps::{lower_demand, upper_demand};
use table::Guard;

// What checks give: whether one has raised a time, and the stamp of the next check.
#[derive(Clone, Copy)]
pub struct Sweep {
    pub raised: bool,
    pub stamp: u64,
}

// A check of a demand, after checks that gave w.
pub fn check(d: Demand, time: &mut [u64], parent: &mut [u64], stamp: &mut [u64], w: Sweep) -> Sweep
    requires { Checkable (d ∷ []) (state time.old parent.old stamp.old) w.stamp }
    ensures { Checked (d ∷ []) w.raised w.stamp
        (state time.old parent.old stamp.old)
        (state time.new parent.new stamp.new) result.raised result.stamp }
{
    let gain = d.down + bit_of(d.strict);
    let up = relax(time, parent, stamp, d.from, d.to, gain, d.up, w.stamp);
    Sweep {
        raised: w.raised || up,
        stamp: w.stamp + 1,
    }
}

// The demand of a key on a side, at moment i on a clock last reset at moment z.
pub fn key_demand(upper: bool, key: u64, z: usize, i: usize) -> Demand
    requires { key < none }
    ensures { result ≡ key_demand upper key z i }
{
    if upper {
        return upper_demand(key, z, i);
    }
    lower_demand(key, z, i)
}

// The check of the demand of clock j's key at step i of `total`, if it has one.
fn check_key(
    upper: bool,
    key: u64,
    distance: usize,
    total: usize,
    i: usize,
    j: usize,
    time: &mut [u64],
    parent: &mut [u64],
    stamp: &mut [u64],
    w: Sweep,
) -> Sweep
    requires { (total ≤ 1024) × (i ≤ 1024) × (j ≤ 6)
        × Checkable (key_demands upper key (last_of distance total i j) (i + 1)) (state time.old parent.old stamp.old)
        w.stamp }
    ensures { Checked (key_demands upper key (last_of distance total i j) (i + 1)) w.raised w.stamp
        (state time.old parent.old stamp.old)
        (state time.new parent.new stamp.new) result.raised result.stamp }
{
    if NONE <= key {
        return w;
    }
    let z = last_reset(distance, total, i, j);
    check(key_demand(upper, key, z, i + 1), time, parent, stamp, w)
}

// The first or the second demand of a guard between two clocks, with its constant in parts, whose last resets were at moments z and e.
pub fn lead_demand(g: Guard, constant: u64, z: usize, e: usize, second: bool) -> Demand
    ensures { result ≡ guard_demand g.relation (up_of (with_constant constant g)) (down_of (with_constant constant g)) z e second }
{
    let relation = g.relation;
    if g.minus {
        return guard_demand(relation, 0, constant, z, e, second);
    }
    guard_demand(relation, constant, 0, z, e, second)
}

// The checks of the one or two demands of a guard between two clocks, whose last resets were at moments z and e.
fn check_pair(
    g: Guard,
    constant: u64,
    z: usize,
    e: usize,
    time: &mut [u64],
    parent: &mut [u64],
    stamp: &mut [u64],
    w: Sweep,
) -> Sweep
    requires { Checkable (guard_demands g.relation (up_of (with_constant constant g)) (down_of (with_constant constant g)) z e)
        (state time.old parent.old stamp.old) w.stamp }
    ensures { Checked (guard_demands g.relation (up_of (with_constant constant g)) (down_of (with_constant constant g)) z e)
        w.raised w.stamp
        (state time.old parent.old stamp.old)
        (state time.new parent.new stamp.new) result.raised result.stamp }
{
    let relation = g.relation;
    let first = lead_demand(g, constant, z, e, false);
    let swept = check(first, time, parent, stamp, w);
    if !twice(relation) {
        return swept;
    }
    let second = lead_demand(g, constant, z, e, true);
    check(second, time, parent, stamp, swept)
}

// The checks of a guard of the row at step i of `total`, which is step s of its round, if it has a second clock.
fn check_lead(
    code: u64,
    far: &[usize],
    total: usize,
    s: usize,
    i: usize,
    time: &mut [u64],
    parent: &mut [u64],
    stamp: &mut [u64],
    w: Sweep,
) -> Sweep
    requires { (length far.now ≡ 112) × (total ≤ 1024) × (s < 16) × (i ≤ 1024)
        × Checkable (lead_demands code (i + 1) (lasts_at far.now total s i)) (state time.old parent.old stamp.old) w.stamp }
    ensures { Checked (lead_demands code (i + 1) (lasts_at far.now total s i)) w.raised w.stamp
        (state time.old parent.old stamp.old)
        (state time.new parent.new stamp.new) result.raised result.stamp }
{
    let b = (code / 7 % 7) as usize;
    if b == 0 {
        return w;
    }
    let a = (code % 7) as usize;
    let z = last_reset(far[7 * s + a], total, i, a);
    let e = last_reset(far[7 * s + b], total, i, b);
    let g = guard_at(code);
    check_pair(g, code / 490, z, e, time, parent, stamp, w)
}

// The checks of the guards between two clocks of step i of `total`, which is step s of its round, as the row tells them.
pub fn check_leads(
    leads: &[u64],
    far: &[usize],
    total: usize,
    s: usize,
    i: usize,
    time: &mut [u64],
    parent: &mut [u64],
    stamp: &mut [u64],
    w: Sweep,
) -> Sweep
    requires { Led leads.now far.now total s i
        × Checkable (leads_at (led_by leads.now) far.now total s i) (state time.old parent.old stamp.old) w.stamp }
    ensures { Checked (leads_at (led_by leads.now) far.now total s i) w.raised w.stamp
        (state time.old parent.old stamp.old)
        (state time.new parent.new stamp.new) result.raised result.stamp }
{
    let first = leads[s] as usize;
    let end = leads[s + 1] as usize;
    let mut swept = w;
    for k in first..end {
        swept = check_lead(leads[18 + k], far, total, s, i, time, parent, stamp, swept);
    }
    swept
}

// The checks of one side of step i of `total`, which is step s of its round, clock by clock.
pub fn check_side(
    upper: bool,
    keys: &[u64],
    far: &[usize],
    clocks: usize,
    total: usize,
    s: usize,
    i: usize,
    time: &mut [u64],
    parent: &mut [u64],
    stamp: &mut [u64],
    w: Sweep,
) -> Sweep
    requires { Placed keys.now far.now clocks total s i
        × Checkable (side_of upper keys.now far.now total s i 1 clocks) (state time.old parent.old stamp.old)
        w.stamp }
    ensures { Checked (side_of upper keys.now far.now total s i 1 clocks)
        w.raised w.stamp
        (state time.old parent.old stamp.old)
        (state time.new parent.new stamp.new) result.raised result.stamp }
{
    let mut swept = w;
    for j in 1..7 {
        if clocks < j {
            break;
        }
        let at = 7 * s + j;
        swept = check_key(
            upper, keys[at], far[at], total, i, j, time, parent, stamp, swept,
        );
    }
    swept
}
