// Checks of demands in parts as difference constraints, over lent bounds from above: of one demand, of a key, and of one side of a step.
#![tactic(auto)]

ghost use Rattle.std.specs.Prelude.{◌≡◌, [], ◌∷◌, ◌+◌, ◌*◌, ◌/◌, ◌≤◌, ◌<◌, length};
ghost use Rattle.table.specs.Step.{up_of, down_of};
ghost use Rattle.runs.specs.Demand.{guard_demands};
ghost use Rattle.scaling.specs.Constants.{with_constant};
ghost use Rattle.leads.specs.Leads.{led_by};
ghost use Rattle.sides.specs.Tight.{key_demands};
ghost use Rattle.last_resets.specs.Distance.{last_of};
ghost use Rattle.sweeps.specs.Order.{side_of, leads_at};
ghost use Rattle.checks.specs.SideChecks.{Placed};
ghost use Rattle.checks.specs.Led.{lasts_at, lead_demands, Led};
ghost use Rattle.lowering.specs.Lowered.{bounds};
ghost use Rattle.bounding.specs.Turns.{after_of, Able};

use checks::{key_demand, lead_demand};
use constraints::{bit_of, twice};
use last_resets::last_reset;
use leads::guard_at;
use lowering::lower;
use runs::Demand;
use sides::NONE;
use table::Guard;

// A check of a demand. `low` and the answer are as those of `lower`.
pub fn bound(d: Demand, late: &mut [u64], low: usize) -> usize
    requires { Able (d ∷ []) late.old }
    ensures { bounds late.new result ≡ after_of (d ∷ []) (bounds late.old low) }
{
    let gain = d.down + bit_of(d.strict);
    lower(late, d.from, d.to, gain, d.up, low)
}

// The check of the demand of clock j's key at step i of `total`, if it has one.
#[tactic(auto, using(crate::specs::Key::none_after, crate::specs::Key::some_able, crate::specs::Key::some_after))]
fn bound_key(
    upper: bool,
    key: u64,
    distance: usize,
    total: usize,
    i: usize,
    j: usize,
    late: &mut [u64],
    low: usize,
) -> usize
    requires { (total ≤ 1024) × (i ≤ 1024) × (j ≤ 6)
        × Able (key_demands upper key (last_of distance total i j) (i + 1)) late.old }
    ensures { bounds late.new result
        ≡ after_of (key_demands upper key (last_of distance total i j) (i + 1)) (bounds late.old low) }
{
    if NONE <= key {
        return low;
    }
    let z = last_reset(distance, total, i, j);
    bound(key_demand(upper, key, z, i + 1), late, low)
}

// The checks of one side of step i of `total`, which is step s of its round, clock by clock.
pub fn bound_side(
    upper: bool,
    keys: &[u64],
    far: &[usize],
    clocks: usize,
    total: usize,
    s: usize,
    i: usize,
    late: &mut [u64],
    low: usize,
) -> usize
    requires { Placed keys.now far.now clocks total s i
        × Able (side_of upper keys.now far.now total s i 1 clocks) late.old }
    ensures { bounds late.new result
        ≡ after_of (side_of upper keys.now far.now total s i 1 clocks) (bounds late.old low) }
{
    let mut lowest = low;
    for j in 1..clocks + 1 {
        let at = 7 * s + j;
        lowest = bound_key(upper, keys[at], far[at], total, i, j, late, lowest);
    }
    lowest
}

// The checks of the one or two demands of a guard between two clocks, whose last resets were at moments z and e.
fn bound_pair(g: Guard, constant: u64, z: usize, e: usize, late: &mut [u64], low: usize) -> usize
    requires { Able (guard_demands g.relation (up_of (with_constant constant g)) (down_of (with_constant constant g)) z e) late.old }
    ensures { bounds late.new result
        ≡ after_of (guard_demands g.relation (up_of (with_constant constant g)) (down_of (with_constant constant g)) z e)
        (bounds late.old low) }
{
    let relation = g.relation;
    let first = lead_demand(g, constant, z, e, false);
    let lowest = bound(first, late, low);
    if !twice(relation) {
        return lowest;
    }
    let second = lead_demand(g, constant, z, e, true);
    bound(second, late, lowest)
}

// The checks of a guard of the row at step i of `total`, which is step s of its round, if it has a second clock.
#[tactic(auto, using(crate::specs::Lead::lead_skipped, crate::specs::Lead::lead_able, crate::specs::Lead::lead_after))]
fn bound_lead(
    code: u64,
    far: &[usize],
    total: usize,
    s: usize,
    i: usize,
    late: &mut [u64],
    low: usize,
) -> usize
    requires { (length far.now ≡ 112) × (total ≤ 1024) × (s < 16) × (i ≤ 1024)
        × Able (lead_demands code (i + 1) (lasts_at far.now total s i)) late.old }
    ensures { bounds late.new result
        ≡ after_of (lead_demands code (i + 1) (lasts_at far.now total s i)) (bounds late.old low) }
{
    let b = (code / 7 % 7) as usize;
    if b == 0 {
        return low;
    }
    let a = (code % 7) as usize;
    let z = last_reset(far[7 * s + a], total, i, a);
    let e = last_reset(far[7 * s + b], total, i, b);
    let g = guard_at(code);
    bound_pair(g, code / 490, z, e, late, low)
}

// The checks of the guards between two clocks of step i of `total`, which is step s of its round, as the row tells them.
pub fn bound_leads(
    leads: &[u64],
    far: &[usize],
    total: usize,
    s: usize,
    i: usize,
    late: &mut [u64],
    low: usize,
) -> usize
    requires { Led leads.now far.now total s i × Able (leads_at (led_by leads.now) far.now total s i) late.old }
    ensures { bounds late.new result
        ≡ after_of (leads_at (led_by leads.now) far.now total s i) (bounds late.old low) }
{
    let first = leads[s] as usize;
    let end = leads[s + 1] as usize;
    let mut lowest = low;
    for k in first..end {
        lowest = bound_lead(leads[18 + k], far, total, s, i, late, lowest);
    }
    lowest
}
