// The last moments of the steps of k rounds with guards between two clocks: bounds from above, lowered by checks of the demands until all
// of them hold.
#![tactic(auto)]

ghost use Rattle.std.specs.Prelude.{◌≡◌, ◌+◌, ◌%◌, ◌<◌};
ghost use Rattle.leads.specs.Leads.{led_by, Leading};
ghost use Rattle.sweeps.specs.Order.{back_at};
ghost use Rattle.ways.specs.Forth.{Going};
ghost use Rattle.lowering.specs.Bounded.{Bounded};
ghost use Rattle.lowering.specs.Outcome.{Greatest};
ghost use Rattle.latest.specs.Ascending.{Stepped, Ascended};
ghost use Rattle.led_latest.specs.Steps.{led_back_edges, led_edges};

use bounding::{bound_leads, bound_side};
use constraints::following;
use last_resets::step_of;
use latest::{NEVER, Way, descend, settle};
use leads::any_leads;

// The checks of step i forth, its tightest guards from above and then those between two clocks. Where they lower a bound, and steps are
// left to go back, the checks back from the step follow at once, and the ascent goes on after the lowest moment that is lowered. It is
// step s of its round.
fn ascend_step(
    low: &[u64],
    up: &[u64],
    leads: &[u64],
    far: &[usize],
    steps: usize,
    clocks: usize,
    total: usize,
    s: usize,
    i: usize,
    left: usize,
    late: &mut [u64],
    hit: bool,
) -> Way
    requires { Going low.now far.now steps clocks total × Going up.now far.now steps clocks total × Leading leads.now steps
        × (i < total) × (s ≡ i % steps)
        × Bounded (total + clocks + 1) (led_edges low.now up.now (led_by leads.now) far.now steps clocks total) late.old }
    ensures { Stepped low.now far.now steps clocks total
        (back_at up.now (led_by leads.now) far.now steps clocks total)
        (led_back_edges up.now (led_by leads.now) far.now steps clocks total) i hit
        late.old late.new result.hit result.next }
{
    let sided = bound_side(true, up, far, clocks, total, s, i, late, NEVER);
    let lowest = bound_leads(leads, far, total, s, i, late, sided);
    if NEVER <= lowest {
        return Way {
            hit,
            next: i + 1,
            left,
        };
    }
    if left == 0 {
        return Way {
            hit: true,
            next: i + 1,
            left,
        };
    }
    let after = following(s, steps);
    let floor = lowest.min(i + 1);
    let next = descend(low, far, steps, clocks, total, i + 1, after, floor, late);
    Way {
        hit: true,
        next,
        left: left.saturating_sub(i + 2 - next),
    }
}

// The checks forth over all steps, with so many steps to go back: whether they have lowered a bound.
fn ascend(
    low: &[u64],
    up: &[u64],
    leads: &[u64],
    far: &[usize],
    steps: usize,
    clocks: usize,
    total: usize,
    left: usize,
    late: &mut [u64],
) -> bool
    requires { Going low.now far.now steps clocks total × Going up.now far.now steps clocks total × Leading leads.now steps
        × Bounded (total + clocks + 1) (led_edges low.now up.now (led_by leads.now) far.now steps clocks total) late.old }
    ensures { Ascended low.now far.now steps clocks total
        (led_back_edges up.now (led_by leads.now) far.now steps clocks total)
        late.old late.new result }
{
    let mut way = Way {
        hit: false,
        next: 0,
        left,
    };
    let mut i: usize = 0;
    let mut s: usize = 0;
    while i < total {
        way = ascend_step(
            low, up, leads, far, steps, clocks, total, s, i, way.left, late, way.hit,
        );
        s = step_of(s, i, way.next, steps);
        i = way.next;
    }
    way.hit
}

// Lowers the bounds until all demands of the steps hold: back and forth in turn, until nothing is lowered on the way forth, which may go
// back sixteen times as many steps as there are.
pub fn lower_led(
    low: &[u64],
    up: &[u64],
    leads: &[u64],
    far: &[usize],
    steps: usize,
    clocks: usize,
    total: usize,
    late: &mut [u64],
)
    requires { Going low.now far.now steps clocks total × Going up.now far.now steps clocks total × Leading leads.now steps
        × (total % steps ≡ 0)
        × Bounded (total + clocks + 1) (led_edges low.now up.now (led_by leads.now) far.now steps clocks total) late.old }
    ensures { Greatest (total + clocks + 1)
        (led_edges low.now up.now (led_by leads.now) far.now steps clocks total)
        late.old late.new }
{
    let mut hit = true;
    while hit {
        descend(low, far, steps, clocks, total, total, 0, 0, late);
        hit = ascend(low, up, leads, far, steps, clocks, total, 16 * total, late);
    }
}

// Lowers the bounds until all demands of the steps hold, with guards between two clocks or, where there are none, without.
pub fn settle_all(
    low: &[u64],
    up: &[u64],
    leads: &[u64],
    far: &[usize],
    steps: usize,
    clocks: usize,
    total: usize,
    late: &mut [u64],
)
    requires { Going low.now far.now steps clocks total × Going up.now far.now steps clocks total × Leading leads.now steps
        × (total % steps ≡ 0)
        × Bounded (total + clocks + 1) (led_edges low.now up.now (led_by leads.now) far.now steps clocks total) late.old }
    ensures { Greatest (total + clocks + 1)
        (led_edges low.now up.now (led_by leads.now) far.now steps clocks total)
        late.old late.new }
{
    if any_leads(leads, steps) {
        lower_led(low, up, leads, far, steps, clocks, total, late);
        return;
    }
    settle(low, up, far, steps, clocks, total, late);
}
