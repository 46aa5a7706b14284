// When each step of k rounds may happen, counted in parts from log-in: its first moment, and its last one or that it has none.
#![tactic(auto)]

ghost use Rattle.std.specs.Prelude.{◌≡◌, true, ◌*◌, ◌≤◌, length};
ghost use Rattle.runs.specs.declared.Start.TheVariants.{LogIn};
ghost use Rattle.constraints.specs.Sized.{Sized, moments_of, parts_of};
ghost use Rattle.solving.specs.Solve.{Roomy};
ghost use Rattle.plan.specs.Rows.{Computed};
ghost use Rattle.spans.specs.Exact.{Plannable, Bounding, Exact};

use last_resets::put_distances;
use leads::put_leads;
use led_latest::settle_all;
use lowering::NONE;
use paths::fill;
use runs::Start;
use scaling::put_scaled;
use sides::put_keys;
use solving::Solution;
use spaces::solve_here;
use table::Table;

// The last moments of the steps of k rounds that have a plan: that of step i, or NONE, at place i. The rows are those of the table.
fn last_moments(
    t: Table,
    k: usize,
    low: &[u64],
    up: &[u64],
    leads: &[u64],
    far: &[usize],
    late: &mut [u64],
) -> bool
    requires { Sized t k × Plannable t k × Computed (parts_of t k) t low.now up.now leads.now far.now × (moments_of t k ≤ length late.old) }
    ensures { (result ≡ true) × Bounding t k late.new }
{
    let total = k * t.steps;
    fill(late, total + t.clocks + 1, 0);
    fill(late, total + 1, NONE);
    late[0] = 0;
    settle_all(low, up, leads, far, t.steps, t.clocks, total, late);
    true
}

// Whether a run of k rounds exists. Then the first moments of the steps stand in the first places of `firsts`, and the last ones in
// those of `lasts` from place 1 on. `starts` is room for the plan. The constants are scaled once, for the plan and for the last moments.
pub fn exact(t: Table, k: usize, firsts: &mut [u64], starts: &mut [u64], lasts: &mut [u64]) -> bool
    requires { Sized t k × Roomy (k * t.steps) t.clocks firsts.old starts.old lasts.old }
    ensures { Exact t k firsts.new lasts.new result }
{
    let total = k * t.steps;
    let mut constants: [u64; 64] = [0; 64];
    put_scaled(t, (total + t.clocks + 1) as u64, &mut constants);
    let mut low: [u64; 112] = [sides::NONE; 112];
    put_keys(t, &constants, false, &mut low);
    let mut up: [u64; 112] = [sides::NONE; 112];
    put_keys(t, &constants, true, &mut up);
    let mut led: [u64; 82] = [0; 82];
    put_leads(t, &constants, &mut led);
    let mut far: [usize; 112] = [0; 112];
    put_distances(&t.resets, t.steps, &mut far);
    let found = solve_here(
        &low,
        &up,
        &led,
        &far,
        Start::LogIn,
        t.steps,
        t.clocks,
        total,
        firsts,
        starts,
        lasts,
    );
    match found {
        Solution::Least => last_moments(t, k, &low, &up, &led, &far, lasts),
        Solution::Cycle(_) => false,
    }
}
