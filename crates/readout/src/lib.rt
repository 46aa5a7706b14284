// What a solution of the constraints of k rounds says: the moments, and the smallest starts for them.
#![tactic(auto)]

ghost use Rattle.std.specs.Prelude.{◌≡◌, ℕ, ◌+◌, ◌-◌, ◌≤◌, ◌<◌, length};
ghost use Rattle.basics.specs.Places.{at, written};
ghost use Rattle.readout.specs.Late.{Began, Rowed, Told};

use latest::descend;
use leads::any_leads;
use led_latest::lower_led;

// Sets the times of the last resets before the start to that of the start.
fn begin(total: usize, clocks: usize, time: &mut [u64])
    requires { total + clocks < length time.old }
    ensures { Began time.old total clocks time.new }
{
    let start = time[0];
    time[total + 1..total + 1 + clocks].fill(start);
}

// Writes the starts that the times of the last resets before the start tell to the first places.
#[tactic(auto, using(basics::specs::Places::written_none, basics::specs::Places::written_more))]
fn tell(late: &[u64], total: usize, clocks: usize, starts: &mut [u64])
    requires { (total + clocks < length late.now) × (clocks ≤ length starts.old) }
    ensures { starts.new
        ≡ written (λ j. at late.now 0 - at late.now (total + (j + 1))) clocks starts.old }
{
    for j in 0..clocks {
        starts[j] = late[0].saturating_sub(late[total + (j + 1)]);
    }
}

// Writes the smallest starts for the moments of a solution to the first places. The times of the last resets before the start are set to
// that of the start and lowered as far as the demands ask: by the guards from below of the first round, after which no guard of one clock
// asks for more, and with guards between two clocks until all hold.
pub fn write_starts(
    low: &[u64],
    up: &[u64],
    leads: &[u64],
    far: &[usize],
    steps: usize,
    clocks: usize,
    total: usize,
    time: &mut [u64],
    starts: &mut [u64],
)
    requires { Rowed low.now up.now leads.now far.now steps clocks total time.old starts.old }
    ensures { Told low.now up.now leads.now far.now steps clocks total
        time.old time.new starts.old starts.new }
{
    begin(total, clocks, time);
    descend(low, far, steps, clocks, total, steps, 0, 0, time);
    if !any_leads(leads, steps) {
        tell(time, total, clocks, starts);
        return;
    }
    lower_led(low, up, leads, far, steps, clocks, total, time);
    tell(time, total, clocks, starts);
}

// Writes the moments after the start, as times since it, to the first places.
#[tactic(auto, using(basics::specs::Places::written_none, basics::specs::Places::written_more))]
pub fn write_moments(time: &[u64], total: usize, times: &mut [u64])
    requires { (total < length time.now) × (total ≤ length times.old)
        × ((i : ℕ) → i ≤ total → at time.now 0 ≤ at time.now i) }
    ensures { times.new
        ≡ written (λ i. at time.now (i + 1) - at time.now 0) total times.old }
{
    for i in 0..total {
        times[i] = time[i + 1] - time[0];
    }
}
