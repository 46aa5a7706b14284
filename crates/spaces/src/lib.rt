// Rows solved in space of their own.
#![tactic(auto)]

ghost use Rattle.std.specs.Prelude.{◌+◌, ◌<◌};
ghost use Rattle.relaxing.specs.Rows.{rows, Sound};
ghost use Rattle.solving.specs.Solved.{Solved};
ghost use Rattle.solving.specs.Solve.{Roomy};

use runs::Start;
use solving::{Solution, solve};

// The rows solved in space for 64 moments.
fn solve_small(
    low: &[u64],
    up: &[u64],
    leads: &[u64],
    far: &[usize],
    start: Start,
    steps: usize,
    clocks: usize,
    total: usize,
    times: &mut [u64],
    starts: &mut [u64],
    room: &mut [u64],
) -> Solution
    requires { Sound (rows low.now up.now leads.now far.now start steps clocks total)
        × Roomy total clocks times.old starts.old room.old
        × (total + clocks < 64) }
    ensures { Solved (rows low.now up.now leads.now far.now start steps clocks total)
        times.old starts.old room.old
        times.new starts.new room.new result }
{
    let mut time: [u64; 64] = [0; 64];
    let mut parent: [u64; 64] = [0; 64];
    let mut stamp: [u64; 64] = [0; 64];
    let mut marks: [u64; 64] = [0; 64];
    solve(
        low,
        up,
        leads,
        far,
        start,
        steps,
        clocks,
        total,
        times,
        starts,
        room,
        &mut time,
        &mut parent,
        &mut stamp,
        &mut marks,
    )
}

// The rows solved in space for 1,031 moments, which are the most.
fn solve_large(
    low: &[u64],
    up: &[u64],
    leads: &[u64],
    far: &[usize],
    start: Start,
    steps: usize,
    clocks: usize,
    total: usize,
    times: &mut [u64],
    starts: &mut [u64],
    room: &mut [u64],
) -> Solution
    requires { Sound (rows low.now up.now leads.now far.now start steps clocks total)
        × Roomy total clocks times.old starts.old room.old }
    ensures { Solved (rows low.now up.now leads.now far.now start steps clocks total)
        times.old starts.old room.old
        times.new starts.new room.new result }
{
    let mut time: [u64; 1031] = [0; 1031];
    let mut parent: [u64; 1031] = [0; 1031];
    let mut stamp: [u64; 1031] = [0; 1031];
    let mut marks: [u64; 1031] = [0; 1031];
    solve(
        low,
        up,
        leads,
        far,
        start,
        steps,
        clocks,
        total,
        times,
        starts,
        room,
        &mut time,
        &mut parent,
        &mut stamp,
        &mut marks,
    )
}

// The rows solved in as little space as they need: few moments in few places, since clearing many takes longer than solving.
pub fn solve_here(
    low: &[u64],
    up: &[u64],
    leads: &[u64],
    far: &[usize],
    start: Start,
    steps: usize,
    clocks: usize,
    total: usize,
    times: &mut [u64],
    starts: &mut [u64],
    room: &mut [u64],
) -> Solution
    requires { Sound (rows low.now up.now leads.now far.now start steps clocks total)
        × Roomy total clocks times.old starts.old room.old }
    ensures { Solved (rows low.now up.now leads.now far.now start steps clocks total)
        times.old starts.old room.old
        times.new starts.new room.new result }
{
    if total + clocks < 64 {
        return solve_small(
            low, up, leads, far, start, steps, clocks, total, times, starts, room,
        );
    }
    solve_large(
        low, up, leads, far, start, steps, clocks, total, times, starts, room,
    )
}
