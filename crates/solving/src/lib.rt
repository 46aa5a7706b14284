// The least solution of the difference constraints of k rounds, told by rows, written out as moments and starts; or a negative cycle.
#![tactic(auto)]

ghost use Rattle.paths.specs.State.{state};
ghost use Rattle.relaxing.specs.Rows.{rows, Sound};
ghost use Rattle.solving.specs.Solved.{Solved};
ghost use Rattle.solving.specs.Solve.{Roomy, Spacious};

use paths::{fill, write_cycle};
use readout::{write_moments, write_starts};
use relaxing::passes;
use runs::Start;

// What solving has found: the least solution, or a cycle of so many moments.
#[derive(Clone, Copy)]
pub enum Solution {
    Least,
    Cycle(usize),
}

// Solves the constraints of the rows: the moments and the smallest starts of the least solution are written to the first places of two
// rooms; or a cycle to those of the third. The last four slices are space to work in, cleared.
pub fn solve(
    low: &[u64],
    up: &[u64],
    leads: &[u64],
    far: &[usize],
    start: Start,
    steps: usize,
    clocks: usize,
    total: usize,
    times: &mut [u64],
    starts: &mut [u64],
    room: &mut [u64],
    time: &mut [u64],
    parent: &mut [u64],
    stamp: &mut [u64],
    marks: &mut [u64],
) -> Solution
    requires { Sound (rows low.now up.now leads.now far.now start steps clocks total)
        × Roomy total clocks times.old starts.old room.old
        × Spacious (rows low.now up.now leads.now far.now start steps clocks total) (state time.old parent.old stamp.old) marks.old }
    ensures { Solved (rows low.now up.now leads.now far.now start steps clocks total)
        times.old starts.old room.old
        times.new starts.new room.new result }
{
    let n = total + clocks + 1;
    fill(time, total + 1, 24012 * n as u64);
    let u = passes(
        low, up, leads, far, start, steps, clocks, total, time, parent, stamp, marks,
    );
    if u < n {
        return Solution::Cycle(write_cycle(parent, u, room));
    }
    write_moments(time, total, times);
    write_starts(low, up, leads, far, steps, clocks, total, time, starts);
    Solution::Least
}
