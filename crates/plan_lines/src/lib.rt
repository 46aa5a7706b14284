// A plan's lines into a lent buffer: the parts to a tick, the clocks' starts and the steps' moments.
#![tactic(auto)]

ghost use Rattle.std.specs.Prelude.{◌+◌, ◌*◌, ◌≤◌, length};
ghost use Rattle.text.specs.Over.{Written};
ghost use Rattle.plan_lines.specs.PlanLines.{number_in, start_line, step_line, start_lines, step_lines, plan_lines};

// The line of a clock's start.
fn put_start(out: &mut [u8], at: usize, clock: usize, start: u64) -> usize
    requires { at + 51 ≤ length out.old }
    ensures written { Written out.old at (start_line clock start) out.new result }
    ensures upper_bound { result ≤ at + 51 }
{
    lines::put_line(out, at, &[(b"start ", clock as u64), (b" at ", start)])
}

// The lines of the starts of clocks 1 to n.
fn put_starts(out: &mut [u8], at: usize, starts: &[u64], n: usize) -> usize
    requires { (n ≤ length starts.now) × (at + 51 * n ≤ length out.old) }
    ensures written { Written out.old at (start_lines (number_in starts.now) n) out.new result }
    ensures upper_bound { result ≤ at + 51 * n }
{
    let mut next = at;
    for j in 0..n {
        next = put_start(&mut *out, next, j + 1, starts[j]);
    }
    next
}

// The line of a step's moment.
fn put_step(out: &mut [u8], at: usize, round: usize, step: usize, moment: u64) -> usize
    requires { at + 77 ≤ length out.old }
    ensures written { Written out.old at (step_line round step moment) out.new result }
    ensures upper_bound { result ≤ at + 77 }
{
    lines::put_line(
        out,
        at,
        &[
            (b"round ", round as u64),
            (b" step ", step as u64),
            (b" at ", moment),
        ],
    )
}

// The lines of the first moments, `total` of them, when a round has `steps` steps.
fn put_steps(out: &mut [u8], at: usize, times: &[u64], steps: usize, total: usize) -> usize
    requires { (1 ≤ steps) × (total ≤ length times.now) × (at + 77 * total ≤ length out.old) }
    ensures written { Written out.old at (step_lines steps (number_in times.now) total)
        out.new result }
    ensures upper_bound { result ≤ at + 77 * total }
{
    let mut next = at;
    for i in 0..total {
        next = put_step(&mut *out, next, i / steps + 1, i % steps + 1, times[i]);
    }
    next
}

// The plan: the parts to a tick, the clocks' starts and the steps' moments.
pub fn put_plan(
    out: &mut [u8],
    at: usize,
    parts: u64,
    clocks: usize,
    starts: &[u64],
    steps: usize,
    times: &[u64],
    total: usize,
) -> usize
    requires { (clocks ≤ 6) × (clocks ≤ length starts.now) × (1 ≤ steps) × (total ≤ 32) × (total ≤ length times.now)
        × (at + 2797 ≤ length out.old) }
    ensures written { Written out.old at
        (plan_lines parts clocks steps total (number_in times.now) (number_in starts.now))
        out.new result }
    ensures upper_bound { result ≤ at + 2797 }
{
    let a = lines::put_line1(&mut *out, at, b"parts ", parts);
    let b = put_starts(&mut *out, a, starts, clocks);
    put_steps(out, b, times, steps, total)
}
