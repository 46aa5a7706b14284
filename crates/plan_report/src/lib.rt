// The plan of one or two rounds of an accepted table by log-in: the question is asked, and the answer written as lines.
#![tactic(auto)]

ghost use Rattle.std.specs.Prelude.{◌+◌, ◌≤◌, length};
ghost use Rattle.plan_report.specs.Accepted.{Plannable};
ghost use Rattle.plan_report.specs.Found.{WritesPlan};

use plan::Outcome;
use runs::Start;

// The plan of k rounds, one or two, of a table that has a run of as many from log-in. The rooms suffice for 2 * 16 steps and 6 clocks.
pub fn put_rounds(
    bytes: &[u8],
    k: u64,
    clocks: usize,
    steps: usize,
    out: &mut [u8],
    at: usize,
) -> usize
    requires { Plannable bytes.now clocks steps k × (at + 2797 ≤ length out.old) }
    ensures writes_plan { WritesPlan bytes.now clocks steps k out.old at out.new result }
    ensures upper_bound { result ≤ at + 2797 }
{
    let mut times: [u64; 32] = [0; 32];
    let mut starts: [u64; 6] = [0; 6];
    let mut room: [u64; 39] = [0; 39];
    let outcome = plan::plan(bytes, Start::LogIn, k, &mut times, &mut starts, &mut room);
    match outcome {
        Outcome::Found(parts) => {
            let total = k as usize * steps;
            plan_lines::put_plan(out, at, parts, clocks, &starts, steps, &times, total)
        }
        Outcome::Loop(_) => at,
        Outcome::Refused(_) => at,
    }
}
