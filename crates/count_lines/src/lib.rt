// The lines of a report that stand before its plan, and how many rounds are planned.
#![tactic(auto)]

ghost use Rattle.std.specs.Prelude.{◌≡◌, ◌+◌, ◌≤◌, length};
ghost use Rattle.text.specs.Over.{Written};
ghost use Rattle.count_lines.specs.Lines.{counted_line, count_line, planned_of};

use rounds::Count;

// The line of a table that is read.
pub fn put_counted(out: &mut [u8], at: usize, clocks: usize, steps: usize, guards: usize) -> usize
    requires { at + 83 ≤ length out.old }
    ensures written { Written out.old at (counted_line clocks steps guards) out.new result }
    ensures upper_bound { result ≤ at + 83 }
{
    lines::put_line(
        out,
        at,
        &[
            (b"clocks ", clocks as u64),
            (b" steps ", steps as u64),
            (b" guards ", guards as u64),
        ],
    )
}

// The line of the count.
#[tactic(auto, unfolding(crate::specs::Lines::count_line))]
pub fn put_count(out: &mut [u8], at: usize, count: Count) -> usize
    requires { at + 28 ≤ length out.old }
    ensures written { Written out.old at (count_line count) out.new result }
    ensures upper_bound { result ≤ at + 28 }
{
    match count {
        Count::Finite(c) => lines::put_line1(out, at, b"rounds ", c),
        Count::Endless => text::put_word(out, at, b"rounds without end\n"),
        Count::Refused(_) => at,
    }
}

// How many rounds are planned.
#[tactic(auto, unfolding(crate::specs::Lines::planned_of))]
pub fn planned(count: Count) -> u64
    ensures { result ≡ planned_of count }
{
    match count {
        Count::Finite(c) => c.min(2),
        Count::Endless => 2,
        Count::Refused(_) => 0,
    }
}
