// The windows of a row of steps: into the two rooms of a panel, and the widest of them.
#![tactic(auto)]

ghost use Rattle.std.specs.Prelude.{◌≡◌, length};
ghost use Rattle.window.specs.Window.{Small};
ghost use Rattle.window.specs.Widest.{Chosen};
ghost use Rattle.window.specs.declared.Span.TheVariants.{Closed};
ghost use Rattle.window.specs.declared.Window.TheVariants.{Absent};
ghost use Rattle.showing.specs.Shown.{span_at, window_at, Rows, Room, marked, timed};
ghost use Rattle.showing.specs.Best.{closed_of, better_of, choice_of};

use seconds::seconds;
use window::{Choice, Interval, Span, in_seconds, place, span_of};

// The window of each of n steps, by rows of its first and last moments: a mark in one room, two times in the other.
pub fn show(
    firsts: &[u64],
    lasts: &[u64],
    parts: u64,
    n: usize,
    marks: &mut [u8],
    times: &mut [f64],
)
    requires { Rows firsts.now lasts.now parts n × Room n (length marks.old) (length times.old) }
    ensures marks { marks.new ≡ marked (window_at parts firsts.now lasts.now) n marks.old }
    ensures times { times.new ≡ timed (window_at parts firsts.now lasts.now) n times.old }
{
    for i in 0..n {
        let w = in_seconds(span_of(firsts[i], lasts[i]), parts);
        place(&mut *marks, &mut *times, i, w);
    }
}

// The same where no step has a window: every mark and every time is 0.
pub fn show_absent(n: usize, marks: &mut [u8], times: &mut [f64])
    requires { Room n (length marks.old) (length times.old) }
    ensures marks { marks.new ≡ marked (λ i. Absent) n marks.old }
    ensures times { times.new ≡ timed (λ i. Absent) n times.old }
{
    marks[..n].fill(0);
    times[..n * 2].fill(0.0);
}

// The widest closed window so far: whether there is one, its width in parts, and its two times.
#[derive(Clone, Copy)]
struct Best {
    found: bool,
    width: u64,
    times: Interval,
}

// The widest so far and one closed window more: the first among equals stays.
fn with_closed(best: Best, first: u64, last: u64, parts: u64) -> Best
    requires { Small (Closed first last) parts }
    ensures { result ≡ closed_of parts best first last }
{
    let width = last.saturating_sub(first);
    if best.found && width <= best.width {
        return best;
    }
    Best {
        found: true,
        width,
        times: Interval {
            first: seconds(first, parts),
            last: seconds(last, parts),
        },
    }
}

// The widest so far and one window more.
fn better(best: Best, span: Span, parts: u64) -> Best
    requires { Small span parts }
    ensures { result ≡ better_of parts best span }
{
    match span {
        Span::Closed(a, b) => with_closed(best, a, b, parts),
        Span::Open(_) | Span::Absent => best,
    }
}

// The answer that it is.
fn choice_of(best: Best) -> Choice
    ensures { result ≡ choice_of best }
{
    if best.found {
        return Choice::Widest(best.times);
    }
    Choice::NoneClosed
}

// The widest closed window of n steps, the first among equals: chosen by its parts, told in seconds.
pub fn widest(firsts: &[u64], lasts: &[u64], parts: u64, n: usize) -> Choice
    requires { Rows firsts.now lasts.now parts n }
    ensures { Chosen parts (span_at firsts.now lasts.now) n result }
{
    let mut best = Best {
        found: false,
        width: 0,
        times: Interval {
            first: 0.0,
            last: 0.0,
        },
    };
    for i in 0..n {
        best = better(best, span_of(firsts[i], lasts[i]), parts);
    }
    choice_of(best)
}
