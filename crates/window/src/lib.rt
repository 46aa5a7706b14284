// When a step may happen, in parts of a tick and in seconds.
#![tactic(auto)]

ghost use Rattle.std.specs.Prelude.{◌≡◌, ◌+◌, ◌*◌, ◌<◌, length, set};
ghost use Rattle.window.specs.Window.{span_of, Small, window_of, mark_of, first_of, last_of, placed};

use seconds::seconds;

// When a step may happen, in parts since the start: between two moments, from a first moment on, or never.
#[derive(Clone, Copy)]
pub enum Span {
    Closed(u64, u64),
    Open(u64),
    Absent,
}

// The same in seconds.
#[derive(Clone, Copy)]
pub enum Window {
    Closed(f64, f64),
    Open(f64),
    Absent,
}

// The two times of a closed window.
#[derive(Clone, Copy)]
pub struct Interval {
    pub first: f64,
    pub last: f64,
}

// The widest closed window of some, or that none is closed.
#[derive(Clone, Copy)]
pub enum Choice {
    Widest(Interval),
    NoneClosed,
}

// Farther from the start than any last moment there is: a moment beyond it says that there is none. 2^33
pub const FAR: u64 = 8589934592;

// The span from a first moment to a last one.
pub fn span_of(first: u64, last: u64) -> Span
    ensures { result ≡ span_of first last }
{
    if last <= FAR {
        return Span::Closed(first, last);
    }
    Span::Open(first)
}

// A span in seconds, with so many parts to a tick.
pub fn in_seconds(span: Span, parts: u64) -> Window
    requires { Small span parts }
    ensures { result ≡ window_of parts span }
{
    match span {
        Span::Closed(a, b) => Window::Closed(seconds(a, parts), seconds(b, parts)),
        Span::Open(a) => Window::Open(seconds(a, parts)),
        Span::Absent => Window::Absent,
    }
}

// A window's mark.
fn mark(w: Window) -> u8
    ensures { result ≡ mark_of w }
{
    match w {
        Window::Closed(_, _) => 2,
        Window::Open(_) => 1,
        Window::Absent => 0,
    }
}

// A window's first time, 0 where there is none.
fn first(w: Window) -> f64
    ensures { result ≡ first_of w }
{
    match w {
        Window::Closed(a, _) | Window::Open(a) => a,
        Window::Absent => 0.0,
    }
}

// A window's last time, 0 where there is none.
fn last(w: Window) -> f64
    ensures { result ≡ last_of w }
{
    match w {
        Window::Closed(_, b) => b,
        Window::Open(_) | Window::Absent => 0.0,
    }
}

// The window of step i in its places of the two rooms: a mark, and two times side by side.
pub fn place(marks: &mut [u8], times: &mut [f64], i: usize, w: Window)
    requires { (i < length marks.old) × (i * 2 + 1 < length times.old) }
    ensures marks { marks.new ≡ set marks.old i (mark_of w) }
    ensures times { times.new ≡ placed times.old i w }
{
    marks[i] = mark(w);
    times[i * 2] = first(w);
    times[i * 2 + 1] = last(w);
}
