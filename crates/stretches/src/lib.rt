// The question "read" for tables with repeated stretches: kind 7 opens one (02: repeat), kind 8 closes it (02: repeat closed). Inside a
// stretch reading an item and reading a stretch call each other, and the bytes that are left fall: an item is a step, up to its end, or a
// further stretch, up to its close.
#![tactic(auto)]

ghost use Rattle.std.specs.Prelude.{◌≡◌, List, ◌∷◌, ◌≤◌, ◌<◌, ◌+◌, length};
ghost use Rattle.stretches.specs.Reading.{read_out, may_open, repeated};
ghost use Rattle.stretches.specs.Parts.{unfinished_of, closed_of, stands_between, Reads, ItemAt, StepAt, Begins, InStretch};
ghost use Rattle.stretches.specs.Outside.{Found, Limits, Stops};
ghost use Rattle.stretches.specs.Whole.{first_by, Tells};

use records::{Tally, Verdict, between, body_size};
use table::{Fault, Read, Refusal};
use wire::{after_end, byte_in, judge};

// A stretch that is open: how often it comes, and the steps and guards counted before it.
#[derive(Clone, Copy)]
struct Open {
    times: usize,
    steps: usize,
    guards: usize,
}

// What is found of a part, which is an item or the rest of a stretch: a fault; or the tally after it, written out, and the place after it.
#[derive(Clone, Copy)]
enum Part {
    Refused(Refusal),
    Read(Tally, usize),
}

// A fault at a place.
fn stop(fault: Fault, place: usize) -> Part
    ensures { result ≡ Part.Refused (record { fault = fault; place = place }) }
{
    Part::Refused(Refusal { fault, place })
}

// Whether a stretch that comes so often may be opened where so many are open.
fn opens(times: usize, depth: usize) -> bool
    ensures { result ≡ may_open times depth }
{
    if !between(2, times, 16) {
        return false;
    }
    depth < 4
}

// Whether a kind stands between steps only: the end, and the open and the close of a stretch.
fn is_between(k: usize) -> bool
    ensures { result ≡ stands_between k }
{
    if k == 5 {
        return true;
    }
    between(7, k, 8)
}

// What is wrong with such a record in an unfinished step, where so many bytes follow its kind.
fn unfinished(k: usize, left: usize, depth: usize) -> Fault
    ensures { result ≡ unfinished_of k left depth }
{
    if k == 5 {
        if depth == 0 {
            return Fault::Steps;
        }
        return Fault::Stretch;
    }
    if left < body_size(k) {
        return Fault::Cut;
    }
    Fault::Stretch
}

// A count, with what has come since some were counted before written out so often.
fn repeat(times: usize, before: usize, count: usize) -> usize
    requires { (times ≤ 16) × (before ≤ count) × (count ≤ 64) }
    ensures { result ≡ repeated times before count }
{
    before + times * (count - before)
}

// The close of a stretch, after its last item.
fn close(place: usize, t: Tally, o: Open) -> Part
    requires { InStretch t o × (place ≤ 4096) }
    ensures { result ≡ closed_of t place o }
{
    if t.steps <= o.steps {
        return stop(Fault::Stretch, place);
    }
    let steps = repeat(o.times, o.steps, t.steps);
    let guards = repeat(o.times, o.guards, t.guards);
    if 16 < steps {
        return stop(Fault::Steps, place);
    }
    if 64 < guards {
        return stop(Fault::Bounds, place);
    }
    Part::Read(
        Tally {
            clocks: t.clocks,
            steps,
            guards,
            pending: 0,
        },
        place + 1,
    )
}

// The records of a step from a place on, up to its end.
fn read_step(bytes: &[u8], from: usize, tally: Tally, depth: usize) -> Part
    requires { StepAt bytes.now from tally }
    ensures { Reads bytes.now tally from depth (λ stack. stack) result }
{
    let len = bytes.len();
    let mut t = tally;
    let mut at = from;
    while at < len {
        let k = byte_in(bytes, at);
        if is_between(k) {
            return stop(unfinished(k, len - at - 1, depth), at);
        }
        let next = at + 1 + body_size(k);
        let verdict = judge(bytes, at, t);
        match verdict {
            Verdict::Refused(r) => {
                return Part::Refused(r);
            }
            Verdict::Last => {
                return stop(Fault::Kind, at);
            }
            Verdict::Next(u) => {
                if k == 4 {
                    return Part::Read(u, next);
                }
                t = u;
                at = next;
            }
        }
    }
    stop(Fault::Cut, len)
}

// The item at a place: a step, or a stretch.
#[cycle(read_item_read_stretch)]
fn read_item(bytes: &[u8], at: usize, t: Tally, depth: usize) -> Part
    requires { ItemAt bytes.now at t }
    ensures { Reads bytes.now t at depth (λ stack. stack) result }
{
    let k = byte_in(bytes, at);
    if k != 7 {
        return read_step(bytes, at, t, depth);
    }
    if bytes.len() <= at + 1 {
        return stop(Fault::Cut, at);
    }
    let times = byte_in(bytes, at + 1);
    if !opens(times, depth) {
        return stop(Fault::Stretch, at);
    }
    let open = Open {
        times,
        steps: t.steps,
        guards: t.guards,
    };
    read_stretch(bytes, at + 2, t, depth + 1, open)
}

// The items of a stretch from a place on, up to its close.
#[cycle(read_item_read_stretch)]
fn read_stretch(bytes: &[u8], at: usize, t: Tally, depth: usize, o: Open) -> Part
    requires { Begins bytes.now at t × InStretch t o }
    ensures { Reads bytes.now t at depth (λ stack. o ∷ stack) result }
{
    let len = bytes.len();
    if len <= at {
        return stop(Fault::Cut, len);
    }
    let k = byte_in(bytes, at);
    if k == 8 {
        return close(at, t, o);
    }
    if k == 5 {
        return stop(Fault::Stretch, at);
    }
    let first = read_item(bytes, at, t, depth);
    match first {
        Part::Refused(r) => Part::Refused(r),
        Part::Read(u, next) => read_stretch(bytes, next, u, depth, o),
    }
}

// A stretch at a place outside all others, or what stands there in its stead.
fn outside(bytes: &[u8], at: usize, t: Tally) -> Part
    requires { Found bytes.now at t }
    ensures { Reads bytes.now t at 0 (λ stack. stack) result }
{
    let len = bytes.len();
    if at == 0 {
        return stop(Fault::Head, 0);
    }
    if t.pending != 0 {
        return stop(unfinished(byte_in(bytes, at), len - at - 1, 0), at);
    }
    if byte_in(bytes, at) == 8 {
        return stop(Fault::Stretch, at);
    }
    read_item(bytes, at, t, 0)
}

// What records outside all stretches come to: the answer; or the place of the open or the close of a stretch, with the tally before it.
#[derive(Clone, Copy)]
enum Halt {
    Answer(Read),
    Stretch(Tally, usize),
}

// The records from a place on, outside all stretches.
fn read_records(bytes: &[u8], from: usize, tally: Tally) -> Halt
    requires { Limits bytes.now tally }
    ensures { Stops bytes.now tally from result }
{
    let len = bytes.len();
    let mut t = tally;
    let mut at = from;
    while at < len {
        let verdict = judge(bytes, at, t);
        let k = byte_in(bytes, at);
        let next = at + 1 + body_size(k);
        match verdict {
            Verdict::Refused(r) => {
                // to the tests of a table without stretches these two are no kinds
                if between(7, k, 8) {
                    return Halt::Stretch(t, at);
                }
                return Halt::Answer(Read::Refused(r));
            }
            Verdict::Last => {
                return Halt::Answer(after_end(bytes, next, t));
            }
            Verdict::Next(u) => {
                t = u;
                at = next;
            }
        }
    }
    Halt::Answer(Read::Refused(Refusal {
        fault: Fault::Cut,
        place: len,
    }))
}

// The answer, and the place of the first record of a stretch; where none comes, the length of the bytes.
#[derive(Clone, Copy)]
pub struct Whole {
    pub answer: Read,
    pub first: usize,
}

// The first place, once a stretch has come at another.
fn earlier(first: usize, len: usize, place: usize) -> usize
    ensures { result ≡ first_by first len place }
{
    if first == len {
        return place;
    }
    first
}

// `read_whole` for bytes that are not too long: records and stretches, one after the other.
fn read_table(bytes: &[u8]) -> Whole
    requires { length bytes.now ≤ 4096 }
    ensures { Tells bytes.now result.answer result.first }
{
    let len = bytes.len();
    let mut t = Tally {
        clocks: 0,
        steps: 0,
        guards: 0,
        pending: 0,
    };
    let mut at: usize = 0;
    let mut first = len;
    loop {
        let halt = read_records(bytes, at, t);
        match halt {
            Halt::Answer(a) => {
                return Whole { answer: a, first };
            }
            Halt::Stretch(u, p) => {
                first = earlier(first, len, p);
                let part = outside(bytes, p, u);
                match part {
                    Part::Refused(r) => {
                        return Whole {
                            answer: Read::Refused(r),
                            first,
                        };
                    }
                    Part::Read(v, next) => {
                        t = v;
                        at = next;
                    }
                }
            }
        }
    }
}

// The question "read", with the place of the first stretch.
pub fn read_whole(bytes: &[u8]) -> Whole
    ensures { Tells bytes.now result.answer result.first }
{
    let len = bytes.len();
    if 4096 < len {
        return Whole {
            answer: Read::Refused(Refusal {
                fault: Fault::Length,
                place: 4096,
            }),
            first: len,
        };
    }
    read_table(bytes)
}

// The question "read": clocks, steps and guards of the table written out, or the first fault and its place.
pub fn read(bytes: &[u8]) -> Read
    ensures { result ≡ read_out bytes.now }
{
    let whole = read_whole(bytes);
    whole.answer
}
