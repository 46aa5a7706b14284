// The question "read": what bytes count, or the first fault.
#![tactic(auto)]

ghost use Rattle.std.specs.Prelude.{◌≡◌, ◌≤◌, ◌<◌, ◌+◌, eqb, leb, length, get_or, take, drop};
ghost use Rattle.records.specs.Rules.{body_size, agree};
ghost use Rattle.wire.specs.Records.{record_at, records_at};
ghost use Rattle.wire.specs.Reading.{whole_of, judge_of, tail, read_of};

use records::{
    Tally, Verdict, between, body_size, refuse, take_end, take_guard, take_head, take_reset,
    take_step,
};
use table::{Fault, Read, Refusal};

// The byte at a place that is there.
pub fn byte_in(bytes: &[u8], i: usize) -> usize
    requires { i < length bytes.now }
    ensures { (result ≡ get_or bytes.now i 0) × (result < 256) }
{
    bytes[i] as usize
}

// The byte at a place, or 0 past the end.
pub fn byte_at(bytes: &[u8], i: usize) -> usize
    ensures { (result ≡ get_or bytes.now i 0) × (result < 256) }
{
    if bytes.len() <= i {
        return 0;
    }
    byte_in(bytes, i)
}

// A guard's record, whose bytes are all there.
fn read_guard(bytes: &[u8], at: usize, t: Tally) -> Verdict
    requires { (at ≤ 4096) × (at + body_size 2 < length bytes.now) }
    ensures { result ≡ whole_of t (record_at at 2 (drop (at + 1) bytes.now)) }
{
    let clock = byte_in(bytes, at + 1);
    let relation = byte_in(bytes, at + 2);
    let low = byte_in(bytes, at + 3);
    let high = byte_in(bytes, at + 4);
    take_guard(t, at, clock, relation, low + high * 256)
}

// A record of a kind, whose bytes are all there.
fn take_whole(bytes: &[u8], at: usize, k: usize, t: Tally) -> Verdict
    requires { (at ≤ 4096) × (at + body_size k < length bytes.now) }
    ensures { result ≡ whole_of t (record_at at k (drop (at + 1) bytes.now)) }
{
    if k == 1 {
        return take_head(at, byte_in(bytes, at + 1));
    }
    if k == 2 {
        return read_guard(bytes, at, t);
    }
    if k == 3 {
        return take_reset(t, at, byte_in(bytes, at + 1));
    }
    if k == 4 {
        return take_step(t, at);
    }
    take_end(t, at)
}

// Whether a kind stands where it may: a head first, and only there.
pub fn head_placed(at: usize, k: usize) -> bool
    ensures { result ≡ agree (eqb at 0) (eqb k 1) }
{
    if at == 0 {
        return k == 1;
    }
    k != 1
}

// Whether the body of a kind after a place is all there.
fn body_whole(bytes: &[u8], at: usize, k: usize) -> bool
    requires { at < length bytes.now }
    ensures { result ≡ leb (body_size k) (length (take (body_size k) (drop (at + 1) bytes.now))) }
{
    if bytes.len() - at - 1 < body_size(k) {
        return false;
    }
    true
}

// The record of a kind at a place.
#[tactic(auto, using(crate::proofs::Bytes::body_within), unfolding(crate::specs::Reading::judge_of))]
fn judge_kind(bytes: &[u8], at: usize, k: usize, t: Tally) -> Verdict
    requires { (at < length bytes.now) × (length bytes.now ≤ 4096) }
    ensures { result ≡ judge_of t (record_at at k (drop (at + 1) bytes.now)) }
{
    let is_kind = between(1, k, 5);
    let placed = head_placed(at, k);
    let whole = body_whole(bytes, at, k);
    if !is_kind {
        return refuse(Fault::Kind, at);
    }
    if !placed {
        return refuse(Fault::Head, at);
    }
    if !whole {
        return refuse(Fault::Cut, at);
    }
    take_whole(bytes, at, k, t)
}

// The record at a place. Most records are guards and resets: where their kinds are constants, the compiler leaves the tests of the
// other kinds out.
pub fn judge(bytes: &[u8], at: usize, t: Tally) -> Verdict
    requires { (at < length bytes.now) × (length bytes.now ≤ 4096) }
    ensures { result ≡ judge_of t (record_at at (get_or bytes.now at 0) (drop (at + 1) bytes.now)) }
{
    let k = byte_in(bytes, at);
    if k == 2 {
        return judge_kind(bytes, at, 2, t);
    }
    if k == 3 {
        return judge_kind(bytes, at, 3, t);
    }
    judge_kind(bytes, at, k, t)
}

// The answer where the end has come just before a place.
pub fn after_end(bytes: &[u8], at: usize, t: Tally) -> Read
    ensures { result ≡ tail t (records_at bytes.now at) }
{
    if at < bytes.len() {
        return Read::Refused(Refusal {
            fault: Fault::Tail,
            place: at,
        });
    }
    Read::Counted {
        clocks: t.clocks,
        steps: t.steps,
        guards: t.guards,
    }
}

// Where the record after the one at a place begins.
fn next_record(bytes: &[u8], at: usize) -> usize
    requires { (at < length bytes.now) × (length bytes.now ≤ 4096) }
    ensures { result ≡ at + 1 + body_size (get_or bytes.now at 0) }
{
    at + 1 + body_size(byte_in(bytes, at))
}

// `read` for bytes that are not too long.
fn read_records(bytes: &[u8]) -> Read
    requires { length bytes.now ≤ 4096 }
    ensures { result ≡ read_of bytes.now }
{
    let len = bytes.len();
    let mut t = Tally {
        clocks: 0,
        steps: 0,
        guards: 0,
        pending: 0,
    };
    let mut at: usize = 0;
    while at < len {
        let verdict = judge(bytes, at, t);
        match verdict {
            Verdict::Refused(r) => {
                return Read::Refused(r);
            }
            Verdict::Last => {
                return after_end(bytes, next_record(bytes, at), t);
            }
            Verdict::Next(u) => {
                t = u;
                at = next_record(bytes, at);
            }
        }
    }
    Read::Refused(Refusal {
        fault: Fault::Cut,
        place: len,
    })
}

// The question "read": clocks, steps and guards counted, or the first fault and its place.
pub fn read(bytes: &[u8]) -> Read
    ensures { result ≡ read_of bytes.now }
{
    if 4096 < bytes.len() {
        return Read::Refused(Refusal {
            fault: Fault::Length,
            place: 4096,
        });
    }
    read_records(bytes)
}
