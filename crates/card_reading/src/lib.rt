// Card to table: the lines of a card are taken from the top, and their records drafted, until a fault or the end.
#![tactic(auto)]

ghost use Rattle.std.specs.Prelude.{◌≡◌, ◌≤◌, ◌+◌, ◌%◌, length, set};
ghost use Rattle.text.specs.Over.{Written};
ghost use Rattle.cards.specs.Convert.{table_of, to_table, room_after};
ghost use Rattle.card_reading.specs.Judged.{taken_of, judge_found, found_bytes};
ghost use Rattle.card_reading.specs.Drafted.{Drafted, closing};

use card_lines::{Found, line_at};
use cards::{Converted, hand_over};
use records::{Tally, Verdict, refuse, take_end, take_guard, take_head, take_reset, take_step};
use table::{Fault, Refusal};
use wire::head_placed;

// the longest card, and the longest table of one
const MOST: usize = 16384;

const LONGEST: usize = 531;

// A line that says something, judged by its kind.
fn take_found(at: usize, f: Found, t: Tally) -> Verdict
    ensures { result ≡ taken_of t at f }
{
    if f.kind == 1 {
        return take_head(at, f.first);
    }
    if f.kind == 2 {
        return take_guard(t, at, f.first, f.relation, f.second);
    }
    if f.kind == 3 {
        return take_reset(t, at, f.first);
    }
    if f.kind == 4 {
        return take_step(t, at);
    }
    take_end(t, at)
}

// The line found at a place.
fn judge_found(at: usize, f: Found, t: Tally) -> Verdict
    ensures { result ≡ judge_found t at f }
{
    if f.kind == 0 {
        return refuse(Fault::Card, at);
    }
    if !head_placed(at, f.kind) {
        return refuse(Fault::Head, at);
    }
    take_found(at, f, t)
}

// Writes a byte, if there is such a place.
fn put_byte(out: &mut [u8], to: usize, byte: usize)
    ensures { out.new ≡ set out.old to (byte % 256) }
{
    if to < out.len() {
        out[to] = (byte % 256) as u8;
    }
}

// Writes the record of a line, as far as there is room; gives the place after it.
fn put_found(out: &mut [u8], to: usize, f: Found) -> usize
    requires { to ≤ 81920 }
    ensures written { Written out.old to (found_bytes f) out.new result }
    ensures upper_bound { result ≤ to + 5 }
{
    put_byte(&mut *out, to, f.kind);
    if f.kind == 2 {
        put_byte(&mut *out, to + 1, f.first);
        put_byte(&mut *out, to + 2, f.relation);
        put_byte(&mut *out, to + 3, f.second);
        put_byte(out, to + 4, f.second / 256);
        return to + 5;
    }
    if f.kind == 4 {
        return to + 1;
    }
    if f.kind == 5 {
        return to + 1;
    }
    put_byte(out, to + 1, f.first);
    to + 2
}

// The answer where the end has come just before a place, and so many bytes are drafted.
fn after_end(text: &[u8], at: usize, n: usize) -> Converted
    ensures { result ≡ closing (length text.now) at n }
{
    if at < text.len() {
        return Converted::Refused(Refusal {
            fault: Fault::Tail,
            place: at,
        });
    }
    Converted::Written(n)
}

// Drafts the table of a card that is not too long.
fn draft(text: &[u8], out: &mut [u8]) -> Converted
    requires { length text.now ≤ 16384 }
    ensures { Drafted text.now out.old result out.new }
{
    let len = text.len();
    let mut t = Tally {
        clocks: 0,
        steps: 0,
        guards: 0,
        pending: 0,
    };
    let mut at: usize = 0;
    let mut to: usize = 0;
    while at < len {
        let f = line_at(text, at);
        let verdict = judge_found(at, f, t);
        match verdict {
            Verdict::Refused(r) => {
                return Converted::Refused(r);
            }
            Verdict::Last => {
                let n = put_found(out, to, f);
                return after_end(text, f.next, n);
            }
            Verdict::Next(u) => {
                to = put_found(&mut *out, to, f);
                t = u;
                at = f.next;
            }
        }
    }
    Converted::Refused(Refusal {
        fault: Fault::Cut,
        place: len,
    })
}

// Drafts the table of a card in a row of its own, and hands it over.
fn draft_table(text: &[u8], room: &mut [u8]) -> Converted
    requires { length text.now ≤ 16384 }
    ensures { (result ≡ to_table text.now (length room.old))
        × (room.new ≡ room_after result (table_of text.now) room.old) }
{
    let mut table: [u8; LONGEST] = [0; LONGEST];
    let drafted = draft(text, &mut table);
    match drafted {
        Converted::Refused(refusal) => Converted::Refused(refusal),
        Converted::Written(n) => hand_over(&table, n, room),
    }
}

// The table of a card's text. Written, it stands in the first places of the room, and all others keep their contents; refused, the room is as it was.
pub fn to_table(text: &[u8], room: &mut [u8]) -> Converted
    ensures { (result ≡ to_table text.now (length room.old))
        × (room.new ≡ room_after result (table_of text.now) room.old) }
{
    if MOST < text.len() {
        return Converted::Refused(Refusal {
            fault: Fault::Card,
            place: MOST,
        });
    }
    draft_table(text, room)
}
