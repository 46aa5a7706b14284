// Table to card: the card of a table, a line for each record, in a lent room.
#![tactic(auto)]

ghost use Rattle.std.specs.Prelude.{◌≡◌, ◌+◌, ◌≤◌, ◌<◌, length, get_or, drop};
ghost use Rattle.text.specs.Over.{Written};
ghost use Rattle.wire.specs.Records.{record_at};
ghost use Rattle.cards.specs.Convert.{card_of, handed, room_after, to_card};
ghost use Rattle.card_writing.specs.Lines.{line_of, sign_word};

use cards::{Converted, hand_over};
use lines::put_line1;
use records::body_size;
use table::Read;
use text::{put_decimal, put_word};
use wire::{byte_at, byte_in, read};

// Writes the sign of a relation's number, after a blank.
fn put_sign(out: &mut [u8], to: usize, relation: usize) -> usize
    requires { to + 3 ≤ length out.old }
    ensures written { Written out.old to (sign_word relation) out.new result }
    ensures upper_bound { result ≤ to + 3 }
{
    if relation == 0 {
        return put_word(out, to, b" <");
    }
    if relation == 1 {
        return put_word(out, to, b" <=");
    }
    if relation == 2 {
        return put_word(out, to, b" =");
    }
    if relation == 3 {
        return put_word(out, to, b" >=");
    }
    put_word(out, to, b" >")
}

// Writes the line of a guard's record: its clock, its sign and its constant.
fn put_guard(bytes: &[u8], at: usize, out: &mut [u8], to: usize) -> usize
    requires { (at ≤ 4096) × (to + 45 ≤ length out.old) }
    ensures { Written out.old to (line_of (record_at at 2 (drop (at + 1) bytes.now))) out.new result }
{
    let clock = byte_at(bytes, at + 1);
    let relation = byte_at(bytes, at + 2);
    let low = byte_at(bytes, at + 3);
    let high = byte_at(bytes, at + 4);
    let sign = put_decimal(&mut *out, to, clock as u64);
    let constant = put_sign(&mut *out, sign, relation);
    put_line1(out, constant, b" ", (low + high * 256) as u64)
}

// Writes the line of the record at a place.
fn put_record(bytes: &[u8], at: usize, out: &mut [u8], to: usize) -> usize
    requires { (at < length bytes.now) × (length bytes.now ≤ 4096) × (to + 45 ≤ length out.old) }
    ensures { Written out.old to
        (line_of (record_at at (get_or bytes.now at 0) (drop (at + 1) bytes.now))) out.new result }
{
    let kind = byte_in(bytes, at);
    if kind == 1 {
        return put_line1(out, to, b"timers ", byte_at(bytes, at + 1) as u64);
    }
    if kind == 2 {
        return put_guard(bytes, at, out, to);
    }
    if kind == 3 {
        return put_line1(out, to, b"zero ", byte_at(bytes, at + 1) as u64);
    }
    if kind == 4 {
        return put_word(out, to, b"step\n");
    }
    put_word(out, to, b"end\n")
}

// Writes the card of a table; gives its length.
fn put_card(bytes: &[u8], out: &mut [u8]) -> usize
    requires { (length bytes.now ≤ 4096) × (length (card_of bytes.now) + 45 ≤ length out.old) }
    ensures { Written out.old 0 (card_of bytes.now) out.new result }
{
    let mut to: usize = 0;
    let mut at: usize = 0;
    while at < bytes.len() {
        to = put_record(bytes, at, &mut *out, to);
        at = at + 1 + body_size(byte_in(bytes, at));
    }
    to
}

// The places of a draft: the longest card, and what the writer of a line asks for.
const DRAFT: usize = 1405 + 45;

// Drafts the card of a table in a row of its own, and hands it over.
fn draft_card(bytes: &[u8], room: &mut [u8]) -> Converted
    requires { (length bytes.now ≤ 4096) × (length (card_of bytes.now) ≤ 1405) }
    ensures { (result ≡ handed (length (card_of bytes.now)) (length room.old))
        × (room.new ≡ room_after result (card_of bytes.now) room.old) }
{
    let mut draft: [u8; DRAFT] = [0; DRAFT];
    let n = put_card(bytes, &mut draft);
    hand_over(&draft, n, room)
}

// The card of a table's bytes. Written, it stands in the first places of the room, and all others keep their contents; refused, the room is as it was.
pub fn to_card(bytes: &[u8], room: &mut [u8]) -> Converted
    ensures { (result ≡ to_card bytes.now (length room.old))
        × (room.new ≡ room_after result (card_of bytes.now) room.old) }
{
    let answer = read(bytes);
    match answer {
        Read::Refused(refusal) => Converted::Refused(refusal),
        Read::Counted {
            clocks: _,
            steps: _,
            guards: _,
        } => draft_card(bytes, room),
    }
}
