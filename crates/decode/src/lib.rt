// The table by value: accepted bytes to clocks, steps, guards and resets in arrays.
#![tactic(auto)]

ghost use Rattle.std.specs.Prelude.{◌≡◌, ◌≤◌, ◌+◌, length, drop};
ghost use Rattle.wire.specs.Records.{record_at, records};
ghost use Rattle.wire.specs.Reading.{read_of};
ghost use Rattle.wire.specs.Listing.{guard_in};
ghost use Rattle.filling.specs.Filling.{empty};
ghost use Rattle.decode.specs.Fill.{filled, table_of};

use filling::{empty_table, relation_of};
use records::body_size;
use table::{Guard, Read, Table};
use wire::{byte_at, read};

// The guard whose record begins at a place.
fn guard_at(bytes: &[u8], at: usize) -> Guard
    requires { at ≤ 4096 }
    ensures { result ≡ guard_in (record_at at 2 (drop (at + 1) bytes.now)) }
{
    let clock = byte_at(bytes, at + 1);
    let relation = relation_of(byte_at(bytes, at + 2));
    let low = byte_at(bytes, at + 3);
    let high = byte_at(bytes, at + 4);
    Guard {
        clock: clock as u8,
        second: 0,
        relation,
        minus: false,
        constant: (low + high * 256) as u16,
    }
}

// The table by value of all records. What does not fit is left out; in accepted bytes everything fits.
pub fn fill(bytes: &[u8]) -> Table
    requires { length bytes.now ≤ 4096 }
    ensures { result ≡ filled empty (records bytes.now) }
{
    let mut t = empty_table();
    let mut at: usize = 0;
    while at < bytes.len() {
        let k = byte_at(bytes, at);
        let step = t.steps;
        if k == 1 {
            t.clocks = byte_at(bytes, at + 1);
        } else if k == 2 {
            let count = t.ends[step + 1];
            if count < 64 {
                t.guards[count] = guard_at(bytes, at);
                t.ends[step + 1] = count + 1;
            }
        } else if k == 3 {
            let clock = byte_at(bytes, at + 1);
            if clock < 7 {
                t.resets[7 * step + clock] = true;
            }
        } else if k == 4 {
            if step < 16 {
                t.ends[step + 2] = t.ends[step + 1];
                t.steps = step + 1;
            }
        }
        at = at + 1 + body_size(k);
    }
    t
}

// The answer to the question "read", and the table by value; of refused bytes it is the empty one.
#[derive(Clone, Copy)]
pub struct Parsed {
    pub answer: Read,
    pub table: Table,
}

// What every other question starts from.
pub fn parse(bytes: &[u8]) -> Parsed
    ensures { (result.answer ≡ read_of bytes.now) × (result.table ≡ table_of bytes.now) }
{
    let answer = read(bytes);
    match answer {
        Read::Refused(_) => Parsed {
            answer,
            table: empty_table(),
        },
        Read::Counted {
            clocks: _,
            steps: _,
            guards: _,
        } => Parsed {
            answer,
            table: fill(bytes),
        },
    }
}
