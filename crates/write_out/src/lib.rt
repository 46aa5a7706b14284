// A table with stretches, written out to a lent room: the bytes of the table without stretches that it means.
#![tactic(auto)]

ghost use Rattle.std.specs.Prelude.{◌+◌, ◌-◌, ◌*◌, ◌≤◌, length};
ghost use Rattle.text.specs.Over.{Written};
ghost use Rattle.write_out.specs.Copies.{Repeats};
ghost use Rattle.write_out.specs.Due.{Due, Writes};
ghost use Rattle.format.specs.Encode.{encode};
ghost use Rattle.stretches.specs.Listing.{written_out};
ghost use Rattle.write_out.specs.Plain.{Accepted, written_in};

use records::body_size;
use stretches::read;
use table::Read;
use text::put_word;
use wire::byte_in;

// The place after what was read, and the place after what was written.
#[derive(Clone, Copy)]
struct Places {
    at: usize,
    end: usize,
}

// What stands in the room from a place up to another, so often as a number says; the place after it.
fn repeat(out: &mut [u8], from: usize, end: usize, times: usize) -> usize
    requires { (from ≤ end) × (1 ≤ times) × (from + times * (end - from) ≤ length out.old) }
    ensures { Repeats out.old from end times out.new result }
{
    let size = end - from;
    let stop = from + times * size;
    let mut j = end;
    while j < stop {
        out[j] = out[j - size];
        j += 1;
    }
    stop
}

// Writes the items from a place on, each stretch written out, up to the end of the table or of the stretch around them.
fn write_items(bytes: &[u8], from: usize, out: &mut [u8], start: usize) -> Places
    requires { Due bytes.now from (length out.old) start }
    ensures { Writes bytes.now from start out.old out.new result.at result.end }
{
    let mut at = from;
    let mut end = start;
    loop {
        let k = byte_in(bytes, at);
        if k == 5 {
            return Places { at, end };
        }
        if k == 8 {
            return Places { at, end };
        }
        if k == 7 {
            let times = byte_in(bytes, at + 1);
            let inner = write_items(bytes, at + 2, &mut *out, end);
            end = repeat(&mut *out, end, inner.end, times);
            at = inner.at + 1;
            continue;
        }
        let next = at + 1 + body_size(k);
        end = put_word(&mut *out, end, &bytes[at..next]);
        at = next;
    }
}

// Writes the table that accepted bytes mean, each stretch written out, to the front of the room, and gives its length.
pub fn write_table(bytes: &[u8], out: &mut [u8]) -> usize
    requires { Accepted bytes.now × (531 ≤ length out.old) }
    ensures { Written out.old 0 (encode (written_out bytes.now)) out.new result }
{
    let head = put_word(&mut *out, 0, &bytes[0..2]);
    let items = write_items(bytes, 2, &mut *out, head);
    let end = items.end;
    out[end] = 5;
    end + 1
}

// The same of any bytes: nothing is written, and 0 given, where they are refused, and where the room has fewer than 531 places,
// the most that a table written out can have.
pub fn write_out(bytes: &[u8], out: &mut [u8]) -> usize
    ensures { Written out.old 0 (written_in (length out.old) bytes.now) out.new result }
{
    if out.len() < 531 {
        return 0;
    }
    let answer = read(bytes);
    match answer {
        Read::Refused(_) => 0,
        Read::Counted {
            clocks: _,
            steps: _,
            guards: _,
        } => write_table(bytes, out),
    }
}
