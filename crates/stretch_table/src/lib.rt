// The table by value of bytes that may have stretches: that of the table written out.
#![tactic(auto)]

ghost use Rattle.std.specs.Prelude.{◌≡◌};
ghost use Rattle.stretches.specs.Reading.{read_out};
ghost use Rattle.decode.specs.Fill.{table_of};
ghost use Rattle.write_out.specs.Plain.{plain_of, Accepted};

use decode::{Parsed, fill};
use filling::empty_table;
use stretches::read_whole;
use table::{Read, Table};
use write_out::write_table;

// The table by value of accepted bytes, filled from the table written out.
fn fill_out(bytes: &[u8]) -> Table
    requires { Accepted bytes.now }
    ensures { result ≡ table_of (plain_of bytes.now) }
{
    let mut room: [u8; 531] = [0; 531];
    let end = write_table(bytes, &mut room);
    fill(&room[0..end])
}

// The answer to the question "read", and the table by value; of refused bytes it is the empty one. Where no stretch comes it is filled
// from the bytes themselves.
pub fn parse_out(bytes: &[u8]) -> Parsed
    ensures { (result.answer ≡ read_out bytes.now) × (result.table ≡ table_of (plain_of bytes.now)) }
{
    let whole = read_whole(bytes);
    let answer = whole.answer;
    match answer {
        Read::Refused(_) => Parsed {
            answer,
            table: empty_table(),
        },
        Read::Counted {
            clocks: _,
            steps: _,
            guards: _,
        } => {
            if whole.first == bytes.len() {
                return Parsed {
                    answer,
                    table: fill(bytes),
                };
            }
            Parsed {
                answer,
                table: fill_out(bytes),
            }
        }
    }
}
