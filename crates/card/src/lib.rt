// The card on the door, for a terminal to call from C, where a slice is a pointer and a length. An answer is four numbers: 0, how many bytes
// were written, 0, 0; or the number of a refusal, its place, 0, 0. An answer room of fewer than four places gives false, and then no room
// changes.
#![tactic(auto)]

ghost use Rattle.std.specs.Prelude.{◌≡◌, length};
ghost use Rattle.answers.specs.Answered.{roomy, answered};
ghost use Rattle.cards.specs.Convert.{table_of, card_of, to_table, to_card};
ghost use Rattle.card.specs.Told.{converted_numbers, output_after};

use answers::{put, refused_numbers};
use cards::Converted;

// how many numbers an answer has
const PLACES: usize = 4;

fn converted_numbers(converted: Converted) -> [u64; 4]
    ensures { result ≡ converted_numbers converted }
{
    match converted {
        Converted::Written(bytes) => [0, bytes as u64, 0, 0],
        Converted::Refused(refusal) => refused_numbers(refusal),
    }
}

// Card to table: written, the table stands in the first bytes of its room, and all others are kept.
#[unsafe(no_mangle)]
pub extern "C" fn card_to_table(card: &[u8], table: &mut [u8], answer: &mut [u64]) -> bool
    ensures { (result ≡ roomy answer.old)
        × (table.new ≡ output_after answer.old (to_table card.now (length table.old)) (table_of card.now) table.old)
        × (answer.new ≡ answered answer.old (converted_numbers (to_table card.now (length table.old)))) }
{
    if answer.len() < PLACES {
        return false;
    }
    let converted = card_reading::to_table(card, table);
    put(answer, converted_numbers(converted));
    true
}

// Table to card: written, the card stands in the first bytes of its room, and all others are kept.
#[unsafe(no_mangle)]
pub extern "C" fn card_from_table(table: &[u8], card: &mut [u8], answer: &mut [u64]) -> bool
    ensures { (result ≡ roomy answer.old)
        × (card.new ≡ output_after answer.old (to_card table.now (length card.old)) (card_of table.now) card.old)
        × (answer.new ≡ answered answer.old (converted_numbers (to_card table.now (length card.old)))) }
{
    if answer.len() < PLACES {
        return false;
    }
    let converted = card_writing::to_card(table, card);
    put(answer, converted_numbers(converted));
    true
}
