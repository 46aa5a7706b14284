// A tray of scans, for a terminal to call from C, where a slice is a pointer and a length. The running record is a row of eight numbers, as
// for the scans of `scan`, and an answer is four. A row of fewer than eight places, or an answer room of fewer than four, gives false, and then
// no room changes.
#![tactic(auto)]

ghost use Rattle.std.specs.Prelude.{◌≡◌};
ghost use Rattle.rows.specs.Asked.{asked};
ghost use Rattle.tray.specs.Told.{outcome_numbers, running_after, verdicts_after, answer_after};

use answers::{put, refused_numbers};
use rows::{put_record, record_in};
use trays::Outcome;

// how many numbers a running record and an answer have
const RECORD: usize = 8;

const PLACES: usize = 4;

fn outcome_numbers(outcome: Outcome) -> [u64; 4]
    ensures { result ≡ outcome_numbers outcome }
{
    match outcome {
        Outcome::Counted(accepted) => [0, accepted as u64, 0, 0],
        Outcome::Refused(refusal) => refused_numbers(refusal),
    }
}

// Scans at some counters, given together: 0, the number accepted, 0, 0. The verdict of each stands in the room, 0 where it is accepted, else
// the number of the first guard of the step that does not hold.
#[unsafe(no_mangle)]
pub extern "C" fn tray_scan(
    table: &[u8],
    counters: &[u16],
    running: &mut [u16],
    verdicts: &mut [u16],
    answer: &mut [u64],
) -> bool
    ensures { (result ≡ asked running.old answer.old)
        × (running.new ≡ running_after table.now counters.now running.old verdicts.old answer.old)
        × (verdicts.new ≡ verdicts_after table.now counters.now running.old verdicts.old answer.old)
        × (answer.new ≡ answer_after table.now counters.now running.old verdicts.old answer.old) }
{
    if running.len() < RECORD {
        return false;
    }
    if answer.len() < PLACES {
        return false;
    }
    let record = record_in(running);
    let trayed = traying::tray(table, record, counters, verdicts);
    let outcome = trayed.outcome;
    let after = trayed.running;
    put_record(running, after);
    put(answer, outcome_numbers(outcome));
    true
}
