// Log-in and scans, for a terminal to call from C, where a slice is a pointer and a length. The running record is a row of eight numbers:
// the next step, the readings of clocks 1 to 6, and the last counter. An answer is four numbers, as for the questions of `judge`. A row of
// fewer than eight places, or an answer room of fewer than four, gives false, and then no room changes.
#![tactic(auto)]

ghost use Rattle.std.specs.Prelude.{◌≡◌};
ghost use Rattle.scans.specs.Scan.{log_in};
ghost use Rattle.rows.specs.Row.{holds_record, with_record};
ghost use Rattle.rows.specs.Asked.{asked};
ghost use Rattle.scan.specs.Told.{verdict_numbers, running_after, answer_after};

use answers::{put, refused_numbers};
use rows::{put_record, record_in};
use scans::{Verdict, log_in};

// how many numbers a running record and an answer have
const RECORD: usize = 8;

const PLACES: usize = 4;

fn verdict_numbers(verdict: Verdict) -> [u64; 4]
    ensures { result ≡ verdict_numbers verdict }
{
    match verdict {
        Verdict::Accepted => [0, 0, 0, 0],
        Verdict::TurnedAway(guard) => [0, guard as u64, 0, 0],
        Verdict::Refused(refusal) => refused_numbers(refusal),
    }
}

// Log-in at a counter.
#[unsafe(no_mangle)]
pub extern "C" fn scan_log_in(counter: u16, running: &mut [u16]) -> bool
    ensures { (result ≡ holds_record running.old)
        × (running.new ≡ with_record running.old (log_in counter)) }
{
    if running.len() < RECORD {
        return false;
    }
    put_record(running, log_in(counter));
    true
}

// One scan at a counter: 0, 0, 0, 0 where it is accepted; 0, the number of the first guard of the next step that does not hold, 0, 0 where
// it is turned away.
#[unsafe(no_mangle)]
pub extern "C" fn scan_one(
    table: &[u8],
    counter: u16,
    running: &mut [u16],
    answer: &mut [u64],
) -> bool
    ensures { (result ≡ asked running.old answer.old)
        × (running.new ≡ running_after table.now counter running.old answer.old)
        × (answer.new ≡ answer_after table.now counter running.old answer.old) }
{
    if running.len() < RECORD {
        return false;
    }
    if answer.len() < PLACES {
        return false;
    }
    let record = record_in(running);
    let scanned = scanning::scan(table, record, counter);
    let verdict = scanned.verdict;
    let after = scanned.running;
    put_record(running, after);
    put(answer, verdict_numbers(verdict));
    true
}
