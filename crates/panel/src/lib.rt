// The wall panel, for a terminal to call from C, where a slice is a pointer and a length. Runs start at log-in. A refusal is 01's
// number and its place.
#![tactic(auto)]

ghost use Rattle.std.specs.Prelude.{◌≡◌};
ghost use Rattle.windows.specs.Answer.{rooms};
ghost use Rattle.widest.specs.declared.Answer.TheVariants.{Told, Refused};
ghost use Rattle.answers.specs.Answered.{roomy};
ghost use Rattle.panel.specs.Numbers.{panel_numbers, widest_numbers};
ghost use Rattle.panel.specs.Told.{WindowsTold, WidestTold};

use answers::{put, refused_numbers};
use table::Refusal;
use widest::Answer;
use window::{Choice, Interval};
use windows::Panel;

// how many numbers an answer has
const PLACES: usize = 4;

// The answer to "widest": the number and the place of a refusal, or 0; a mark, 2 where a window is closed, else 0; and the two times.
#[repr(C)]
#[derive(Clone, Copy)]
pub struct WidestAnswer {
    pub number: u64,
    pub place: u64,
    pub mark: u64,
    pub first: f64,
    pub last: f64,
}

fn panel_numbers(answer: Panel) -> [u64; 4]
    ensures { result ≡ panel_numbers answer }
{
    match answer {
        Panel::Shown(steps) => [0, steps as u64, 0, 0],
        Panel::Refused(refusal) => refused_numbers(refusal),
    }
}

fn choice_numbers(choice: Choice) -> WidestAnswer
    ensures { result ≡ widest_numbers (Told choice) }
{
    match choice {
        Choice::Widest(times) => WidestAnswer {
            number: 0,
            place: 0,
            mark: 2,
            first: times.first,
            last: times.last,
        },
        Choice::NoneClosed => WidestAnswer {
            number: 0,
            place: 0,
            mark: 0,
            first: 0.0,
            last: 0.0,
        },
    }
}

fn refusal_numbers(refusal: Refusal) -> WidestAnswer
    ensures { result ≡ widest_numbers (Refused refusal) }
{
    let fault = refusal.fault;
    WidestAnswer {
        number: table::number(fault),
        place: refusal.place as u64,
        mark: 0,
        first: 0.0,
        last: 0.0,
    }
}

fn widest_numbers(answer: Answer) -> WidestAnswer
    ensures { result ≡ widest_numbers answer }
{
    match answer {
        Answer::Told(choice) => choice_numbers(choice),
        Answer::Refused(refusal) => refusal_numbers(refusal),
    }
}

// The question "windows of k rounds": 0, how many steps are shown, 0, 0, and their windows are in the two rooms; or a refusal's number
// and place, 0, 0. An answer room of fewer than four places gives false, and then no room changes.
#[unsafe(no_mangle)]
pub extern "C" fn panel_windows(
    table: &[u8],
    k: u64,
    marks: &mut [u8],
    times: &mut [f64],
    answer: &mut [u64],
) -> bool
    ensures { (result ≡ roomy answer.old)
        × WindowsTold result table.now k
        (rooms marks.old times.old) (rooms marks.new times.new)
        answer.old answer.new }
{
    if answer.len() < PLACES {
        return false;
    }
    let numbers = panel_numbers(windows::windows(table, k, marks, times));
    put(answer, numbers);
    true
}

// The question "widest window of k rounds".
#[unsafe(no_mangle)]
pub extern "C" fn panel_widest(table: &[u8], k: u64) -> WidestAnswer
    ensures { WidestTold table.now k result }
{
    widest_numbers(widest::widest(table, k))
}
