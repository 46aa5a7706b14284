// The question "rounds": how many rounds of a table have a run from a start that the variant allows.
#![tactic(auto)]

ghost use Rattle.std.specs.Prelude.{◌≡◌, ◌+◌, length};
ghost use Rattle.table.specs.Step.{steps_of, Good};
ghost use Rattle.runs.specs.Demand.{starts_of};
ghost use Rattle.wire.specs.Reading.{read_of};
ghost use Rattle.effects.specs.Starts.{starts_for};
ghost use Rattle.effects.specs.Whole.{Side};
ghost use Rattle.joins.specs.Round.{UsesAll};
ghost use Rattle.rounds.specs.First.{First};
ghost use Rattle.rounds.specs.Answer.{Counts, Answers};
ghost use Rattle.rounds.specs.Counting.{Finds};

use admitting::admits;
use climbing::{down, up};
use decode::parse;
use joins::round_effect;
use runs::Start;
use table::{Read, Refusal, Table};

// The answer: the greatest number of rounds that has a run, that every number has one, or a refusal.
#[derive(Clone, Copy)]
pub enum Count {
    Finite(u64),
    Endless,
    Refused(Refusal),
}

// The effect of one round of a table at place 0 of the row, and whether it runs from a start that the variant allows.
fn first_round(
    row: &mut [u64],
    out: &mut [u64],
    left: &mut [u64],
    t: Table,
    start: Start,
    side: usize,
) -> bool
    requires { (length row.old ≡ 4900) × (length out.old ≡ 441) × (length left.old ≡ 441) × Good t × Side side
        × UsesAll side t }
    ensures { First side (starts_for side start) (steps_of t) result row.new }
{
    let one = round_effect(row, out, t, side);
    if !one {
        return false;
    }
    admits(row, 0, 14, left, start, side)
}

// What the search finds: that every number of rounds runs, and a place of the row with an effect whose left part is settled; or the count.
#[derive(Clone, Copy)]
pub struct Found {
    pub endless: bool,
    pub place: usize,
    pub count: u64,
}

// The search for the count of an accepted table, whose clocks are looked at and no others, in lent rows.
pub fn search(row: &mut [u64], out: &mut [u64], left: &mut [u64], t: Table, start: Start) -> Found
    requires { (length row.old ≡ 4900) × (length out.old ≡ 441) × (length left.old ≡ 441) × Good t
        × UsesAll (t.clocks + 1) t }
    ensures { Finds t start result.endless result.place result.count row.new }
{
    let side = t.clocks + 1;
    let one = first_round(row, out, left, t, start, side);
    if !one {
        return Found {
            endless: false,
            place: 0,
            count: 0,
        };
    }
    let top = up(row, out, left, start, side);
    let place = top.place;
    let settled = top.settled;
    if place == 24 {
        return Found {
            endless: true,
            place: settled,
            count: 0,
        };
    }
    let count = down(row, out, left, start, place, top.power, side);
    Found {
        endless: false,
        place: place,
        count: count,
    }
}

// The count of an accepted table.
fn rounds_of(t: Table, start: Start) -> Count
    requires { Good t × UsesAll (t.clocks + 1) t }
    ensures { Counts t.clocks (starts_of start) (steps_of t) result }
{
    let mut row: [u64; 4900] = [0; 4900];
    let mut out: [u64; 441] = [0; 441];
    let mut left: [u64; 441] = [0; 441];
    let found = search(&mut row, &mut out, &mut left, t, start);
    if found.endless {
        return Count::Endless;
    }
    Count::Finite(found.count)
}

// The answer to the question "rounds", for a variant of the start.
pub fn rounds(bytes: &[u8], start: Start) -> Count
    ensures { Answers (read_of bytes.now) bytes.now start result }
{
    let parsed = parse(bytes);
    let answer = parsed.answer;
    match answer {
        Read::Refused(refusal) => Count::Refused(refusal),
        Read::Counted { .. } => {
            let table = parsed.table;
            rounds_of(table, start)
        }
    }
}
