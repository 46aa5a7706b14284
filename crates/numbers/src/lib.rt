// The four numbers of the answers to "rounds", "plan" and "demands": 01's number of a refusal, its place, 0, 0; or 0 and the values.
#![tactic(auto)]

ghost use Rattle.std.specs.Prelude.{◌≡◌};
ghost use Rattle.numbers.specs.Numbers.{count_numbers, plan_numbers, demands_numbers};

use answers::refused_numbers;
use demands::Listed;
use plan::Outcome;
use rounds::Count;

pub fn count_numbers(answer: Count) -> [u64; 4]
    ensures { result ≡ count_numbers answer }
{
    match answer {
        Count::Finite(count) => [0, 0, count, 0],
        Count::Endless => [0, 1, 0, 0],
        Count::Refused(refusal) => refused_numbers(refusal),
    }
}

pub fn plan_numbers(answer: Outcome) -> [u64; 4]
    ensures { result ≡ plan_numbers answer }
{
    match answer {
        Outcome::Found(parts) => [0, 0, parts, 0],
        Outcome::Loop(length) => [0, 1, length as u64, 0],
        Outcome::Refused(refusal) => refused_numbers(refusal),
    }
}

pub fn demands_numbers(answer: Listed) -> [u64; 4]
    ensures { result ≡ demands_numbers answer }
{
    match answer {
        Listed::Written(count) => [0, count as u64, 0, 0],
        Listed::Refused(refusal) => refused_numbers(refusal),
    }
}
