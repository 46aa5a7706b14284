// Four numbers in a lent answer room, as terminals get every answer; and those of a refusal and of the answer to "read".
#![tactic(auto)]

ghost use Rattle.std.specs.Prelude.{◌≡◌};
ghost use Rattle.answers.specs.Four.{refused_numbers, read_numbers};
ghost use Rattle.answers.specs.Answered.{answered};

use table::{Read, Refusal};

pub fn refused_numbers(refusal: Refusal) -> [u64; 4]
    ensures { result ≡ refused_numbers refusal }
{
    let fault = refusal.fault;
    let number = table::number(fault);
    let place = refusal.place as u64;
    [number, place, 0, 0]
}

pub fn read_numbers(answer: Read) -> [u64; 4]
    ensures { result ≡ read_numbers answer }
{
    match answer {
        Read::Counted {
            clocks,
            steps,
            guards,
        } => [0, clocks as u64, steps as u64, guards as u64],
        Read::Refused(refusal) => refused_numbers(refusal),
    }
}

// Writes four numbers to the first places; a room with fewer is kept.
pub fn put(room: &mut [u64], numbers: [u64; 4])
    ensures { room.new ≡ answered room.old numbers }
{
    if room.len() < 4 {
        return;
    }
    room[0] = numbers[0];
    room[1] = numbers[1];
    room[2] = numbers[2];
    room[3] = numbers[3];
}
