// The card on the door: what a table is as text, and the laws of both conversions: specs/. The end of both: what was drafted is handed over.
#![tactic(auto)]

ghost use Rattle.std.specs.Prelude.{◌≡◌, ◌++◌, ◌≤◌, length, take, drop};
ghost use Rattle.cards.specs.Convert.{handed, room_after};

use table::{Fault, Refusal};

// The answer to a conversion: how many bytes were written, or why none were.
#[derive(Clone, Copy)]
pub enum Converted {
    Written(usize),
    Refused(Refusal),
}

// Writes the first n bytes of a draft over those of a room.
fn copy(draft: &[u8], n: usize, room: &mut [u8])
    requires { (n ≤ length draft.now) × (n ≤ length room.old) }
    ensures { room.new ≡ take n draft.now ++ drop n room.old }
{
    let mut i: usize = 0;
    while i < n {
        room[i] = draft[i];
        i = i + 1;
    }
}

// Hands over the first n bytes of a draft, if the room has so many places.
pub fn hand_over(draft: &[u8], n: usize, room: &mut [u8]) -> Converted
    requires { n ≤ length draft.now }
    ensures { (result ≡ handed n (length room.old))
        × (room.new ≡ room_after result (take n draft.now) room.old) }
{
    if room.len() < n {
        return Converted::Refused(Refusal {
            fault: Fault::Output,
            place: 0,
        });
    }
    copy(draft, n, room);
    Converted::Written(n)
}
