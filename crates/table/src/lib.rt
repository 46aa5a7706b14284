// A timing table as the questions use it: clocks (01: timers), and steps with guards (bounds) and resets (zeroings).
#![tactic(auto)]

ghost use Rattle.std.specs.Prelude.{◌≡◌};
ghost use Rattle.table.specs.Refusal.{number_of};

// How a guard compares a clock's reading with its constant. On the wire these are 0 to 4, in this order.
#[derive(Clone, Copy)]
pub enum Relation {
    Under,
    AtMost,
    Exactly,
    AtLeast,
    Over,
}

// A guard on a clock, which is 1 to 6; or on its reading less that of a second clock, which is 0 where there is none. The constant is
// less than 0 where `minus` is true.
#[derive(Clone, Copy)]
pub struct Guard {
    pub clock: u8,
    pub second: u8,
    pub relation: Relation,
    pub minus: bool,
    pub constant: u16,
}

// A table by value. Step i, from 0, has the guards from ends[i] up to ends[i + 1], in table order, and resets clock j where
// resets[7 * i + j] is true.
#[derive(Clone, Copy)]
pub struct Table {
    pub clocks: usize,
    pub steps: usize,
    pub guards: [Guard; 64],
    pub ends: [usize; 18],
    pub resets: [bool; 119],
}

// Why a table, a number of rounds, a room, a running record, a tray of scans or a card is refused: a word for each, in the order of their
// numbers, 1 to 21.
#[derive(Clone, Copy)]
pub enum Fault {
    Length,
    Cut,
    Kind,
    Head,
    Bounds,
    Timer,
    Relation,
    Constant,
    Steps,
    Tail,
    Rounds,
    Times,
    Starts,
    Loop,
    List,
    Twice,
    Record,
    Tray,
    Verdicts,
    Card,
    Output,
    Stretch,
}

// A refusal: why, and the byte's place.
#[derive(Clone, Copy)]
pub struct Refusal {
    pub fault: Fault,
    pub place: usize,
}

// The answer to the question "read".
#[derive(Clone, Copy)]
pub enum Read {
    Counted {
        clocks: usize,
        steps: usize,
        guards: usize,
    },
    Refused(Refusal),
}

// 01's number of a fault.
pub fn number(fault: Fault) -> u64
    ensures { result ≡ number_of fault }
{
    match fault {
        Fault::Length => 1,
        Fault::Cut => 2,
        Fault::Kind => 3,
        Fault::Head => 4,
        Fault::Bounds => 5,
        Fault::Timer => 6,
        Fault::Relation => 7,
        Fault::Constant => 8,
        Fault::Steps => 9,
        Fault::Tail => 10,
        Fault::Rounds => 11,
        Fault::Times => 12,
        Fault::Starts => 13,
        Fault::Loop => 14,
        Fault::List => 15,
        Fault::Twice => 16,
        Fault::Record => 17,
        Fault::Tray => 18,
        Fault::Verdicts => 19,
        Fault::Card => 20,
        Fault::Output => 21,
        Fault::Stretch => 23,
    }
}
