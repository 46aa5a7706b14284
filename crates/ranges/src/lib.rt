// The whole readings that each guard of a table allows, as ranges: from the least to one past the greatest.
#![tactic(auto)]

ghost use Rattle.std.specs.Prelude.{◌≡◌, ◌≤◌};
ghost use Rattle.ranges.specs.Allowed.{range_of, ranges_of, Asked, inside, first_outside};

use table::{Guard, Relation, Table};

// The readings that a guard allows its clock: from the least to one past the greatest.
#[derive(Clone, Copy)]
pub struct Range {
    pub clock: usize,
    pub least: usize,
    pub past: usize,
}

// One past any reading: readings are held at 4,001.
const PAST_ALL: usize = 4002;

// The readings that a guard allows.
fn range_of(g: Guard) -> Range
    ensures { result ≡ range_of g }
{
    let c = g.constant as usize;
    let (least, past) = match g.relation {
        Relation::Under => (0, c),
        Relation::AtMost => (0, c + 1),
        Relation::Exactly => (c, c + 1),
        Relation::AtLeast => (c, PAST_ALL),
        Relation::Over => (c + 1, PAST_ALL),
    };
    Range {
        clock: g.clock as usize,
        least,
        past,
    }
}

// Those of all guards of a table, in table order.
#[tactic(auto, using(std::proofs::lemmas::List::map_more))]
pub fn ranges_of(t: Table) -> [Range; 64]
    ensures { result ≡ ranges_of t }
{
    let mut out = [Range {
        clock: 0,
        least: 0,
        past: 0,
    }; 64];
    for (k, guard) in t.guards.iter().enumerate() {
        out[k] = range_of(*guard);
    }
    out
}

impl Range {
    // Whether the reading of its clock is one of them.
    fn has(&self, readings: &[u16; 6]) -> bool
        requires { (1 ≤ self.now.clock) × (self.now.clock ≤ 6) }
        ensures { result ≡ inside readings.now self.now }
    {
        let reading = readings[self.clock - 1] as usize;
        self.least <= reading && reading < self.past
    }
}

// The number of the first guard, among some, whose clock has a reading that it does not allow, where there is one.
pub fn first_outside(ranges: &[Range], readings: &[u16; 6]) -> Option<usize>
    requires { Asked ranges.now }
    ensures { result ≡ first_outside readings.now ranges.now }
{
    ranges
        .iter()
        .position(|range| !range.has(readings))
        .map(|k| k + 1)
}
