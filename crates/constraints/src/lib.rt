// What the difference constraints (01: demands) of k rounds of a table are made of: the last resets, and the demands of a guard.
#![tactic(auto)]

ghost use Rattle.std.specs.Prelude.{◌≡◌, false, map, ◌≤◌, ◌<◌, length, get_or};
ghost use Rattle.table.specs.Step.{up_of, down_of, end_of};
ghost use Rattle.runs.specs.Demand.{plus, starts_of, moved};
ghost use Rattle.runs.specs.Parts.{bit};
ghost use Rattle.constraints.specs.Pieces.{fresh, reset_of, following_of, guard_demand, twice_of};
ghost use Rattle.constraints.specs.Partner.{partners_of, partner_list};

use runs::{Demand, Start};
use table::{Guard, Relation};

// The last resets before the first of `total` steps: that of clock j is moment total + j. Place 0 is not used.
pub fn fresh(total: usize) -> [usize; 7]
    requires { total ≤ 1024 }
    ensures { result ≡ fresh total }
{
    std::array::from_fn(|j| total + j)
}

// "From a to b of up − down".
fn demand(from: usize, to: usize, up: u64, down: u64, strict: bool) -> Demand
    ensures { result ≡ record { from = from; to = to; up = up; down = down; strict = strict } }
{
    Demand {
        from,
        to,
        up,
        down,
        strict,
    }
}

// "From a to b of 0": moment b is not after moment a.
pub fn not_after(from: usize, to: usize) -> Demand
    ensures { result ≡ plus from to 0 false }
{
    demand(from, to, 0, 0, false)
}

// What the constant of a guard adds, and what it takes off, in ticks: one of the two is 0.
#[tactic(auto, unfolding(table::specs::Step::up_of))]
pub fn up_of(guard: Guard) -> u64
    ensures { result ≡ up_of guard }
{
    if guard.minus {
        0
    } else {
        guard.constant as u64
    }
}

#[tactic(auto, unfolding(table::specs::Step::down_of))]
pub fn down_of(guard: Guard) -> u64
    ensures { result ≡ down_of guard }
{
    if guard.minus {
        guard.constant as u64
    } else {
        0
    }
}

// The moment that a guard's clock is compared with: that of the step, or of the second clock's last reset.
#[tactic(auto, using(table::specs::Step::end_none, table::specs::Step::end_some))]
pub fn end_of(second: usize, i: usize, resets: &[usize]) -> usize
    requires { second < length resets.now }
    ensures { result ≡ end_of second i (λ j. get_or resets.now j 0) }
{
    if second == 0 { i } else { resets[second] }
}

// The first or the second demand of a guard with constant up − down, when its clock was last reset at moment z, and is compared with moment e.
pub fn guard_demand(
    relation: Relation,
    up: u64,
    down: u64,
    z: usize,
    e: usize,
    second: bool,
) -> Demand
    ensures { result ≡ guard_demand relation up down z e second }
{
    match relation {
        Relation::Under => demand(z, e, up, down, true),
        Relation::AtMost => demand(z, e, up, down, false),
        Relation::Exactly => {
            if second {
                return demand(e, z, down, up, false);
            }
            demand(z, e, up, down, false)
        },
        Relation::AtLeast => demand(e, z, down, up, false),
        Relation::Over => demand(e, z, down, up, true),
    }
}

// 1 for a strict demand.
pub fn bit_of(strict: bool) -> u64
    ensures { result ≡ bit strict }
{
    u64::from(strict)
}

// The clocks that step s resets were last reset at its moment.
#[tactic(auto, using(crate::specs::Resets::reset_now, crate::specs::Resets::reset_kept), unfolding(crate::specs::Pieces::reset_to))]
pub fn reset_clocks(flags: &[bool; 119], s: usize, moment: usize, resets: &mut [usize])
    requires { (length flags.now ≡ 119) × (s ≤ 16) × (length resets.old ≡ 7) }
    ensures { resets.new ≡ reset_of flags.now s moment resets.old }
{
    for j in 0..7 {
        if flags[7 * s + j] {
            resets[j] = moment;
        }
    }
}

// The step of a round that follows step s.
pub fn following(s: usize, steps: usize) -> usize
    requires { s < 16 }
    ensures { result ≡ following_of s steps }
{
    if s + 1 == steps { 0 } else { s + 1 }
}

// Whether a guard has two demands.
pub fn twice(relation: Relation) -> bool
    ensures { result ≡ twice_of relation }
{
    matches!(relation, Relation::Exactly)
}

// The demand that a variant of the start has for a clock, besides that its last reset is not after the start (N1: its partner).
#[derive(Clone, Copy)]
pub enum Partner {
    One(Demand),
    None,
}

// The partner for clock j, when there are `total` steps.
#[tactic(auto, using(crate::specs::Partner::partner_one, crate::specs::Partner::partner_none))]
pub fn partner_of(start: Start, total: usize, j: usize) -> Partner
    requires { (total ≤ 1024) × (0 < j) × (j ≤ 6) }
    ensures { partner_list result ≡ map (moved total) (starts_of start j) }
{
    match start {
        Start::LogIn => Partner::One(not_after(total + j, 0)),
        Start::MidShift => Partner::None,
    }
}

// The number of partners for each clock.
pub fn partners(start: Start) -> usize
    ensures { result ≡ partners_of start }
{
    match start {
        Start::LogIn => 1,
        Start::MidShift => 0,
    }
}
