// Checks of difference constraints over lent bounds from above: each lowers a bound to what the constraint allows.
#![tactic(auto)]

ghost use Rattle.std.specs.Prelude.{◌≡◌};
ghost use Rattle.paths.specs.Constraint.{constraint};
ghost use Rattle.lowering.specs.Lowered.{bounds, lower_of};
ghost use Rattle.lowering.specs.Bounded.{Lowerable};

// What stands for no bound: 2^40, more than any bound there can be.
pub const NONE: u64 = 1099511627776;

// One check of the constraint late[to] + gain <= late[from] + loss. `low` is not above any vertex lowered before, and the answer
// not above `to` either where this check lowers it.
#[tactic(auto, unfolding(crate::specs::Lowered::lower_of))]
pub fn lower(late: &mut [u64], from: usize, to: usize, gain: u64, loss: u64, low: usize) -> usize
    requires { Lowerable (constraint from to gain loss) late.old }
    ensures { bounds late.new result ≡ lower_of (constraint from to gain loss) (bounds late.old low) }
{
    let bound = late[from];
    if NONE <= bound {
        return low;
    }
    let most = bound + loss;
    if most < late[to] + gain {
        late[to] = most - gain;
        return low.min(to);
    }
    low
}
