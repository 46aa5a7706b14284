// The order in which passes check the demands of k rounds, forth over those that raise a later moment and back over the others; and
// the demand that a key stands for.
#![tactic(auto)]

ghost use Rattle.std.specs.Prelude.{◌≡◌, true, false, ◌<◌};
ghost use Rattle.sides.specs.Sides.{none};
ghost use Rattle.sides.specs.Tight.{key_demand};

use runs::Demand;
use sides::TOP_WEAK;

// The demand of a key from above, at moment i on a clock last reset at moment z.
#[tactic(auto, unfolding(sides::specs::Tight::key_demand))]
pub fn upper_demand(key: u64, z: usize, i: usize) -> Demand
    ensures { result ≡ key_demand true key z i }
{
    Demand {
        from: z,
        to: i,
        up: key / 2,
        down: 0,
        strict: key % 2 == 0,
    }
}

// The demand of a key from below.
#[tactic(auto, unfolding(sides::specs::Tight::key_demand))]
pub fn lower_demand(key: u64, z: usize, i: usize) -> Demand
    requires { key < none }
    ensures { result ≡ key_demand false key z i }
{
    Demand {
        from: i,
        to: z,
        up: 0,
        down: (TOP_WEAK - key) / 2,
        strict: key % 2 == 0,
    }
}
