// A moment in seconds. Moments are whole numbers of parts of a tick, and a tick is a tenth of a second.
#![tactic(auto)]

ghost use Rattle.std.specs.Prelude.{◌≡◌, ◌*◌, ◌<◌, ◌^◌};
ghost use Rattle.seconds.specs.Seconds.{seconds_of, Nearest};

// The moment over ten times the parts, rounded once: no binary64 number is nearer to the exact fraction, and of two that are equally
// near it is the one with an even last digit.
pub fn seconds(moment: u64, parts: u64) -> f64
    requires { (moment < 2 ^ 53) × (0 < parts) × (10 * parts < 2 ^ 53) }
    ensures is { result ≡ seconds_of moment parts }
    ensures nearest { Nearest result moment (10 * parts) }
{
    let elapsed = moment as f64;
    let second = (10 * parts) as f64;
    elapsed / second
}
