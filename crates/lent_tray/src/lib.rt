// The running record that a terminal holds, lent and updated by a tray of scans.
#![tactic(auto)]

ghost use Rattle.std.specs.Prelude.{◌≡◌, length};
ghost use Rattle.trays.specs.Answer.{outcome_of, running_of, verdicts_of};

use scans::Running;
use traying::tray;
use trays::Outcome;

// A tray of scans. Where it is refused, the record and the room for the verdicts stay as they are.
pub fn tray_lent(
    bytes: &[u8],
    running: &mut Running,
    counters: &[u16],
    verdicts: &mut [u16],
) -> Outcome
    ensures { (result ≡ outcome_of bytes.now running.old counters.now (length verdicts.old))
        × (running.new ≡ running_of bytes.now running.old counters.now (length verdicts.old))
        × (verdicts.new ≡ verdicts_of bytes.now running.old counters.now verdicts.old) }
{
    let trayed = tray(bytes, *running, counters, verdicts);
    *running = trayed.running;
    trayed.outcome
}
