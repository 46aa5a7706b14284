// The running record that a terminal holds, lent and updated at each scan.
#![tactic(auto)]

ghost use Rattle.std.specs.Prelude.{◌≡◌};
ghost use Rattle.scans.specs.Answer.{scan_of};

use scanning::scan;
use scans::{Running, Verdict};

// One scan. The record stays as it is where the scan is turned away or refused.
pub fn scan_lent(bytes: &[u8], running: &mut Running, counter: u16) -> Verdict
    ensures { (result ≡ (scan_of bytes.now running.old counter).verdict)
        × (running.new ≡ (scan_of bytes.now running.old counter).running) }
{
    let scanned = scan(bytes, *running, counter);
    *running = scanned.running;
    scanned.verdict
}
