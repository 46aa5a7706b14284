// A scan by bytes that may have stretches: that of the table written out. It is tried on the bytes themselves, and made on a copy only
// where a stretch stops it.
#![tactic(auto)]

ghost use Rattle.std.specs.Prelude.{◌≡◌};
ghost use Rattle.stretch_scan.specs.Scan.{at_stretch, scan_out};

use records::between;
use scanning::scan;
use scans::{Running, Scanned, Verdict};
use stretches::read;
use table::Read;
use wire::byte_at;
use write_out::write_table;

// Whether a scan was refused at a record of a stretch.
fn at_stretch(bytes: &[u8], verdict: Verdict) -> bool
    ensures { result ≡ at_stretch bytes.now verdict }
{
    match verdict {
        Verdict::Accepted => false,
        Verdict::TurnedAway(_) => false,
        Verdict::Refused(refusal) => {
            let place = refusal.place;
            between(7, byte_at(bytes, place), 8)
        }
    }
}

// One scan by the table written out.
fn scan_written(bytes: &[u8], running: Running, counter: u16) -> Scanned
    ensures { result ≡ scan_out bytes.now running counter }
{
    let answer = read(bytes);
    match answer {
        Read::Refused(refusal) => Scanned {
            verdict: Verdict::Refused(refusal),
            running,
        },
        Read::Counted {
            clocks: _,
            steps: _,
            guards: _,
        } => {
            let mut room: [u8; 531] = [0; 531];
            let end = write_table(bytes, &mut room);
            scan(&room[0..end], running, counter)
        }
    }
}

// One scan: what is found of it, and the record after it.
pub fn scan_out(bytes: &[u8], running: Running, counter: u16) -> Scanned
    ensures { result ≡ scan_out bytes.now running counter }
{
    let scanned = scan(bytes, running, counter);
    let verdict = scanned.verdict;
    if at_stretch(bytes, verdict) {
        return scan_written(bytes, running, counter);
    }
    scanned
}
