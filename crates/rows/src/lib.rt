// The running record as terminals hold it, a row of eight numbers: the next step, the readings of clocks 1 to 6, and the last counter.
#![tactic(auto)]

ghost use Rattle.std.specs.Prelude.{◌≡◌, ◌≤◌, length};
ghost use Rattle.rows.specs.Row.{record_in, with_record};

use scans::Running;

// The record that a row holds.
#[tactic(auto, using(crate::specs::Row::readings_in))]
pub fn record_in(row: &[u16]) -> Running
    requires { 8 ≤ length row.now }
    ensures { result ≡ record_in row.now }
{
    let mut readings = [0; 6];
    readings.copy_from_slice(&row[1..7]);
    Running {
        step: row[0],
        readings,
        counter: row[7],
    }
}

// Puts a record into the first eight places of a row.
#[tactic(auto, using(crate::specs::Row::record_over))]
pub fn put_record(row: &mut [u16], r: Running)
    requires { 8 ≤ length row.old }
    ensures { row.new ≡ with_record row.old r }
{
    row[0] = r.step;
    row[1..7].copy_from_slice(&r.readings);
    row[7] = r.counter;
}
