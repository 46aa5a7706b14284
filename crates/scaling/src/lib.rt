// The constants of a table's guards (01: bounds) in parts of a tick. Each is scaled once, and all copies of its guard in k rounds use that number.
#![tactic(auto)]

ghost use Rattle.std.specs.Prelude.{◌≡◌, ◌*◌, ◌≤◌, replicate};
ghost use Rattle.table.specs.Step.{Good};
ghost use Rattle.scaling.specs.Scaled.{scaled_of};

use table::Table;

// The largest number of a guard: 4,000, in 1,031 parts to a tick.
pub const MOST: u64 = 4000 * 1031;

// A constant in parts.
fn times(constant: u16, parts: u64) -> u64
    requires { parts ≤ 1031 }
    ensures { result ≡ constant * parts }
{
    constant as u64 * parts
}

// Puts for each guard, in table order, its constant times the parts to a tick into a row of zeros.
pub fn put_scaled(t: Table, parts: u64, row: &mut [u64; 64])
    requires { Good t × (parts ≤ 1031) × (row.old ≡ replicate 64 0) }
    ensures { row.new ≡ scaled_of parts t }
{
    let end = t.ends[t.steps];
    for i in 0..end {
        let g = t.guards[i];
        row[i] = times(g.constant, parts);
    }
}
