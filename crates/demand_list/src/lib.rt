// The list entry of the question "demands for k": the demands, written to a lent row of numbers and to a lent list of records.
#![tactic(auto)]

ghost use Rattle.std.specs.Prelude.{◌≡◌, ◌+◌, ◌*◌, ◌≤◌, ◌<◌, length};
ghost use Rattle.demands.specs.Listed.{listed_of, row_of};
ghost use Rattle.demand_list.specs.Lines.{list_room, list_of};
ghost use Rattle.demand_list.specs.Fill.{nat_of, count_of, line_at, filled};

use demands::Listed;
use runs::Start;

// A demand as a record: a bound in ticks, and strict as 0 or 1.
#[repr(C)]
#[derive(Clone, Copy)]
pub struct Line {
    pub from: u64,
    pub to: u64,
    pub bound: i64,
    pub strict: u64,
}

// The number, or 0 where it is below 0.
fn natural(x: i64) -> u64
    ensures { result ≡ nat_of x }
{
    if x < 0 {
        return 0;
    }
    x as u64
}

// The demand number i, from 0, of a row, as a record.
fn line_at(row: &[i64], i: usize) -> Line
    requires { i * 4 + 3 < length row.now }
    ensures { result ≡ line_at row.now i }
{
    let k = i * 4;
    let from = natural(row[k]);
    let to = natural(row[k + 1]);
    let bound = row[k + 2];
    let strict = natural(row[k + 3]);
    Line {
        from,
        to,
        bound,
        strict,
    }
}

// Writes the first demands of the row to the list, and keeps the rest of the list.
fn fill(list: &mut [Line], row: &[i64], count: usize)
    requires { (count ≤ length list.old) × (count * 4 ≤ length row.now) }
    ensures { list.new ≡ filled row.now count list.old }
{
    let mut i: usize = 0;
    while i < count {
        let d = line_at(row, i);
        list[i] = d;
        i = i + 1;
    }
}

// The number of demands that were written.
fn count_of(listed: Listed) -> usize
    ensures { result ≡ count_of listed }
{
    match listed {
        Listed::Written(n) => n,
        Listed::Refused(_) => 0,
    }
}

// The list entry: the demands are written to the row, and to the list as records.
pub fn demand_list(bytes: &[u8], start: Start, k: u64, row: &mut [i64], list: &mut [Line]) -> Listed
    ensures { (result ≡ listed_of bytes.now start k (list_room row.old list.old))
        × (row.new
        ≡ row_of bytes.now start k (list_room row.old list.old) row.old)
        × (list.new
        ≡ list_of bytes.now start k (list_room row.old list.old) list.old) }
{
    let limit = list.len();
    let listed = demands::rows(bytes, start, k, &mut *row, limit);
    let count = count_of(listed);
    fill(&mut *list, &*row, count);
    listed
}
