// The report on a table, as text: its counts and its plan are by log-in. Each part is written from a place on, and gives the place after it.
#![tactic(auto)]

ghost use Rattle.std.specs.Prelude.{◌≡◌, ◌≤◌, length};
ghost use Rattle.table.specs.declared.Read.TheVariants as read;
ghost use Rattle.wire.specs.Reading.{read_of};
ghost use Rattle.render.specs.Reports.{Reported};
ghost use Rattle.render.specs.Writes.{WritesTable};

use count_lines::{planned, put_count, put_counted};
use runs::Start;
use table::Read;

// The report on a table that is read.
fn put_table(bytes: &[u8], clocks: usize, steps: usize, guards: usize, out: &mut [u8]) -> usize
    requires { (read_of bytes.now ≡ read.Counted clocks steps guards) × (4096 ≤ length out.old) }
    ensures writes_table { WritesTable bytes.now clocks steps guards out.old out.new result }
    ensures upper_bound { result ≤ 4096 }
{
    let count = rounds::rounds(bytes, Start::LogIn);
    let a = put_counted(&mut *out, 0, clocks, steps, guards);
    let b = put_count(&mut *out, a, count);
    let k = planned(count);
    if k == 0 {
        return b;
    }
    plan_report::put_rounds(bytes, k, clocks, steps, out, b)
}

// The report on a table's bytes. It stands in the first places of the room, and its length is answered; a room under 4,096
// places is not touched, and 0 is answered.
pub fn report(bytes: &[u8], out: &mut [u8]) -> usize
    ensures reported { Reported bytes.now out.old out.new result }
    ensures upper_bound { result ≤ 4096 }
{
    if out.len() < 4096 {
        return 0;
    }
    let answer = wire::read(bytes);
    match answer {
        Read::Counted {
            clocks,
            steps,
            guards,
        } => put_table(bytes, clocks, steps, guards, out),
        Read::Refused(refusal) => {
            let fault = refusal.fault;
            let number = table::number(fault);
            lines::put_line(
                out,
                0,
                &[(b"refused ", number), (b" at ", refusal.place as u64)],
            )
        }
    }
}
