// Checks of difference constraints over lent times, and the search for cycles of parents.
#![tactic(auto)]

ghost use Rattle.std.specs.Prelude.{◌≡◌, ◌<◌, ◌≤◌, length};
ghost use Rattle.basics.specs.Places.{filled};
ghost use Rattle.paths.specs.Constraint.{constraint};
ghost use Rattle.paths.specs.State.{state};
ghost use Rattle.paths.specs.Bounds.{Relaxable};
ghost use Rattle.paths.specs.Code.{Check, Returns, Wrote};
ghost use Rattle.paths.specs.Search.{Searchable, Unmarked, Met, Search};
ghost use Rattle.paths.specs.Sweep.{Trailed};

// One check of the constraint time[to] + gain <= time[from] + loss, with the stamp q: whether it raised time[from].
pub fn relax(
    time: &mut [u64],
    parent: &mut [u64],
    stamp: &mut [u64],
    from: usize,
    to: usize,
    gain: u64,
    loss: u64,
    q: u64,
) -> bool
    requires { Relaxable (constraint from to gain loss) (state time.old parent.old stamp.old) }
    ensures { Check (constraint from to gain loss) q
        (state time.old parent.old stamp.old)
        (state time.new parent.new stamp.new) result }
{
    let x = time[from];
    let y = time[to];
    if x + loss < y + gain {
        time[from] = y + gain - loss;
        parent[from] = to as u64;
        stamp[from] = q;
        return true;
    }
    false
}

// Writes the vertices from u round to u again, and says how many they are.
pub fn write_cycle(parent: &[u64], u: usize, out: &mut [u64]) -> usize
    requires { Returns parent.now (length out.old) u }
    ensures { Wrote parent.now u out.old out.new result }
{
    out[0] = u as u64;
    let mut x = parent[u] as usize;
    let mut k: usize = 1;
    while x != u {
        out[k] = x as u64;
        x = parent[x] as usize;
        k += 1;
    }
    k
}

// Sets the first n places to v.
pub fn fill(xs: &mut [u64], n: usize, v: u64)
    requires { n ≤ length xs.old }
    ensures { xs.new ≡ filled v n xs.old }
{
    xs[..n].fill(v);
}

// Marks the walk of parents from v with v + 1, as far as vertices are stamped and not marked: where it ends.
fn mark(parent: &[u64], stamp: &[u64], marks: &mut [u64], v: usize, n: usize) -> usize
    requires { Searchable n parent.now stamp.now marks.old × (v < n) }
    ensures { Trailed n parent.now stamp.now v
        marks.old marks.new result }
{
    let mut x = v;
    for _k in 0..n {
        if marks[x] != 0 {
            return x;
        }
        if stamp[x] == 0 {
            return x;
        }
        marks[x] = v as u64 + 1;
        x = parent[x] as usize;
    }
    x
}

// The vertex at which a walk meets itself, or n.
fn meet(parent: &[u64], stamp: &[u64], marks: &mut [u64], n: usize) -> usize
    requires { Unmarked n parent.now stamp.now marks.old }
    ensures { Met n parent.now stamp.now marks.old marks.new result }
{
    for v in 0..n {
        let x = mark(parent, stamp, marks, v, n);
        if marks[x] == v as u64 + 1 {
            return x;
        }
    }
    n
}

// A vertex on a cycle of parents of stamped vertices, or n if there is none. Linear in n: each walk stops at a mark.
pub fn find_cycle(parent: &[u64], stamp: &[u64], marks: &mut [u64], n: usize) -> usize
    requires { Searchable n parent.now stamp.now marks.old }
    ensures { Search n parent.now stamp.now marks.old marks.new result }
{
    fill(marks, n, 0);
    let u = meet(parent, stamp, marks, n);
    fill(marks, n, 0);
    u
}
