// Of the guards of each step, the tightest on each clock from above and the tightest from below, as rows of keys.
#![tactic(auto)]

ghost use Rattle.std.specs.Prelude.{◌≡◌, true, false, cond, eqb, replicate, ◌≤◌, ◌<◌, ◌+◌, get_or};
ghost use Rattle.table.specs.Step.{Good};
ghost use Rattle.scaling.specs.Scaled.{most};
ghost use Rattle.scaling.specs.Constants.{table_with};
ghost use Rattle.sides.specs.Sides.{none, side_key};
ghost use Rattle.sides.specs.Filled.{Filled};
ghost use Rattle.sides.specs.Keys.{Numbers, keys_of};

use scaling::MOST;
use table::{Guard, Relation, Table};

// The largest keys of a guard, weak and strict: twice the largest number, and one more where it is weak.
pub const TOP_WEAK: u64 = 2 * MOST + 1;

const TOP_STRICT: u64 = 2 * MOST;

// The key of no guard: past all others.
pub const NONE: u64 = 2 * MOST + 2;

// How tight a guard is from above: the smaller the tighter.
fn upper_key(relation: Relation, constant: u64) -> u64
    requires { constant ≤ most }
    ensures { result ≡ side_key true relation constant }
{
    match relation {
        Relation::Under => 2 * constant,
        Relation::AtMost => 2 * constant + 1,
        Relation::Exactly => 2 * constant + 1,
        Relation::AtLeast => NONE,
        Relation::Over => NONE,
    }
}

// How tight it is from below.
fn lower_key(relation: Relation, constant: u64) -> u64
    requires { constant ≤ most }
    ensures { result ≡ side_key false relation constant }
{
    match relation {
        Relation::Under => NONE,
        Relation::AtMost => NONE,
        Relation::Exactly => TOP_WEAK - 2 * constant,
        Relation::AtLeast => TOP_WEAK - 2 * constant,
        Relation::Over => TOP_STRICT - 2 * constant,
    }
}

// The key of a guard's side.
fn side_key(upper: bool, relation: Relation, constant: u64) -> u64
    requires { constant ≤ most }
    ensures { result ≡ side_key upper relation constant }
{
    if upper {
        return upper_key(relation, constant);
    }
    lower_key(relation, constant)
}

// The key of a side of a guard, and none if it has a second clock.
fn solo_key(upper: bool, g: Guard, constant: u64) -> u64
    requires { constant ≤ most }
    ensures { result ≡ cond (eqb g.second 0) (side_key upper g.relation constant) none }
{
    if g.second != 0 {
        return NONE;
    }
    side_key(upper, g.relation, constant)
}

// Puts the keys of step s, after those of the steps before it.
fn put_step(t: &Table, constants: &[u64; 64], upper: bool, s: usize, row: &mut [u64; 112])
    requires { Good t.now × Numbers t.now constants.now × (s < t.now.steps)
        × Filled upper (table_with constants.now t.now) row.old s (get_or t.now.ends s 0) }
    ensures { Filled upper (table_with constants.now t.now) row.new (s + 1) (get_or t.now.ends (s + 1) 0) }
{
    for i in t.ends[s]..t.ends[s + 1] {
        let g = t.guards[i];
        let at = 7 * s + g.clock as usize;
        row[at] = row[at].min(solo_key(upper, g, constants[i]));
    }
}

// Puts the keys of all steps and clocks on a side, where the guards have the constants of a row, into a row without keys.
pub fn put_keys(t: Table, constants: &[u64; 64], upper: bool, row: &mut [u64; 112])
    requires { Good t × Numbers t constants.now × (row.old ≡ replicate 112 none) }
    ensures { row.new ≡ keys_of upper (table_with constants.now t) }
{
    for s in 0..t.steps {
        put_step(&t, constants, upper, s, row);
    }
}
