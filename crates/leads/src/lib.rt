// The leads of a table, which are its guards with a second clock, as numbers in a row, with their constants in parts: for the passes
// that check them.
#![tactic(auto)]

ghost use Rattle.std.specs.Prelude.{◌≡◌, ◌≤◌, ◌<◌, ◌+◌, ltb, length, get_or, replicate};
ghost use Rattle.table.specs.Step.{Good};
ghost use Rattle.scaling.specs.Scaled.{most};
ghost use Rattle.scaling.specs.Constants.{with_constant, table_with};
ghost use Rattle.sides.specs.Keys.{Numbers};
ghost use Rattle.leads.specs.Codes.{relation_code, relation_at, code_of, guard_at};
ghost use Rattle.leads.specs.Filling.{Filling};
ghost use Rattle.leads.specs.Leads.{leads_of};

use table::{Guard, Relation, Table};

// The number of a relation, 0 to 4.
fn relation_code(relation: Relation) -> u64
    ensures { result ≡ relation_code relation }
{
    match relation {
        Relation::Under => 0,
        Relation::AtMost => 1,
        Relation::Exactly => 2,
        Relation::AtLeast => 3,
        Relation::Over => 4,
    }
}

// The relation of a number.
fn relation_at(code: u64) -> Relation
    ensures { result ≡ relation_at code }
{
    if code == 0 {
        return Relation::Under;
    }
    if code == 1 {
        return Relation::AtMost;
    }
    if code == 2 {
        return Relation::Exactly;
    }
    if code == 3 {
        return Relation::AtLeast;
    }
    Relation::Over
}

// A guard with another constant as a number: its clock, its second clock, its relation, its sign and the constant.
#[tactic(auto, unfolding(crate::specs::Codes::code_of))]
fn code_of(g: Guard, constant: u64) -> u64
    requires { constant ≤ most }
    ensures { result ≡ code_of (with_constant constant g) }
{
    let relation = relation_code(g.relation);
    let sign = u64::from(g.minus);
    g.clock as u64 + 7 * g.second as u64 + 49 * relation + 245 * sign + 490 * constant
}

// The guard of a number, without its constant.
#[tactic(auto, using(crate::specs::Codes::unsigned_is))]
pub fn guard_at(code: u64) -> Guard
    ensures { result ≡ with_constant 0 (guard_at code) }
{
    let relation = relation_at(code / 49 % 5);
    Guard {
        clock: (code % 7) as u8,
        second: (code / 7 % 7) as u8,
        relation,
        minus: code / 245 % 2 == 1,
        constant: 0,
    }
}

// Puts the numbers of the leads of step s after those of the steps before it, `count` of them, and gives how many stand there then.
fn put_step(t: &Table, constants: &[u64; 64], s: usize, count: usize, row: &mut [u64; 82]) -> usize
    requires { Good t.now × Numbers t.now constants.now × (s < t.now.steps)
        × Filling (table_with constants.now t.now) row.old s (get_or t.now.ends s 0) count }
    ensures { Filling (table_with constants.now t.now) row.new s (get_or t.now.ends (s + 1) 0) result }
{
    let mut next = count;
    for i in t.ends[s]..t.ends[s + 1] {
        let g = t.guards[i];
        if g.second != 0 {
            row[18 + next] = code_of(g, constants[i]);
            next += 1;
        }
    }
    next
}

// Fills the row of a table that has leads.
fn fill(t: Table, constants: &[u64; 64], row: &mut [u64; 82])
    requires { Good t × Numbers t constants.now × (row.old ≡ replicate 82 0) }
    ensures { row.new ≡ leads_of (table_with constants.now t) }
{
    let mut count: usize = 0;
    for s in 0..t.steps {
        count = put_step(&t, constants, s, count, row);
        row[s + 1] = count as u64;
    }
}

// Fills a row of zeros: where the leads of each step begin and end, then the number of each lead with the constant of another row, in
// table order. Without a lead it stays as it is.
pub fn put_leads(t: Table, constants: &[u64; 64], row: &mut [u64; 82])
    requires { Good t × Numbers t constants.now × (row.old ≡ replicate 82 0) }
    ensures { row.new ≡ leads_of (table_with constants.now t) }
{
    let guards = &t.guards[t.ends[0]..t.ends[t.steps]];
    if guards.iter().any(|g| g.second != 0) {
        fill(t, constants, row);
    }
}

// Whether a row has a lead, when rounds have so many steps.
pub fn any_leads(row: &[u64], steps: usize) -> bool
    requires { (length row.now ≡ 82) × (steps < 82) }
    ensures { result ≡ ltb 0 (get_or row.now steps 0) }
{
    row[steps] > 0
}
