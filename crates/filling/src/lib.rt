// What filling in a table by value starts from: the one of no record, and the relation of a code.
#![tactic(auto)]

ghost use Rattle.std.specs.Prelude.{◌≡◌};
ghost use Rattle.records.specs.Rules.{relation_of};
ghost use Rattle.filling.specs.Filling.{empty};

use table::{Guard, Relation, Table};

// The relation of a code.
pub fn relation_of(code: usize) -> Relation
    ensures { result ≡ relation_of code }
{
    if code == 0 {
        return Relation::Under;
    }
    if code == 1 {
        return Relation::AtMost;
    }
    if code == 2 {
        return Relation::Exactly;
    }
    if code == 3 {
        return Relation::AtLeast;
    }
    Relation::Over
}

// No step yet.
pub fn empty_table() -> Table
    ensures { result ≡ empty }
{
    let none = Guard {
        clock: 0,
        second: 0,
        relation: Relation::Under,
        minus: false,
        constant: 0,
    };
    Table {
        clocks: 0,
        steps: 0,
        guards: [none; 64],
        ends: [0; 18],
        resets: [false; 119],
    }
}
