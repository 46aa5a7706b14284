// One line of a card, recognised at a place of a text.
#![tactic(auto)]

ghost use Rattle.std.specs.Prelude.{◌≡◌, ◌≤◌, length, drop};
ghost use Rattle.card_lines.specs.Front.{held, starts, wrong_found, digits_at, number_at, sign_at, closed_at, numbered_at, bound_at, line_at};

use records::between;

// A number that stands at a place: its value, held at HOLD, and the place after it. Where none stands there, `next` is the place itself.
#[derive(Clone, Copy)]
pub struct Numeral {
    pub value: usize,
    pub next: usize,
}

// What a line says as numbers: the kind as in a table's records (1 timers, 2 bound, 3 zero, 4 step, 5 end), what stands in it, and the
// place after its line feed. Of a wrong line all are 0.
#[derive(Clone, Copy)]
pub struct Found {
    pub kind: usize,
    pub first: usize,
    pub relation: usize,
    pub second: usize,
    pub next: usize,
}

// Out of every range of a table's numbers: no greater value is told apart from it.
const HOLD: usize = 65536;

// A value, held.
fn hold(x: usize) -> usize
    ensures { result ≡ held x }
{
    if x < HOLD {
        return x;
    }
    HOLD
}

// Whether a word stands at a place.
fn stands(text: &[u8], at: usize, word: &[u8]) -> bool
    requires { (length text.now ≤ 16384) × (at ≤ length text.now) }
    ensures { result ≡ starts word.now (drop at text.now) }
{
    if text.len() - at < word.len() {
        return false;
    }
    let mut i: usize = 0;
    while i < word.len() {
        if text[at + i] != word[i] {
            return false;
        }
        i = i + 1;
    }
    true
}

// The digits from a place on, as a number.
fn digits_at(text: &[u8], at: usize) -> Numeral
    requires { (length text.now ≤ 16384) × (at ≤ length text.now) }
    ensures { result ≡ digits_at text.now at }
{
    let mut value: usize = 0;
    let mut next: usize = at;
    while next < text.len() {
        let byte = text[next] as usize;
        if !between(48, byte, 57) {
            return Numeral { value, next };
        }
        value = hold(value * 10 + (byte - 48));
        next = next + 1;
    }
    Numeral { value, next }
}

// The number at a place. A 0 is one by itself.
fn number_at(text: &[u8], at: usize) -> Numeral
    requires { (length text.now ≤ 16384) × (at ≤ length text.now) }
    ensures { result ≡ number_at text.now at }
{
    if stands(text, at, b"0") {
        return Numeral {
            value: 0,
            next: at + 1,
        };
    }
    digits_at(text, at)
}

// The sign of a relation at a place, between its blanks: the relation's number, or 5 where none stands there.
fn sign_at(text: &[u8], at: usize) -> Numeral
    requires { (length text.now ≤ 16384) × (at ≤ length text.now) }
    ensures { result ≡ sign_at text.now at }
{
    if stands(text, at, b" < ") {
        return Numeral {
            value: 0,
            next: at + 3,
        };
    }
    if stands(text, at, b" <= ") {
        return Numeral {
            value: 1,
            next: at + 4,
        };
    }
    if stands(text, at, b" = ") {
        return Numeral {
            value: 2,
            next: at + 3,
        };
    }
    if stands(text, at, b" >= ") {
        return Numeral {
            value: 3,
            next: at + 4,
        };
    }
    if stands(text, at, b" > ") {
        return Numeral {
            value: 4,
            next: at + 3,
        };
    }
    Numeral { value: 5, next: at }
}

// A wrong line.
fn wrong() -> Found
    ensures { result ≡ wrong_found }
{
    Found {
        kind: 0,
        first: 0,
        relation: 0,
        second: 0,
        next: 0,
    }
}

// What is found, and then the line feed.
fn closed(text: &[u8], f: Found) -> Found
    requires { (length text.now ≤ 16384) × (f.next ≤ length text.now) }
    ensures { result ≡ closed_at text.now f }
{
    if !stands(text, f.next, b"\n") {
        return wrong();
    }
    Found {
        kind: f.kind,
        first: f.first,
        relation: f.relation,
        second: f.second,
        next: f.next + 1,
    }
}

// The number at a place, as all that a line of a kind says after its word.
fn numbered(text: &[u8], at: usize, kind: usize) -> Found
    requires { (length text.now ≤ 16384) × (at ≤ length text.now) }
    ensures { result ≡ numbered_at text.now at kind }
{
    let n = number_at(text, at);
    if n.next == at {
        return wrong();
    }
    closed(
        text,
        Found {
            kind: kind,
            first: n.value,
            relation: 0,
            second: 0,
            next: n.next,
        },
    )
}

// A bound at a place: number, sign, number.
fn bound_at(text: &[u8], at: usize) -> Found
    requires { (length text.now ≤ 16384) × (at ≤ length text.now) }
    ensures { result ≡ bound_at text.now at }
{
    let n = number_at(text, at);
    if n.next == at {
        return wrong();
    }
    let sign = sign_at(text, n.next);
    if sign.value == 5 {
        return wrong();
    }
    let c = number_at(text, sign.next);
    if c.next == sign.next {
        return wrong();
    }
    closed(
        text,
        Found {
            kind: 2,
            first: n.value,
            relation: sign.value,
            second: c.value,
            next: c.next,
        },
    )
}

// The line at a place.
pub fn line_at(text: &[u8], at: usize) -> Found
    requires { (length text.now ≤ 16384) × (at ≤ length text.now) }
    ensures { result ≡ line_at text.now at }
{
    if stands(text, at, b"timers ") {
        return numbered(text, at + 7, 1);
    }
    if stands(text, at, b"zero ") {
        return numbered(text, at + 5, 3);
    }
    if stands(text, at, b"step\n") {
        return Found {
            kind: 4,
            first: 0,
            relation: 0,
            second: 0,
            next: at + 5,
        };
    }
    if stands(text, at, b"end\n") {
        return Found {
            kind: 5,
            first: 0,
            relation: 0,
            second: 0,
            next: at + 4,
        };
    }
    bound_at(text, at)
}
