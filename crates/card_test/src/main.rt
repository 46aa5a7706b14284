// Converts cards to tables and tables to cards, in rooms that are too short, exact and longer, and prints each answer, what stands
// in the room after it, and how many places at its end are kept: each holds 255 at first.
#![tactic(auto)]

ghost use Rattle.std.specs.Prelude.{◌≤◌, length};

use card_reading::to_table;
use card_writing::to_card;
use cards::Converted;
use testkit::{field, fill, find, name, refusal, table, title, word};

// Small cards, of each a name and a colon before it and a bar after it: cut short, with lines out of place and numbers out of range,
// where within a line the order of the tests counts, and among lines the first fault.
const SMALL: [u8; 2503] = *b"\
    empty:|\
    timers only:timers 1\n|\
    no end:timers 1\nstep\n|\
    no step yet and no end:timers 1\nzero 1\n|\
    end without its line feed:timers 1\nstep\nend|\
    another line without its line feed:timers 1\nstep\nx|\
    step without its line feed:timers 1\nstep|\
    timers without its line feed:timers 1|\
    a bare step:timers 1\nstep\nend\n|\
    6 timers:timers 6\nstep\nend\n|\
    0 timers:timers 0\n|\
    7 timers:timers 7\n|\
    10 timers:timers 10\n|\
    timers again:timers 1\ntimers 1\n|\
    timers again, 9 of them:timers 1\ntimers 9\n|\
    timers again in the next step:timers 1\nstep\ntimers 1\n|\
    step first:step\n|\
    end first:end\n|\
    zero first:zero 9\n|\
    a bound first:7 < 9\n|\
    a bound out of range first:1 < 9999\n|\
    no line first:seven\n|\
    an empty line first:\ntimers 1\nstep\nend\n|\
    a bound of timer 0:timers 1\n0 < 1\n|\
    a bound of timer 2 of 1:timers 1\n2 < 1\n|\
    a bound of timer 2 of 2:timers 2\n2 < 1\nstep\nend\n|\
    zero 0:timers 1\nzero 0\n|\
    zero 2 of 1:timers 1\nzero 2\n|\
    zero 6 of 6:timers 6\nzero 6\nstep\nend\n|\
    constant 0:timers 1\n1 < 0\nstep\nend\n|\
    constant 255:timers 1\n1 < 255\nstep\nend\n|\
    constant 256:timers 1\n1 < 256\nstep\nend\n|\
    constant 4000:timers 1\n1 < 4000\nstep\nend\n|\
    constant 4001:timers 1\n1 < 4001\n|\
    end and no step:timers 1\nend\n|\
    end after a bound:timers 1\n1 < 1\nend\n|\
    end after a bound of a second step:timers 1\nstep\n1 < 1\nend\n|\
    end after a zero of a second step:timers 1\nstep\nzero 1\nend\n|\
    end and no step, and a byte more:timers 1\nend\nx|\
    a byte after end:timers 1\nstep\nend\nx|\
    a line feed after end:timers 1\nstep\nend\n\n|\
    end again:timers 1\nstep\nend\nend\n|\
    a card after end:timers 1\nstep\nend\ntimers 1\nstep\nend\n|\
    zero twice:timers 1\nzero 1\nzero 1\n|\
    zero twice, a bound between:timers 1\nzero 1\n1 < 1\nzero 1\n|\
    zero twice, another between:timers 2\nzero 1\nzero 2\nzero 1\n|\
    zero again in the next step:timers 1\nzero 1\nstep\nzero 1\nstep\nend\n|\
    zero before a bound:timers 1\nzero 1\n1 < 3\nstep\nend\n|\
    a bound before zero:timers 1\n1 < 3\nzero 1\nstep\nend\n|\
    three bare steps:timers 1\nstep\nstep\nstep\nend\n|\
    timer and constant:timers 1\n7 < 5000\n|\
    timer, then no line:timers 1\n2 < 1\nx\n|\
    no line, then timer:timers 1\nx\n2 < 1\n|\
    constant, then timer:timers 1\n1 < 4001\n2 < 1\n|\
    timer 0 twice:timers 1\nzero 0\nzero 0\n|\
    timer 257:timers 1\n257 < 1\n|\
    timer 65537:timers 1\nzero 65537\n|\
    constant 65536:timers 1\n1 < 65536\n|\
    constant 4294967296:timers 1\n1 < 4294967296\n|\
    timers 257:timers 257\n|\
    timers of 20 digits:timers 18446744073709551617\n|\
    a timer of 20 digits:timers 1\n18446744073709551617 < 1\n|\
    zero of 20 digits:timers 1\nzero 99999999999999999999\n|\
    a constant of 20 digits:timers 1\n1 < 18446744073709551616\n|\
    a constant of 0 and 19 digits:timers 1\n1 < 09999999999999999999\n|";

// Lines of each form, and wrong ones that are nearly of it.
const FORMS: [u8; 5694] = *b"\
    timers, no blank:timers1\nstep\nend\n|\
    timers, two blanks:timers  1\nstep\nend\n|\
    timers, a tab:timers\t1\nstep\nend\n|\
    timers, a blank before: timers 1\nstep\nend\n|\
    timers, a blank after:timers 1 \nstep\nend\n|\
    timers, a carriage return:timers 1\r\nstep\nend\n|\
    timers, a capital:Timers 1\nstep\nend\n|\
    timers, capitals:TIMERS 1\nstep\nend\n|\
    timers, a leading zero:timers 01\nstep\nend\n|\
    timers, two zeros:timers 00\nstep\nend\n|\
    timers, plus:timers +1\nstep\nend\n|\
    timers, minus:timers -1\nstep\nend\n|\
    timers, no number:timers\nstep\nend\n|\
    timers, a blank and no number:timers \nstep\nend\n|\
    timers, two numbers:timers 1 1\nstep\nend\n|\
    timers, a word:timers one\nstep\nend\n|\
    timers, a letter less:timer 1\nstep\nend\n|\
    timers, a letter more:timerss 1\nstep\nend\n|\
    N < C:timers 1\n1 < 5\nstep\nend\n|\
    <, no blank before:timers 1\n1< 5\nstep\nend\n|\
    <, no blank after:timers 1\n1 <5\nstep\nend\n|\
    <, two blanks before:timers 1\n1  < 5\nstep\nend\n|\
    <, two blanks after:timers 1\n1 <  5\nstep\nend\n|\
    <, a tab before:timers 1\n1\t< 5\nstep\nend\n|\
    <, a tab after:timers 1\n1 <\t5\nstep\nend\n|\
    <, a carriage return:timers 1\n1 < 5\r\nstep\nend\n|\
    <, a leading zero before:timers 1\n01 < 5\nstep\nend\n|\
    <, a leading zero after:timers 1\n1 < 05\nstep\nend\n|\
    <, plus before:timers 1\n+1 < 5\nstep\nend\n|\
    <, minus after:timers 1\n1 < -5\nstep\nend\n|\
    <, no timer:timers 1\n < 5\nstep\nend\n|\
    <, no constant:timers 1\n1 < \nstep\nend\n|\
    N <= C:timers 1\n1 <= 5\nstep\nend\n|\
    <=, no blank before:timers 1\n1<= 5\nstep\nend\n|\
    <=, no blank after:timers 1\n1 <=5\nstep\nend\n|\
    <=, two blanks before:timers 1\n1  <= 5\nstep\nend\n|\
    <=, two blanks after:timers 1\n1 <=  5\nstep\nend\n|\
    <=, a tab before:timers 1\n1\t<= 5\nstep\nend\n|\
    <=, a tab after:timers 1\n1 <=\t5\nstep\nend\n|\
    <=, a carriage return:timers 1\n1 <= 5\r\nstep\nend\n|\
    <=, a leading zero before:timers 1\n01 <= 5\nstep\nend\n|\
    <=, a leading zero after:timers 1\n1 <= 05\nstep\nend\n|\
    <=, plus before:timers 1\n+1 <= 5\nstep\nend\n|\
    <=, minus after:timers 1\n1 <= -5\nstep\nend\n|\
    <=, no timer:timers 1\n <= 5\nstep\nend\n|\
    <=, no constant:timers 1\n1 <= \nstep\nend\n|\
    N = C:timers 1\n1 = 5\nstep\nend\n|\
    =, no blank before:timers 1\n1= 5\nstep\nend\n|\
    =, no blank after:timers 1\n1 =5\nstep\nend\n|\
    =, two blanks before:timers 1\n1  = 5\nstep\nend\n|\
    =, two blanks after:timers 1\n1 =  5\nstep\nend\n|\
    =, a tab before:timers 1\n1\t= 5\nstep\nend\n|\
    =, a tab after:timers 1\n1 =\t5\nstep\nend\n|\
    =, a carriage return:timers 1\n1 = 5\r\nstep\nend\n|\
    =, a leading zero before:timers 1\n01 = 5\nstep\nend\n|\
    =, a leading zero after:timers 1\n1 = 05\nstep\nend\n|\
    =, plus before:timers 1\n+1 = 5\nstep\nend\n|\
    =, minus after:timers 1\n1 = -5\nstep\nend\n|\
    =, no timer:timers 1\n = 5\nstep\nend\n|\
    =, no constant:timers 1\n1 = \nstep\nend\n|\
    N >= C:timers 1\n1 >= 5\nstep\nend\n|\
    >=, no blank before:timers 1\n1>= 5\nstep\nend\n|\
    >=, no blank after:timers 1\n1 >=5\nstep\nend\n|\
    >=, two blanks before:timers 1\n1  >= 5\nstep\nend\n|\
    >=, two blanks after:timers 1\n1 >=  5\nstep\nend\n|\
    >=, a tab before:timers 1\n1\t>= 5\nstep\nend\n|\
    >=, a tab after:timers 1\n1 >=\t5\nstep\nend\n|\
    >=, a carriage return:timers 1\n1 >= 5\r\nstep\nend\n|\
    >=, a leading zero before:timers 1\n01 >= 5\nstep\nend\n|\
    >=, a leading zero after:timers 1\n1 >= 05\nstep\nend\n|\
    >=, plus before:timers 1\n+1 >= 5\nstep\nend\n|\
    >=, minus after:timers 1\n1 >= -5\nstep\nend\n|\
    >=, no timer:timers 1\n >= 5\nstep\nend\n|\
    >=, no constant:timers 1\n1 >= \nstep\nend\n|\
    N > C:timers 1\n1 > 5\nstep\nend\n|\
    >, no blank before:timers 1\n1> 5\nstep\nend\n|\
    >, no blank after:timers 1\n1 >5\nstep\nend\n|\
    >, two blanks before:timers 1\n1  > 5\nstep\nend\n|\
    >, two blanks after:timers 1\n1 >  5\nstep\nend\n|\
    >, a tab before:timers 1\n1\t> 5\nstep\nend\n|\
    >, a tab after:timers 1\n1 >\t5\nstep\nend\n|\
    >, a carriage return:timers 1\n1 > 5\r\nstep\nend\n|\
    >, a leading zero before:timers 1\n01 > 5\nstep\nend\n|\
    >, a leading zero after:timers 1\n1 > 05\nstep\nend\n|\
    >, plus before:timers 1\n+1 > 5\nstep\nend\n|\
    >, minus after:timers 1\n1 > -5\nstep\nend\n|\
    >, no timer:timers 1\n > 5\nstep\nend\n|\
    >, no constant:timers 1\n1 > \nstep\nend\n|\
    a bound, < =:timers 1\n1 < = 5\nstep\nend\n|\
    a bound, =<:timers 1\n1 =< 5\nstep\nend\n|\
    a bound, =>:timers 1\n1 => 5\nstep\nend\n|\
    a bound, ==:timers 1\n1 == 5\nstep\nend\n|\
    a bound, <>:timers 1\n1 <> 5\nstep\nend\n|\
    a bound, no sign:timers 1\n1 5\nstep\nend\n|\
    a bound, two constants:timers 1\n1 < 5 5\nstep\nend\n|\
    a bound, a blank before:timers 1\n 1 < 5\nstep\nend\n|\
    a bound, a blank after:timers 1\n1 < 5 \nstep\nend\n|\
    a bound, a letter before:timers 1\nx < 5\nstep\nend\n|\
    a bound, a letter after:timers 1\n1 < x\nstep\nend\n|\
    a bound, a digit and a letter:timers 1\n1 < 5x\nstep\nend\n|\
    a bound, two zeros:timers 1\n1 < 00\nstep\nend\n|\
    a bound, a number alone:timers 1\n5\nstep\nend\n|\
    zero N:timers 1\nzero 1\nstep\nend\n|\
    zero, no blank:timers 1\nzero1\nstep\nend\n|\
    zero, two blanks:timers 1\nzero  1\nstep\nend\n|\
    zero, a tab:timers 1\nzero\t1\nstep\nend\n|\
    zero, a blank before:timers 1\n zero 1\nstep\nend\n|\
    zero, a blank after:timers 1\nzero 1 \nstep\nend\n|\
    zero, a carriage return:timers 1\nzero 1\r\nstep\nend\n|\
    zero, a capital:timers 1\nZero 1\nstep\nend\n|\
    zero, a leading zero:timers 1\nzero 01\nstep\nend\n|\
    zero, plus:timers 1\nzero +1\nstep\nend\n|\
    zero, minus:timers 1\nzero -1\nstep\nend\n|\
    zero, no number:timers 1\nzero\nstep\nend\n|\
    zero, a blank and no number:timers 1\nzero \nstep\nend\n|\
    zero, two numbers:timers 1\nzero 1 1\nstep\nend\n|\
    step, a blank before:timers 1\n step\nend\n|\
    step, a blank after:timers 1\nstep \nend\n|\
    step, a tab:timers 1\n\tstep\nend\n|\
    step, a carriage return:timers 1\nstep\r\nend\n|\
    step, a capital:timers 1\nStep\nend\n|\
    step, a number:timers 1\nstep 1\nend\n|\
    step, a letter more:timers 1\nsteps\nend\n|\
    step, a letter less:timers 1\nste\nend\n|\
    end, a blank before:timers 1\nstep\n end\n|\
    end, a blank after:timers 1\nstep\nend \n|\
    end, a tab:timers 1\nstep\nend\t\n|\
    end, a carriage return:timers 1\nstep\nend\r\n|\
    end, capitals:timers 1\nstep\nEND\n|\
    end, a number:timers 1\nstep\nend 1\n|\
    end, a letter more:timers 1\nstep\nends\n|\
    end, a letter less:timers 1\nstep\nen\n|\
    an empty line:timers 1\n\nstep\nend\n|\
    a blank line:timers 1\n \nstep\nend\n|\
    a byte 0:timers 1\n\x00\nstep\nend\n|\
    a byte 255:timers 1\nstep\n\xff\n|";

// Where the last byte of a room that is not 255 ends.
fn used(room: &[u8]) -> usize
    ensures { result ≤ length room.now }
{
    let mut end = room.len();
    while end > 0 {
        if room[end - 1] != 255 {
            return end;
        }
        end -= 1;
    }
    end
}

// A room up to there.
fn written<'a>(room: &'a [u8]) -> &'a [u8] {
    let end = used(room);
    &room[0..end]
}

fn told(answer: Converted) {
    match answer {
        Converted::Written(number) => {
            field(b"written ", number as u64);
            word(b":");
        }
        Converted::Refused(why) => refusal(why),
    }
}

fn byte(x: u8) {
    field(b" ", x as u64);
}

// The bytes of a table.
fn numbers(bytes: &[u8]) {
    let mut i: usize = 0;
    while i < bytes.len() {
        byte(bytes[i]);
        i += 1;
    }
}

// A byte of a card, with a slash for a line feed.
fn letter(x: u8) {
    if x == 10 {
        word(b"/");
        return;
    }
    let one = [x];
    word(&one);
}

// A card, with a blank before it.
fn letters(card: &[u8]) {
    if card.len() > 0 {
        word(b" ");
    }
    let mut i: usize = 0;
    while i < card.len() {
        letter(card[i]);
        i += 1;
    }
}

// How many places at the end of a room are as they were.
fn kept(room: &[u8]) {
    field(b", kept ", (room.len() - used(room)) as u64);
    word(b"\n");
}

// The answer on a card, in a room.
fn show(name: &[u8], card: &[u8], room: &mut [u8]) {
    title(name);
    fill(&mut *room, b"", b"\xff", b"");
    let answer = to_table(card, &mut *room);
    told(answer);
    numbers(written(&*room));
    kept(&*room);
}

// The answer on a table, in a room.
fn show_table(name: &[u8], bytes: &[u8], room: &mut [u8]) {
    title(name);
    fill(&mut *room, b"", b"\xff", b"");
    let answer = to_card(bytes, &mut *room);
    told(answer);
    letters(written(&*room));
    kept(&*room);
}

// A card with its name and a colon before it.
fn case(text: &[u8]) {
    let colon = find(text, 0, 58);
    if colon == text.len() {
        return;
    }
    let mut room = [0u8; 16];
    show(&text[0..colon], &text[colon + 1..], &mut room);
}

fn cases(tape: &[u8])
    requires { length tape.now ≤ 16384 }
{
    let mut from: usize = 0;
    while from < tape.len() {
        let end = find(tape, from, 124);
        case(&tape[from..end]);
        from = end + 1;
    }
}

// The answer on a card that fills a room: a head, a pattern over and over, and a tail.
fn long(name: &[u8], text: &mut [u8], head: &[u8], pattern: &[u8], tail: &[u8]) {
    fill(&mut *text, head, pattern, tail);
    let mut room = [0u8; 16];
    show(name, &*text, &mut room);
}

// Numbers of 6,000 digits.
fn huge_numbers() {
    let mut head = [0u8; 6008];
    long(b"timers of 6000 digits", &mut head, b"timers ", b"1", b"\n");
    let mut bound = [0u8; 6014];
    long(
        b"a timer of 6000 digits",
        &mut bound,
        b"timers 1\n",
        b"10",
        b" < 1\n",
    );
    let mut zero = [0u8; 6015];
    long(
        b"zero of 6000 digits",
        &mut zero,
        b"timers 1\nzero ",
        b"1",
        b"\n",
    );
    let mut constant = [0u8; 6014];
    long(
        b"a constant of 6000 digits",
        &mut constant,
        b"timers 1\n1 < ",
        b"10",
        b"\n",
    );
    long(
        b"a constant of 6000 zeros",
        &mut constant,
        b"timers 1\n1 < ",
        b"0",
        b"\n",
    );
}

// Bounds at their limit, where the table of the card has 324 bytes; the last one is also of another timer.
fn bounds() {
    let mut text = [0u8; 402];
    long(
        b"64 bounds",
        &mut text,
        b"timers 1\n",
        b"1 < 1\n",
        b"step\nend\n",
    );
    long(b"65 bounds", &mut text, b"timers 1\n", b"1 < 1\n", b"end");
    long(
        b"65 bounds, the last of timer 9",
        &mut text,
        b"timers 1\n",
        b"1 < 1\n",
        b"9 < 9999\n",
    );
}

// Steps at their limit.
fn steps() {
    let mut most = [0u8; 93];
    fill(&mut most, b"timers 1\n", b"step\n", b"end\n");
    let mut room = [0u8; 20];
    show(b"16 steps", &most, &mut room);
    let mut more = [0u8; 98];
    long(b"17 steps", &mut more, b"timers 1\n", b"step\n", b"end\n");
}

// As many bytes as are read, and one more: line feeds; a card and what follows it; a line that does not end.
fn long_texts() {
    let mut most = [0u8; 16384];
    long(b"16384 line feeds", &mut most, b"", b"\n", b"");
    long(
        b"16384 bytes, a card first",
        &mut most,
        b"timers 1\nstep\nend\n",
        b"\n",
        b"",
    );
    long(
        b"16384 bytes, no line feed",
        &mut most,
        b"timers 1\n",
        b"1",
        b"",
    );
    let mut more = [0u8; 16385];
    long(b"16385 line feeds", &mut more, b"", b"\n", b"");
    long(
        b"16385 bytes, a card first",
        &mut more,
        b"timers 1\nstep\nend\n",
        b"\n",
        b"",
    );
    long(
        b"16385 bytes, a wrong line first",
        &mut more,
        b"x\n",
        b"1",
        b"",
    );
}

fn prefix(card: &[u8]) {
    let mut room = [0u8; 24];
    show(b"prefix", card, &mut room);
}

// All proper prefixes of a card of three steps, and the whole of it.
fn prefixes() {
    let card = *b"timers 2\n1 >= 3\nzero 1\nstep\n2 <= 5\nstep\nzero 2\nstep\nend\n";
    let mut n: usize = 0;
    while n < 57 {
        prefix(&card[0..n]);
        n += 1;
    }
}

// Rooms for the table of a card, of 11 bytes.
fn rooms() {
    let card = b"timers 1\n1 >= 3\nzero 1\nstep\nend\n";
    let mut none = [0u8; 0];
    show(b"no room", card, &mut none);
    let mut short = [0u8; 10];
    show(b"room one short", card, &mut short);
    let mut exact = [0u8; 11];
    show(b"room exact", card, &mut exact);
    let mut longer = [0u8; 12];
    show(b"room one longer", card, &mut longer);
}

// The same with a fault, which comes first.
fn short_rooms() {
    let mut none = [0u8; 0];
    show(b"no room, and no line", b"timers 1\nstep\nx", &mut none);
    let mut few = [0u8; 2];
    show(
        b"room short, and no end",
        b"timers 1\n1 >= 3\nzero 1\nstep\n",
        &mut few,
    );
    let mut short = [0u8; 10];
    show(
        b"room one short, and a byte more",
        b"timers 1\n1 >= 3\nzero 1\nstep\nend\nx",
        &mut short,
    );
    show(
        b"room one short, and no line feed",
        b"timers 1\n1 >= 3\nzero 1\nstep\nend",
        &mut short,
    );
    let mut other = [0u8; 12];
    show(
        b"room one short, and zero twice",
        b"timers 1\n1 >= 3\nzero 1\nzero 1\nstep\nend\n",
        &mut other,
    );
}

// Rooms for the card of a table, of 32 bytes.
fn card_rooms() {
    let bytes = b"\x01\x01\x02\x01\x03\x03\x00\x03\x01\x04\x05";
    let mut none = [0u8; 0];
    show_table(b"no room", bytes, &mut none);
    let mut short = [0u8; 31];
    show_table(b"room one short", bytes, &mut short);
    let mut exact = [0u8; 32];
    show_table(b"room exact", bytes, &mut exact);
    let mut longer = [0u8; 33];
    show_table(b"room one longer", bytes, &mut longer);
}

fn short_card_rooms() {
    let mut none = [0u8; 0];
    show_table(
        b"no room, and a byte more",
        b"\x01\x01\x04\x05\x05",
        &mut none,
    );
    let mut few = [0u8; 5];
    show_table(b"room short, and no end", b"\x01\x01\x04", &mut few);
}

// A table to its card, and the card to the table, in rooms as long as they need to be.
fn both_ways(name: &[u8], bytes: &[u8]) {
    let mut card = [0u8; 1405];
    show_table(name, bytes, &mut card);
    let mut room = [0u8; 531];
    show(b"  and back", written(&card), &mut room);
}

// 01's samples, and testkit's other tables.
fn samples() {
    let tape = testkit::TABLES;
    let mut case: usize = 1;
    while case <= 18 {
        both_ways(name(&tape, case), table(&tape, case));
        case += 1;
    }
}

// The longest table, and with it the longest card.
fn longest() {
    let step =
        b"\x02\x01\x01\xa0\x0f\x02\x02\x03\xa0\x0f\x02\x03\x01\xa0\x0f\x02\x04\x03\xa0\x0f\x03\x01\x03\x02\x03\x03\x03\x04\x03\x05\x03\x06\x04";
    let mut bytes = [0u8; 531];
    fill(&mut bytes, b"\x01\x06", step, b"\x05");
    both_ways(b"the longest", &bytes);
}

fn refused(name: &[u8], bytes: &[u8]) {
    let mut room = [0u8; 4];
    show_table(name, bytes, &mut room);
}

// Tables that are refused.
fn refused_tables() {
    let tape = testkit::MORE_TABLES;
    let mut case: usize = 19;
    while case <= 28 {
        refused(name(&tape, case), table(&tape, case));
        case += 1;
    }
}

fn too_long() {
    let zeros = [0u8; 4097];
    refused(b"4097 bytes", &zeros);
}

fn main() {
    let small = SMALL;
    cases(&small);
    let forms = FORMS;
    cases(&forms);
    huge_numbers();
    bounds();
    steps();
    long_texts();
    prefixes();
    rooms();
    short_rooms();
    card_rooms();
    short_card_rooms();
    samples();
    longest();
    refused_tables();
    too_long();
}
