// Lines of words and numbers into a lent buffer. Each function gives the place after the line.
#![tactic(auto)]

ghost use Rattle.std.specs.Prelude.{◌+◌, ◌≤◌, length};
ghost use Rattle.text.specs.Over.{Written};
ghost use Rattle.lines.specs.Line.{line1, line_of, room_of};

// Writes a line of words, each with a number.
pub fn put_line(out: &mut [u8], at: usize, fields: &[(&[u8], u64)]) -> usize
    requires { at + room_of fields.now ≤ length out.old }
    ensures written { Written out.old at (line_of fields.now) out.new result }
    ensures upper_bound { result ≤ at + room_of fields.now }
{
    let mut next = at;
    for (word, x) in fields {
        next = text::put_field(&mut *out, next, word, *x);
    }
    text::put_word(out, next, b"\n")
}

// Writes a line of a word and a number.
pub fn put_line1(out: &mut [u8], at: usize, a: &[u8], x: u64) -> usize
    requires { at + length a.now + 21 ≤ length out.old }
    ensures written { Written out.old at (line1 a.now x) out.new result }
    ensures upper_bound { result ≤ at + length a.now + 21 }
{
    put_line(out, at, &[(a, x)])
}
