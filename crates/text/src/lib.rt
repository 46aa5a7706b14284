// Text into a lent buffer: words and decimal numbers, as bytes. Each function gives the place after what it wrote.
#![tactic(auto)]

ghost use Rattle.std.specs.Prelude.{◌+◌, ◌≤◌, length};
ghost use Rattle.text.specs.Over.{Written};
ghost use Rattle.text.specs.Decimal.{digits, decimal, field};

// Writes a word from a place on.
pub fn put_word(out: &mut [u8], at: usize, word: &[u8]) -> usize
    requires { at + length word.now ≤ length out.old }
    ensures { Written out.old at word.now out.new result }
{
    let end = at + word.len();
    out[at..end].copy_from_slice(word);
    end
}

// Writes the last n digits of a number, or all of them where there are fewer.
fn put_digits(out: &mut [u8], at: usize, n: usize, x: u64) -> usize
    requires { at + n ≤ length out.old }
    ensures written { Written out.old at (digits n x) out.new result }
    ensures upper_bound { result ≤ at + n }
{
    if n == 0 {
        return at;
    }
    if x < 10 {
        out[at] = (48 + x) as u8;
        return at + 1;
    }
    let last = put_digits(&mut *out, at, n - 1, x / 10);
    out[last] = (48 + x % 10) as u8;
    last + 1
}

// Writes a number in decimal.
pub fn put_decimal(out: &mut [u8], at: usize, x: u64) -> usize
    requires { at + 20 ≤ length out.old }
    ensures written { Written out.old at (decimal x) out.new result }
    ensures upper_bound { result ≤ at + 20 }
{
    put_digits(out, at, 20, x)
}

// Writes a word and then a number.
pub fn put_field(out: &mut [u8], at: usize, word: &[u8], x: u64) -> usize
    requires { at + length word.now + 20 ≤ length out.old }
    ensures written { Written out.old at (field word.now x) out.new result }
    ensures upper_bound { result ≤ at + length word.now + 20 }
{
    let next = put_word(&mut *out, at, word);
    put_decimal(out, next, x)
}
