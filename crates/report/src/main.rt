// The report program: a table on standard input, its report on standard output. One byte over the longest table is read,
// so that a longer one is seen to be.
#![tactic(auto)]

// The standard input and output, as files of the C library.
const STDIN_FILENO: i32 = 0;

const STDOUT_FILENO: i32 = 1;

fn main() {
    let mut input = [0u8; 4097];
    let size = io::read_full(STDIN_FILENO, &mut input);
    let mut out = [0u8; 4096];
    let end = render::report(&input[..size], &mut out);
    io::write_all(STDOUT_FILENO, &out[..end]);
}
