// bench prints the lines of a bench file that it reads from standard input. It reads up to one byte more than a good file can have, so
// that a longer file is noticed.
#![tactic(auto)]

// The descriptor of standard input.
const STDIN: i32 = 0;

fn main() {
    let mut file = [0u8; 65537];
    let n = io::read_full(STDIN, &mut file);
    benchrun::print(&file[..n]);
}
