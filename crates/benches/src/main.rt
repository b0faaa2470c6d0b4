// benches does what bench does for many files in one process. On standard input 4 bytes stand before each file: its length,
// little-endian. On standard output a line `==` stands before the lines of each file.
#![tactic(auto)]

ghost use Rattle.std.specs.Prelude.{◌≡◌, length};

// The descriptors of standard input and standard output.
const STDIN: i32 = 0;

const STDOUT: i32 = 1;

// The most bytes that are read of a file: one more than a good file can have, as in bench.
const MOST: usize = 65537;

// Reads the next file into `file`, prints its lines, and returns whether there was one. A length above `MOST`, or an input that ends
// within a file, counts as the end too.
fn next(file: &mut [u8]) -> bool
    requires { length file.old ≡ 65537 }
{
    let mut head = [0u8; 4];
    if io::read_full(STDIN, &mut head) < 4 {
        return false;
    }
    let n = u32::from_le_bytes(head) as usize;
    if MOST < n {
        return false;
    }
    if io::read_full(STDIN, &mut file[..n]) < n {
        return false;
    }
    io::write_all(STDOUT, b"==\n");
    benchrun::print(&file[..n]);
    true
}

// Goes through all files. A proved loop has to end, and nothing says that the input does. So it has a number of turns that no run uses
// up.
fn each(file: &mut [u8])
    requires { length file.old ≡ 65537 }
{
    for _ in 0..u64::MAX {
        if !next(file) {
            return;
        }
    }
}

// Reads each file into the same array.
fn main() {
    let mut file = [0u8; 65537];
    each(&mut file);
}
