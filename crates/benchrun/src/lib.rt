// A bench file is run, and its lines are written to standard output.
//     step    one event and its line
//     open    a file's verdict, and its first event
//     play    turn by turn, up to the end; the one call of C's write
// No contract can say what a call of C's writes. Two things are promised: what text each turn puts in place, and that the loop leaves
// what all turns of a run leave (specs/Turns.antt). That the one call in each turn is given the front of the text has to be read in
// `play`.
#![tactic(auto)]

mod open;
mod play;
mod step;

ghost use Rattle.std.specs.Prelude.{◌≡◌, length};

use crate::play::play_file;

// Room for the most bytes that an event shows. The contract gives a caller the length of the array, and nothing else is needed.
fn most_shown() -> [u8; 65535]
    ensures { 65535 ≡ length result }
{
    [0; 65535]
}

// Room for the longest line with as many bytes.
fn longest_line() -> [u8; 131222]
    ensures { 131222 ≡ length result }
{
    [0; 131222]
}

// Prints the lines of the bench file `file`, or `14` alone where it breaks a rule.
pub fn print(file: &[u8]) {
    let mut space = io::large_buffer();
    let mut lent = most_shown();
    let mut text = longest_line();
    play_file(file, &mut space, &mut lent, &mut text);
}
