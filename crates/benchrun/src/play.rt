// A run from its first turn to its last. Each turn hands the front of the text, as long as the line, to C's write. Nothing else is handed
// over anywhere. All text is put in place by `open` and `step`, which promise it.
ghost use Rattle.std.specs.Prelude.{◌≤◌, length};
ghost use Rattle.benchrun.specs.Run.{running_of};
ghost use Rattle.benchrun.specs.Inner.Run.{Roomy};
ghost use Rattle.benchrun.specs.Turns.{Played, PlayedFile};

use crate::open::{events_end, open};
use crate::step::{Run, step};

// The descriptor of standard output.
const STDOUT: i32 = 1;

// Plays the run from `begun` on, turn by turn, to its end.
pub fn play(begun: Run, events: &[u8], io: &mut [u8], lent: &mut [u8], text: &mut [u8])
    requires { Roomy lent.old text.old × (begun.index ≤ begun.at) × (begun.line ≤ length text.old) }
    ensures { Played events.now (running_of begun io.old lent.old text.old) io.new lent.new text.new }
{
    let mut run = begun;
    loop {
        io::write_all(STDOUT, &text[..run.line]);
        if !run.going {
            return;
        }
        run = step(run, events, io, lent, text);
    }
}

// Plays a file from its verdict on. The IO buffer is the front of `space`, as long as the device asks for.
pub fn play_file(file: &[u8], space: &mut [u8], lent: &mut [u8], text: &mut [u8])
    requires { Roomy lent.old text.old × (65536 ≤ length space.old) }
    ensures { PlayedFile file.now space.old lent.old text.old space.new lent.new text.new }
{
    let begun = open(file, text);
    let end = events_end(file);
    let size = begun.device.fixed.size;
    play(begun, &file[..end], &mut space[..size], lent, text);
}
