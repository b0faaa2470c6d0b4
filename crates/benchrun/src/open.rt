// The verdict on a file, and its first event: what stands in the text before anything is written.
ghost use Rattle.std.specs.Prelude.{◌≡◌, ◌-◌, ◌≤◌, length};
ghost use Rattle.benchline.specs.Inner.Line.{room_for};
ghost use Rattle.benchrun.specs.Run.{beginning_of, beginning_refused, OpensFile};

use crate::step::{Run, begin, stopped};
use benchfile::TRAILER;
use device::create::none;

// Where the events end: right before the trailer.
pub fn events_end(file: &[u8]) -> usize
    ensures { result ≡ length file.now - 12 }
{
    file.len().saturating_sub(TRAILER)
}

// Puts `14` into `text`; there is no run.
#[tactic(auto, using(crate::proofs::Laws::refuse))]
fn refuse(text: &mut [u8]) -> Run
    requires { room_for 0 ≤ length text.old }
    ensures { beginning_of result text.new ≡ beginning_refused text.old }
{
    text[..3].copy_from_slice(b"14\n");
    Run {
        line: 3,
        ..stopped(none(), 0, 0)
    }
}

// Makes the first event of a good file, and refuses any other file with `14`.
#[tactic(auto, using(crate::proofs::Laws::opens))]
pub fn open(file: &[u8], text: &mut [u8]) -> Run
    requires { room_for 0 ≤ length text.old }
    ensures { OpensFile file.now text.old (beginning_of result text.new) }
{
    if !benchfile::good(file) {
        return refuse(text);
    }
    begin(&file[..events_end(file)], text)
}
