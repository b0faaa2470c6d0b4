// One event of a run, and its line. The first event creates the device, and each later one acts on it.
ghost use Rattle.std.specs.Prelude.{◌≡◌, ◌-◌, ◌≤◌, length, take};
ghost use Rattle.answers.specs.Answers.{answer_of};
ghost use Rattle.benchline.specs.Inner.Line.{room_for, Puts};
ghost use Rattle.benchrun.specs.Run.{fields_of, line_text, stopped_at, beginning_of, creation_of_body, begin_by, running_of, step_by};
ghost use Rattle.benchrun.specs.Inner.Run.{Roomy};

use answers::{Answer, Stalls, answer_number, missing};
use benchact::{Acted, act};
use benchfile::event::event_at;
use benchline::{Line, put_line};
use device::create::{create, none};
use device::{Device, Fixed};
use fields::{byte, le16, le32};
use ring::state_number;

// How far a run has come: the device, the offset and the index of the next event, the length of the last event's line, and whether the
// run goes on. `going` stays a flag beside offset and index: `stopped_at` promises these of a run that has ended too.
#[derive(Clone, Copy)]
pub struct Run {
    pub device: Device,
    pub at: usize,
    pub index: usize,
    pub line: usize,
    pub going: bool,
}

// The fields of the line with the index `index`, for an event that left and told `a`. `listing` has the same for its calls: one function
// would stand in benchline, which then leans on the device, and is proved again with it.
#[tactic(auto, using(crate::proofs::Laws::told_fields))]
fn fields_of(index: usize, a: Acted) -> Line
    ensures { result ≡ fields_of index a.device (answer_of a.answer) a.count a.stalls }
{
    Line {
        index,
        answer: answer_number(a.answer),
        state: state_number(a.device.state),
        left: a.device.left.0,
        unread: a.device.marks.write.saturating_sub(a.device.marks.read),
        count: a.count,
        stalls: a.stalls,
        missing: missing(a.answer),
    }
}

// Puts the line of an event that left and told `a` at the front of `text`, and returns its length. The line shows the first of the lent
// bytes.
#[tactic(auto, using(crate::proofs::Laws::tells))]
fn tell(index: usize, a: Acted, lent: &[u8], text: &mut [u8]) -> usize
    requires { room_for (length lent.now) ≤ length text.old }
    ensures { Puts 0 (line_text index a.device (answer_of a.answer) a.count a.stalls (take a.shown lent.now)) text.old text.new result }
{
    let n = a.shown.min(lent.len());
    put_line(fields_of(index, a), &lent[..n], text)
}

// No event stands at the offset `at`: the run ends.
pub(crate) fn stopped(device: Device, at: usize, index: usize) -> Run
    ensures { result ≡ stopped_at device at index }
{
    Run {
        device,
        at,
        index,
        line: 0,
        going: false,
    }
}

// The creation that the body of the first event asks for: its device, or none, and its answer.
fn created(body: &[u8]) -> (Device, Answer)
    requires { length body.now ≡ 7 }
    ensures { record { answer = answer_of result.1; device = result.0 } ≡ creation_of_body body.now }
{
    let made = create(Fixed {
        packetsize: le16(body, 0) as usize,
        maxlun: byte(body, 2),
        size: le32(body, 3) as usize,
    });
    match made {
        Ok(device) => (device, Answer::Done),
        Err(why) => (none(), why),
    }
}

// Makes the first event, and puts its line into `text`.
#[tactic(auto, using(crate::proofs::Laws::begins))]
pub fn begin(events: &[u8], text: &mut [u8]) -> Run
    requires { room_for 0 ≤ length text.old }
    ensures { beginning_of result text.new ≡ begin_by events.now text.old }
{
    if event_at(events, 0).is_none() {
        return stopped(none(), 0, 0);
    }
    let body = &events[3..10];
    let (device, answer) = created(body);
    let length = tell(
        0,
        Acted {
            device,
            answer,
            count: 0,
            stalls: Stalls::Kept,
            shown: 0,
            offer: None,
        },
        &events[..0],
        text,
    );
    Run {
        device,
        at: 10,
        index: 1,
        line: length,
        going: answer_number(answer) == 0,
    }
}

// Makes the event at the offset of `run`, and puts its line into `text`.
#[tactic(auto, using(crate::proofs::Laws::steps))]
pub fn step(run: Run, events: &[u8], io: &mut [u8], lent: &mut [u8], text: &mut [u8]) -> Run
    requires { Roomy lent.old text.old × (run.index ≤ run.at) }
    ensures { running_of result io.new lent.new text.new ≡ step_by run events.now io.old lent.old text.old }
{
    let Some(e) = event_at(events, run.at) else {
        return stopped(run.device, run.at, run.index);
    };
    let from = run.at + 3;
    let end = from + e.length;
    let a = act(e.kind, &events[from..end], run.device, io, lent);
    let line = tell(run.index, a, lent, text);
    Run {
        device: a.device,
        at: end,
        index: run.index + 1,
        line,
        going: true,
    }
}
