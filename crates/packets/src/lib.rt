// One packet is read into the IO buffer or sent from it; before a send the buffer may be filled up or get the status.
#![tactic(auto, using(crate::proofs::Laws::ways))]

ghost use Rattle.std.specs.Prelude.{◌≡◌, ◌≤◌, length};
ghost use Rattle.buffer.specs.Buffer.{buffer, at};
ghost use Rattle.buffer.specs.Inner.Buffer.{Sound, Leaves};
ghost use Rattle.answers.specs.Answers.{answer_of};
ghost use Rattle.wrapper.specs.Status.{status_number};
ghost use Rattle.packets.specs.Packets.{handed, send_answer, filled_up, status_written};
ghost use Rattle.packets.specs.Inner.Packets.{Reads, Sends};

use answers::{Answer, Endpoint, answered, served};
use buffer::marked::{Overflow, Taken};
use buffer::{Marks, marked};
use wrapper::counters::{Left, Residue};
use wrapper::in_status;
use wrapper::status::CommandStatus;

// After OUT was asked for a packet, these are the answer, how many bytes the packet brought if one was taken, and the marks.
#[derive(Clone, Copy)]
pub struct Received {
    pub answer: Answer,
    pub brought: Option<usize>,
    pub marks: Marks,
}

// After a packet was offered to IN, these are the answer, how many bytes IN took, and the marks.
#[derive(Clone, Copy)]
pub struct Sent {
    pub answer: Answer,
    pub count: usize,
    pub marks: Marks,
}

// One packet is read from OUT. Room for `p` bytes is asked for before the endpoint is, so the unread bytes may move even if OUT is busy.
pub fn read_packet(io: &mut [u8], m: Marks, p: usize, out: Endpoint, packet: &[u8]) -> Received
    requires { Sound (buffer io.old m) × (length packet.now ≤ p) }
    ensures { Reads p out packet.now (buffer io.old m) result io.new }
{
    // Two ways: with one, over the packet cut to what is handed over, a poll that finds OUT busy takes 15 % more instructions.
    let asked = if served(out) {
        marked::write_all(io, m, p, packet)
    } else {
        marked::write_all(io, m, p, &packet[..0])
    };
    match asked {
        Ok(marks) => Received {
            answer: answered(out),
            brought: served(out).then_some(packet.len()),
            marks,
        },
        Err(Overflow { missing, marks }) => Received {
            answer: Answer::IoBufferOverflow(missing),
            brought: None,
            marks,
        },
    }
}

// With nothing unread the endpoint is not asked, and the answer is 0.
fn send_answer(unread: usize, e: Endpoint) -> Answer
    ensures { answer_of result ≡ send_answer e unread }
{
    if unread == 0 {
        return Answer::Done;
    }
    answered(e)
}

// One packet is sent to IN: up to `p` unread bytes go to the front of the packet buffer.
pub fn send_packet(io: &[u8], m: Marks, p: usize, e: Endpoint, packet: &mut [u8]) -> Sent
    requires { Sound (buffer io.now m) × (p ≤ length packet.old) }
    ensures { Sends p e (buffer io.now m) packet.old result packet.new }
{
    if served(e) {
        let Taken { count, marks } = marked::read(io, m, p, packet);
        return Sent {
            answer: Answer::Done,
            count,
            marks,
        };
    }
    Sent {
        answer: send_answer(m.unread(), e),
        count: 0,
        marks: m,
    }
}

// The buffer is filled with 0xFF until min(`left`, `p`) bytes are unread.
pub fn fill(io: &mut [u8], m: Marks, p: usize, left: Left) -> Marks
    requires { Sound (buffer io.old m) }
    ensures { Leaves (buffer io.new result) (filled_up p left (buffer io.old m)) }
{
    let want = (left.0 as usize).min(p);
    let have = m.unread();
    if have < want {
        return marked::fill_up_to(io, m, 0xFF, want - have).marks;
    }
    m
}

// The buffer is emptied, and the status is written straight into it; of a status that is too long for it, what fits.
pub fn put_status(io: &mut [u8], tag: u32, residue: Residue, status: CommandStatus) -> Marks
    ensures { Leaves (buffer io.new result) (status_written tag residue (status_number status) (buffer io.old (at 0 0))) }
{
    let n = io.len().min(in_status::SIZE);
    wrapper::status::put_status(io, tag, residue, status);
    Marks { read: 0, write: n }
}
