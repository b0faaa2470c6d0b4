// The call that an event stands for. The bytes `lent` are lent to each call: they are the packet buffer of a poll and the destination of
// a read, and LUN and block, or the answer to a control request, are put there. A line shows the first of them. `body` are the bytes of
// the event after its first three.
#![tactic(auto)]

ghost use Rattle.std.specs.Prelude.{◌≡◌, true, ◌≤◌, length};
ghost use Rattle.calls.specs.Bus.{replied};
ghost use Rattle.calls.specs.Command.{offered_of};
ghost use Rattle.benchfile.specs.Event.{kind_number, is_poll_body, suits};
ghost use Rattle.benchact.specs.Act.{front, turn_of, poll_acts, firmware_status_of, read_acts, in_front, reset_acts, request_of, control_acts, extended_of, command_in_front, command_acts, act_by};
ghost use Rattle.benchact.specs.Inner.Act.{acting_of, told_by, polled_by, stated_by, moved_by, handled_by};

use answers::{Answer, Stalls};
use bbb::{Polled, Turn};
use benchfile::event::Kind;
use buffer::span;
use calls::command::Offer;
use calls::{FirmwareStatus, Handled, Moved, Request, Stated};
use device::Device;
use fields::{byte, le16, le32};
use wrapper::Wrapper;

// What a call left and told: the record, the answer, the count of the line, what was asked of the endpoints, how many of the lent bytes
// the line shows, and what a command step offered, decoded. No line shows the decoded command.
#[derive(Clone, Copy)]
pub struct Acted {
    pub device: Device,
    pub answer: Answer,
    pub count: usize,
    pub stalls: Stalls,
    pub shown: usize,
    pub offer: Option<Offer>,
}

// What is told of a call that counts, stalls, shows and offers nothing.
fn told(device: Device, answer: Answer) -> Acted
    ensures { result ≡ told_by device answer }
{
    Acted {
        device,
        answer,
        count: 0,
        stalls: Stalls::Kept,
        shown: 0,
        offer: None,
    }
}

// ---- 1 poll

// The answers of the endpoints in a poll's body.
#[tactic(auto, unfolding(crate::specs::Act::turn_of))]
fn turn_of(body: &[u8]) -> Turn
    requires { 5 ≤ length body.now }
    ensures { result ≡ turn_of body.now }
{
    Turn {
        first: byte(body, 1),
        second: byte(body, 2),
        write: byte(body, 0),
    }
}

// What is told of a poll: the line counts the packets taken and shows the bytes sent.
impl From<Polled> for Acted {
    ghost from_gives = { λ r a. a ≡ polled_by r };

    fn from(r: Polled) -> Acted {
        Acted {
            count: usize::from(r.report.taken),
            stalls: r.report.stalls,
            shown: r.report.sent,
            ..told(r.device, r.report.answer)
        }
    }
}

// Makes the poll. In its body the second packet stands right after the first.
#[tactic(auto, using(crate::proofs::Laws::poll_ways))]
fn poll(device: Device, io: &mut [u8], lent: &mut [u8], body: &[u8]) -> Acted
    requires { is_poll_body body.now ≡ true }
    ensures { acting_of result io.new lent.new ≡ poll_acts body.now device io.old lent.old }
{
    let turn = turn_of(body);
    let end = 5 + usize::from(byte(body, 3));
    Acted::from(bbb::poll(device, io, lent, &body[5..end], &body[end..], turn))
}

// ---- 2 status

// The status byte and the figure in a status's body.
#[tactic(auto, unfolding(crate::specs::Act::firmware_status_of))]
fn status_of(body: &[u8]) -> FirmwareStatus
    requires { length body.now ≡ 5 }
    ensures { result ≡ firmware_status_of body.now }
{
    FirmwareStatus {
        status: byte(body, 0),
        figure: le32(body, 1),
    }
}

// What is told of a status: the line shows no bytes.
impl From<Stated> for Acted {
    ghost from_gives = { λ r a. a ≡ stated_by r };

    fn from(r: Stated) -> Acted {
        told(r.device, r.answer)
    }
}

// ---- 3 write_data, 4 try_write_data_all, 5 read_data

// What is told of a write: the line counts the bytes moved, and shows none. Of a read it shows them, which `read_data` adds.
impl From<Moved> for Acted {
    ghost from_gives = { λ r a. a ≡ moved_by r };

    fn from(r: Moved) -> Acted {
        Acted {
            count: r.report.count,
            ..told(r.device, r.report.answer)
        }
    }
}

// Makes the read. Its room is a number of two bytes, so the lent bytes are long enough for it.
#[tactic(auto, using(crate::proofs::Laws::reads))]
fn read_data(device: Device, io: &[u8], lent: &mut [u8], body: &[u8]) -> Acted
    requires { (length body.now ≡ 2) × (65535 ≤ length lent.old) }
    ensures { acting_of result io.now lent.new ≡ read_acts body.now device io.now lent.old }
{
    let room = usize::from(le16(body, 0));
    let r = calls::read_data(device, &mut lent[..room], io);
    Acted {
        shown: r.report.count,
        ..Acted::from(r)
    }
}

// ---- 6 reset, 7 control

// Puts the answer to a control request at the front of `lent`, and returns how many bytes it has.
#[tactic(auto, using(crate::proofs::Laws::shows))]
fn put_reply(reply: Option<u8>, lent: &mut [u8]) -> usize
    requires { 1 ≤ length lent.old }
    ensures { front result lent.new ≡ in_front (replied reply) lent.old }
{
    match reply {
        None => 0,
        Some(most) => {
            lent[0] = most;
            1
        }
    }
}

// What is told of a reset or a control request: the line shows the reply, which `reset` and `control` add.
impl From<Handled> for Acted {
    ghost from_gives = { λ r a. a ≡ handled_by r };

    fn from(r: Handled) -> Acted {
        Acted {
            stalls: r.report.stalls,
            ..told(r.device, r.report.answer)
        }
    }
}

// Makes the reset.
fn reset(device: Device, io: &[u8], lent: &mut [u8]) -> Acted
    requires { 1 ≤ length lent.old }
    ensures { acting_of result io.now lent.new ≡ reset_acts device io.now lent.old }
{
    let r = calls::reset(device, io);
    Acted {
        shown: put_reply(r.report.reply, lent),
        ..Acted::from(r)
    }
}

// The control request in its body.
#[tactic(auto, unfolding(crate::specs::Act::request_of))]
fn request_of(body: &[u8]) -> Request
    requires { length body.now ≡ 2 }
    ensures { result ≡ request_of body.now }
{
    Request {
        requesttype: byte(body, 0),
        request: byte(body, 1),
    }
}

// Makes the control request.
fn control(device: Device, io: &[u8], lent: &mut [u8], body: &[u8]) -> Acted
    requires { (length body.now ≡ 2) × (1 ≤ length lent.old) }
    ensures { acting_of result io.now lent.new ≡ control_acts body.now device io.now lent.old }
{
    let r = calls::control(device, io, request_of(body));
    Acted {
        shown: put_reply(r.report.reply, lent),
        ..Acted::from(r)
    }
}

// ---- 8 command step

// Puts LUN and block at the front of `lent`, and returns how many bytes are shown. All 16 bytes of the block are put there; the line
// shows the LUN and as many of them as the block length says.
#[tactic(auto, using(crate::proofs::Laws::offers_nothing))]
fn put_command(offer: Option<Offer>, w: Wrapper, lent: &mut [u8]) -> usize
    requires { 17 ≤ length lent.old }
    ensures { front result lent.new ≡ command_in_front w (offered_of offer) lent.old }
{
    let Some(offer) = offer else {
        return 0;
    };
    lent[0] = offer.lun;
    span::put(lent, 1, &w.block);
    1 + (w.blocklength as usize)
}

// Whether the command step with the body `body` has extended addressing on. An empty body means off.
#[tactic(auto, using(std::proofs::lemmas::Bool::Decides::nat_tests), unfolding(crate::specs::Act::extended_of))]
fn extended_of(body: &[u8]) -> bool
    ensures { result ≡ extended_of body.now }
{
    !body.is_empty() && byte(body, 0) == 1
}

// Makes the command step: the entry that is told, for the Rust's default build has extended addressing off.
fn command(device: Device, io: &[u8], lent: &mut [u8], body: &[u8]) -> Acted
    requires { 17 ≤ length lent.old }
    ensures { acting_of result io.now lent.new ≡ command_acts body.now device io.now lent.old }
{
    let r = calls::command::command_step_told(device, io, extended_of(body));
    Acted {
        shown: put_command(r.offer, device.wrapper, lent),
        offer: r.offer,
        ..told(device, r.answer)
    }
}

// ---- the event

// Makes the call of any event after the first one. A creation never stands there; it is taken for a command step.
#[tactic(auto, using(crate::proofs::Laws::acts), unfolding(crate::specs::Act::act_by))]
pub fn act(kind: Kind, body: &[u8], device: Device, io: &mut [u8], lent: &mut [u8]) -> Acted
    requires { (suits (kind_number kind) body.now ≡ true) × (65535 ≤ length lent.old) }
    ensures { acting_of result io.new lent.new ≡ act_by (kind_number kind) body.now device io.old lent.old }
{
    match kind {
        Kind::Poll => poll(device, io, lent, body),
        Kind::Status => Acted::from(calls::set_status(device, io, status_of(body))),
        Kind::WriteData => Acted::from(calls::write_data(device, io, body)),
        Kind::TryWriteDataAll => Acted::from(calls::try_write_data_all(device, io, body)),
        Kind::ReadData => read_data(device, io, lent, body),
        Kind::Reset => reset(device, io, lent),
        Kind::Control => control(device, io, lent, body),
        Kind::CommandStep | Kind::Create => command(device, io, lent, body),
    }
}
