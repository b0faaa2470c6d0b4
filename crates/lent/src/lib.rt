// "The firmware keeps one device record" and lends it to a call; after the call the record has changed in its place. Each call here is
// thin: it takes the record `d` out of the reference, makes the call of the same name on it by value, and puts the new record back. Every
// call takes any record, any buffers and any numbers. It promises what the call by value promises, for what the reference holds at entry
// and at exit.
// The seven differ in the call alone and stay apart: `thin.proofs.Law.thin_spec`, by which each is proved, speaks of just these four lines.
#![tactic(auto)]

ghost use Rattle.std.specs.Prelude.{◌≡◌};
ghost use Rattle.bbb.specs.Poll.{given, poll_call};
ghost use Rattle.calls.specs.Status.{set_status_call};
ghost use Rattle.calls.specs.Data.{read_data_call, write_data_call, write_data_all_call};
ghost use Rattle.calls.specs.Bus.{reset_call, control_call};
ghost use Rattle.lent.specs.Lent.{polling_with, stating_with, moving_with, handling_with};

use answers::Answer;
use bbb::{Report, Turn};
use calls::{Controlled, Count, FirmwareStatus, Request};
use device::Device;

// This makes one poll.
pub fn poll(
    d: &mut Device,
    io: &mut [u8],
    packet: &mut [u8],
    one: &[u8],
    two: &[u8],
    turn: Turn,
) -> Report
    ensures { polling_with d.new result io.new packet.new ≡ poll_call d.old io.old (given packet.old one.now two.now turn) }
{
    let v = *d;
    let r = bbb::poll(v, io, packet, one, two, turn);
    *d = r.device;
    r.report
}

// The firmware sets the status of the command.
pub fn set_status(d: &mut Device, io: &[u8], given: FirmwareStatus) -> Answer
    ensures { stating_with d.new result ≡ set_status_call d.old io.now given }
{
    let v = *d;
    let r = calls::set_status(v, io, given);
    *d = r.device;
    r.answer
}

// The first unread bytes go to `dst`.
pub fn read_data(d: &mut Device, dst: &mut [u8], io: &[u8]) -> Count
    ensures { moving_with d.new result dst.new ≡ read_data_call d.old io.now dst.old }
{
    let v = *d;
    let r = calls::read_data(v, dst, io);
    *d = r.device;
    r.report
}

// The first bytes of `src` go into the buffer: as many as fit, and no more than are left.
pub fn write_data(d: &mut Device, io: &mut [u8], src: &[u8]) -> Count
    ensures { moving_with d.new result io.new ≡ write_data_call d.old io.old src.now }
{
    let v = *d;
    let r = calls::write_data(v, io, src);
    *d = r.device;
    r.report
}

// All of `src` goes into the buffer, or nothing.
pub fn try_write_data_all(d: &mut Device, io: &mut [u8], src: &[u8]) -> Count
    ensures { moving_with d.new result io.new ≡ write_data_all_call d.old io.old src.now }
{
    let v = *d;
    let r = calls::try_write_data_all(v, io, src);
    *d = r.device;
    r.report
}

// The bus was reset.
pub fn reset(d: &mut Device, io: &[u8]) -> Controlled
    ensures { handling_with d.new result ≡ reset_call d.old io.now }
{
    let v = *d;
    let r = calls::reset(v, io);
    *d = r.device;
    r.report
}

// This handles a control request.
pub fn control(d: &mut Device, io: &[u8], request: Request) -> Controlled
    ensures { handling_with d.new result ≡ control_call d.old io.now request }
{
    let v = *d;
    let r = calls::control(v, io, request);
    *d = r.device;
    r.report
}
