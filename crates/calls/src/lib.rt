// The firmware and the bus make these calls between polls, on the record by value. Every call takes any record, any buffers and any
// numbers, and ends with one of document 01's answers; 10 is checked first. `device` is the record and `io` is the IO buffer.
//     command    the command shown to the firmware, and the command step
#![tactic(auto, using(crate::proofs::Laws::ways), unfolding(crate::specs::Checks::is_in, crate::specs::Status::takes_status))]

pub mod command;

ghost use Rattle.std.specs.Prelude.{◌≡◌, not};
ghost use Rattle.ring.specs.States.{state_number};
ghost use Rattle.device.specs.Device.{numbers_of};
ghost use Rattle.device.specs.Broken.{is_whole};
ghost use Rattle.calls.specs.Checks.{is_in};
ghost use Rattle.calls.specs.Status.{stating_of, takes_status, accepted_status, set_status_call};
ghost use Rattle.calls.specs.Inner.Returned.{refuses, checked, unmoved, moves_to, puts_in, keeps, enters0};
ghost use Rattle.calls.specs.Data.{moving_of, read_data_call, write_data_call, write_data_all_call};
ghost use Rattle.calls.specs.Bus.{handling_of, handling_of_request, reset_call, control_call};

use answers::{Answer, Stalls};
use buffer::marked::Overflow;
use buffer::{Marks, marked};
use device::{Device, Told, numbers_of, whole};
use ring::{State, state_number};
use wrapper::counters::{Left, PutIn, put_in_after, residue_of};
use wrapper::status::status_of;

// The firmware gives a status byte and its figure: how many bytes it dealt with.
#[derive(Clone, Copy)]
pub struct FirmwareStatus {
    pub status: u8,
    pub figure: u32,
}

// `set_status` gives the record and the answer.
#[derive(Clone, Copy)]
pub struct Stated {
    pub device: Device,
    pub answer: Answer,
}

// A read or write reports the answer and how many bytes were read or written.
#[derive(Clone, Copy)]
pub struct Count {
    pub answer: Answer,
    pub count: usize,
}

// A read or write gives the record and that report.
#[derive(Clone, Copy)]
pub struct Moved {
    pub device: Device,
    pub report: Count,
}

// These are the first two bytes of a control request.
#[derive(Clone, Copy)]
pub struct Request {
    pub requesttype: u8,
    pub request: u8,
}

// A reset or a control request reports the answer, what is asked of both endpoints, and what goes back to the host: nothing, or max LUN.
#[derive(Clone, Copy)]
pub struct Controlled {
    pub answer: Answer,
    pub stalls: Stalls,
    pub reply: Option<u8>,
}

// A reset or a control request gives the record and that report.
#[derive(Clone, Copy)]
pub struct Handled {
    pub device: Device,
    pub report: Controlled,
}

// ---- the record

// This says whether the record is broken over an IO buffer of `len` bytes.
pub(crate) fn broken(device: Device, len: usize) -> bool
    ensures { result ≡ not (is_whole (numbers_of device) len) }
{
    !whole(numbers_of(device), len)
}

// This says whether the device is in the state with this `number`.
pub fn is_in(device: Device, number: u8) -> bool
    ensures { result ≡ is_in number device }
{
    state_number(device.state) == number
}

// ---- the status

// This says whether a status is accepted in this `state`.
fn takes_status(state: State) -> bool
    ensures { result ≡ takes_status (state_number state) }
{
    matches!(
        state,
        State::DataTransferNoData
            | State::DataTransferToHost
            | State::DataTransferToHostStatusAwait
            | State::DataTransferFromHost
    )
}

// No status was taken, and the record stays.
fn untaken(device: Device, answer: Answer) -> Stated
    ensures { result ≡ refuses device answer }
{
    Stated { device, answer }
}

// The state accepts a status; a status byte above 2 is still refused.
fn accept(device: Device, given: FirmwareStatus) -> Stated
    ensures { stating_of result ≡ accepted_status device given }
{
    let Some(status) = status_of(given.status) else {
        return untaken(device, Answer::StatusRefused);
    };
    let residue = residue_of(device.wrapper.length, given.figure);
    Stated {
        device: Device {
            status: Some(Told { status, residue }),
            ..device
        },
        answer: Answer::Done,
    }
}

// The firmware sets the status of the command; a later one replaces the earlier.
pub fn set_status(device: Device, io: &[u8], given: FirmwareStatus) -> Stated
    ensures { stating_of result ≡ set_status_call device io.now given }
{
    if broken(device, io.len()) {
        return untaken(device, Answer::BrokenRecord);
    }
    if !takes_status(device.state) {
        return untaken(device, Answer::StatusRefused);
    }
    accept(device, given)
}

// ---- data

// A read or write works in this `state` alone: 10 is checked first, over an IO buffer of `len` bytes, and then 3.
fn checked(device: Device, len: usize, state: State) -> Result<(), Answer>
    ensures { result ≡ checked (state_number state) device len }
{
    if broken(device, len) {
        return Err(Answer::BrokenRecord);
    }
    if !is_in(device, state_number(state)) {
        return Err(Answer::InvalidState);
    }
    Ok(())
}

// Nothing was read or written, and the record stays.
fn refused(device: Device, answer: Answer) -> Moved
    ensures { result ≡ unmoved device answer }
{
    Moved {
        device,
        report: Count { answer, count: 0 },
    }
}

// `count` bytes were read or written, and the record gets these `marks`.
fn left_at(device: Device, marks: Marks, answer: Answer, count: usize) -> Moved
    ensures { result ≡ moves_to device marks answer count }
{
    Moved {
        device: Device { marks, ..device },
        report: Count { answer, count },
    }
}

// `count` bytes were put in: the record counts them and gets these `marks`.
fn put_in(device: Device, marks: Marks, count: usize) -> Moved
    ensures { result ≡ puts_in device marks count }
{
    let putin = put_in_after(device.putin, count);
    left_at(Device { putin, ..device }, marks, Answer::Done, count)
}

// The first unread bytes go to `dst`, as many as it holds.
pub fn read_data(device: Device, dst: &mut [u8], io: &[u8]) -> Moved
    ensures { moving_of result dst.new ≡ read_data_call device io.now dst.old }
{
    if let Err(why) = checked(device, io.len(), State::DataTransferFromHost) {
        return refused(device, why);
    }
    let got = marked::read(io, device.marks, dst.len(), dst);
    left_at(device, got.marks, Answer::Done, got.count)
}

// The first bytes of `src` go into the buffer: as many as fit, and no more than are left.
pub fn write_data(device: Device, io: &mut [u8], src: &[u8]) -> Moved
    ensures { moving_of result io.new ≡ write_data_call device io.old src.now }
{
    if let Err(why) = checked(device, io.len(), State::DataTransferToHost) {
        return refused(device, why);
    }
    let n = (device.left.0 as usize).min(src.len());
    let put = marked::write(io, device.marks, &src[..n]);
    put_in(device, put.marks, put.count)
}

// All of `src` goes into the buffer, or nothing; left does not limit it.
pub fn try_write_data_all(device: Device, io: &mut [u8], src: &[u8]) -> Moved
    ensures { moving_of result io.new ≡ write_data_all_call device io.old src.now }
{
    if let Err(why) = checked(device, io.len(), State::DataTransferToHost) {
        return refused(device, why);
    }
    match marked::write_all(io, device.marks, 0, src) {
        Ok(marks) => put_in(device, marks, src.len()),
        // A refusal keeps the move.
        Err(Overflow { missing, marks }) => {
            left_at(device, marks, Answer::IoBufferOverflow(missing), 0)
        }
    }
}

// ---- the bus

// Nothing is asked of the endpoints, and the record stays.
fn kept(device: Device, answer: Answer, reply: Option<u8>) -> Handled
    ensures { result ≡ keeps device answer reply }
{
    Handled {
        device,
        report: Controlled {
            answer,
            stalls: Stalls::Kept,
            reply,
        },
    }
}

// 0 is entered: status and left are cleared, what is put in is counted anew, and both endpoints are unstalled; the buffer and its marks
// stay.
fn enter(device: Device) -> Handled
    ensures { result ≡ enters0 device }
{
    Handled {
        device: Device {
            state: State::CommandTransfer,
            status: None,
            left: Left(0),
            putin: PutIn(0),
            ..device
        },
        report: Controlled {
            answer: Answer::Done,
            stalls: Stalls::Unstalled,
            reply: None,
        },
    }
}

// The bus was reset.
pub fn reset(device: Device, io: &[u8]) -> Handled
    ensures { handling_of result ≡ reset_call device io.now }
{
    if broken(device, io.len()) {
        return kept(device, Answer::BrokenRecord, None);
    }
    enter(device)
}

// The control request counts; only its number, `request`, decides.
fn serve(device: Device, request: u8) -> Handled
    ensures { handling_of result ≡ handling_of_request request device }
{
    match request {
        0xFF => enter(device),
        0xFE => kept(device, Answer::Done, Some(device.fixed.maxlun)),
        _ => kept(device, Answer::Done, None),
    }
}

// A control request counts only if it goes from device to host, is a class request, and is for an interface.
pub fn control(device: Device, io: &[u8], request: Request) -> Handled
    ensures { handling_of result ≡ control_call device io.now request }
{
    if broken(device, io.len()) {
        return kept(device, Answer::BrokenRecord, None);
    }
    if request.requesttype != 0xA1 {
        return kept(device, Answer::Done, None);
    }
    serve(device, request.request)
}
