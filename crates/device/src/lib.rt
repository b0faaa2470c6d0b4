// The device record, a test whether it is broken, and its creation.
#![tactic(auto)]

pub mod create;

ghost use Rattle.std.specs.Prelude.{◌≡◌};
ghost use Rattle.device.specs.Device.{is_present, numbers_of};
ghost use Rattle.device.specs.Broken.{command_fits, status_fits, is_whole};

use crate::create::creatable;
use buffer::{Marks, sound};
use ring::State;
use wrapper::Wrapper;
use wrapper::counters::{Left, PutIn, Residue};
use wrapper::status::CommandStatus;

// This is what the host is told of a command: the firmware's status, and the residue.
#[derive(Clone, Copy)]
pub struct Told {
    pub status: CommandStatus,
    pub residue: Residue,
}

// These numbers never change after creation: the packet size P, the max LUN, and the length of the IO buffer.
#[derive(Clone, Copy)]
pub struct Fixed {
    pub packetsize: usize,
    pub maxlun: u8,
    pub size: usize,
}

// The device record holds everything that a poll or a call must know from before.
#[derive(Clone, Copy)]
pub struct Device {
    pub fixed: Fixed,
    pub state: State,
    pub marks: Marks,
    pub wrapper: Wrapper,
    pub status: Option<Told>,
    pub left: Left,
    pub putin: PutIn,
}

// These numbers of the record decide whether it is broken and what a poll does. They are numbers and small enums; the command block and
// the count of what was put in are not among them.
#[derive(Clone, Copy)]
pub struct Numbers {
    pub fixed: Fixed,
    pub state: State,
    pub marks: Marks,
    pub tag: u32,
    pub lun: u8,
    pub blocklength: u8,
    pub status: Option<Told>,
    pub left: Left,
}

// This says whether a status is present.
pub fn present(status: Option<Told>) -> bool
    ensures { result ≡ is_present status }
{
    status.is_some()
}

// These are the numbers of the record `d` that decide.
pub fn numbers_of(d: Device) -> Numbers
    ensures { result ≡ numbers_of d }
{
    Numbers {
        fixed: d.fixed,
        state: d.state,
        marks: d.marks,
        tag: d.wrapper.tag,
        lun: d.wrapper.lun,
        blocklength: d.wrapper.blocklength,
        status: d.status,
        left: d.left,
    }
}

// This says whether LUN and block length are in their bounds.
fn command_fits(lun: u8, blocklength: u8) -> bool
    ensures { result ≡ command_fits lun blocklength }
{
    lun <= 15 && blocklength <= 16
}

// This says whether a status may be `present`, or missing, in this `state`.
fn status_fits(state: State, present: bool) -> bool
    ensures { result ≡ status_fits state present }
{
    match state {
        State::CommandTransfer | State::CommandTransferInvalid => !present,
        State::StatusTransfer
        | State::DataTransferToHostEnding
        | State::DataTransferFromHostEnding => present,
        _ => true,
    }
}

// This says whether a record with the numbers `n` is whole, that is not broken, over an IO buffer of `len` bytes.
pub fn whole(n: Numbers, len: usize) -> bool
    ensures { result ≡ is_whole n len }
{
    n.fixed.size == len
        && creatable(n.fixed)
        && sound(n.fixed.size, n.marks)
        && command_fits(n.lun, n.blocklength)
        && status_fits(n.state, present(n.status))
}
