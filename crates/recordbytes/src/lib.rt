// The device record as C and Rust keep it: 56 bytes, with each field at a fixed place. specs/Layout.antt has the table.
//     in_record                where each field stands
//     known                    whether bytes are a record at all
//     numbers_at, device_at    what they hold
//     store                    a device's parts written back, one by one
// In every function `r` is the bytes of the record. Their number is required and not their type: with `&[u8; 56]` each call that C makes must
// turn its slice into an array, with one refusal more and the way back to prove (databytes was tried).
#![tactic(auto)]

pub mod in_record;
pub mod store;

ghost use Rattle.std.specs.Prelude.{◌≡◌, length};
ghost use Rattle.device.specs.Device.{numbers_of};
ghost use Rattle.recordbytes.specs.Layout as field;
ghost use Rattle.recordbytes.specs.Record.{is_known, status_by, status_at, marks_at, wrapper_at, fixed_at, device_at};

use buffer::Marks;
use device::{Device, Fixed, Numbers, Told, numbers_of};
use fields::{byte, bytes_at, le32};
use ring::state_of_number;
use wrapper::counters::{Left, PutIn, Residue};
use wrapper::status::status_of_number;
use wrapper::{Wrapper, direction_of_number};

// Bytes are a record if there are 56 and the numbers of state, flag, status and direction are among those that exist.
pub fn known(r: &[u8]) -> bool
    ensures { result ≡ is_known r.now }
{
    if r.len() != in_record::SIZE {
        return false;
    }
    let state = byte(r, in_record::STATE);
    let present = byte(r, in_record::STATUS_PRESENT);
    let status = byte(r, in_record::STATUS);
    let direction = byte(r, in_record::DIRECTION);
    state <= 8 && present <= 1 && status <= 2 && direction <= 2
}

// A `flag` of 0 says that there is no status; `number` and `residue` do not count then.
fn status_by(flag: u8, number: u8, residue: u32) -> Option<Told>
    ensures { result ≡ status_by flag number residue }
{
    if flag == 0 {
        return None;
    }
    Some(Told {
        status: status_of_number(number),
        residue: Residue(residue),
    })
}

// This is the status that the record holds.
fn status_at(r: &[u8]) -> Option<Told>
    requires { length r.now ≡ field.record_size }
    ensures { result ≡ status_at r.now }
{
    status_by(
        byte(r, in_record::STATUS_PRESENT),
        byte(r, in_record::STATUS),
        le32(r, in_record::RESIDUE),
    )
}

// These are the marks that the record holds.
fn marks_at(r: &[u8]) -> Marks
    requires { length r.now ≡ field.record_size }
    ensures { result ≡ marks_at r.now }
{
    Marks {
        read: le32(r, in_record::READ_MARK) as usize,
        write: le32(r, in_record::WRITE_MARK) as usize,
    }
}

// This is the wrapper that the record holds.
fn wrapper_at(r: &[u8]) -> Wrapper
    requires { length r.now ≡ field.record_size }
    ensures { result ≡ wrapper_at r.now }
{
    let direction = direction_of_number(byte(r, in_record::DIRECTION));
    let block = bytes_at(r, in_record::BLOCK);
    Wrapper {
        tag: le32(r, in_record::TAG),
        length: le32(r, in_record::DECLARED),
        direction,
        lun: byte(r, in_record::LUN),
        blocklength: byte(r, in_record::BLOCK_LENGTH),
        block,
    }
}

// These are the numbers that creation fixed.
fn fixed_at(r: &[u8]) -> Fixed
    requires { length r.now ≡ field.record_size }
    ensures { result ≡ fixed_at r.now }
{
    Fixed {
        packetsize: byte(r, in_record::PACKET_SIZE) as usize,
        maxlun: byte(r, in_record::MAX_LUN),
        size: le32(r, in_record::IO_LENGTH) as usize,
    }
}

// This is the device that the record holds.
pub fn device_at(r: &[u8]) -> Device
    requires { length r.now ≡ field.record_size }
    ensures { result ≡ device_at r.now }
{
    let fixed = fixed_at(r);
    let state = state_of_number(byte(r, in_record::STATE));
    let marks = marks_at(r);
    let wrapper = wrapper_at(r);
    let status = status_at(r);
    Device {
        fixed,
        state,
        marks,
        wrapper,
        status,
        left: Left(le32(r, in_record::LEFT)),
        putin: PutIn(le32(r, in_record::PUT_IN)),
    }
}

// These are the numbers of that device which decide about a poll.
pub fn numbers_at(r: &[u8]) -> Numbers
    requires { length r.now ≡ field.record_size }
    ensures { result ≡ numbers_of (device_at r.now) }
{
    numbers_of(device_at(r))
}
