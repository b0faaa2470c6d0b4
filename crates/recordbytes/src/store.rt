// A device's parts are stored in the bytes `r` of a record. A number is written whether it changed or not: the bytes are the same either
// way, and to compare first costs more than to store (docs/READOUT.md).
ghost use Rattle.std.specs.Prelude.{◌≡◌, ◌+◌, ◌≤◌, ◌<◌, ◌^◌, length};
ghost use Rattle.fields.specs.Field.{little_endian, one_byte};
ghost use Rattle.buffer.specs.Buffer.{at};
ghost use Rattle.recordbytes.specs.Layout as field;
ghost use Rattle.recordbytes.specs.Record.{marks_at, store, store_state, store_marks, store_left, store_put_in, store_status, store_wrapper, new_record};
ghost use Rattle.recordbytes.specs.Inner.Record.{wrapper_of_head};
ghost use Rattle.recordbytes.specs.Inner.Storable.{StorableFixed};

use crate::in_record;
use buffer::Marks;
use buffer::span::put;
use device::{Fixed, Told};
use fields::{put_byte, put_le32};
use ring::{State, state_number};
use wrapper::counters::{Left, PutIn};
use wrapper::status::status_number;
use wrapper::{Head, direction_number};

// The byte `n` is stored at the place `at`. This and `store32` stand beside `put_byte` and `put_le32` for their contract alone: that to write
// is to store is proved here once, and not in each function below.
fn store8(r: &mut [u8], at: usize, n: u8)
    requires { at < length r.old }
    ensures { r.new ≡ store (one_byte at) n r.old }
{
    put_byte(r, at, n);
}

// The number `n` is stored in the four bytes from `at` on.
fn store32(r: &mut [u8], at: usize, n: u32)
    requires { at + 4 ≤ length r.old }
    ensures { r.new ≡ store (little_endian at 4) n r.old }
{
    put_le32(r, at, n);
}

// `n` is below 2^32 and becomes a number of 32 bits.
pub fn narrow(n: usize) -> u32
    requires { n < 2 ^ 32 }
    ensures { result ≡ n }
{
    n as u32
}

// This is the record of a new device. All bytes are written, whatever they were.
pub fn new(r: &mut [u8], fixed: Fixed)
    requires { (length r.old ≡ field.record_size) × StorableFixed fixed }
    ensures { r.new ≡ new_record fixed }
{
    let zeros = [0u8; in_record::SIZE];
    put(r, 0, &zeros);
    store8(r, in_record::PACKET_SIZE, fixed.packetsize as u8);
    store8(r, in_record::MAX_LUN, fixed.maxlun);
    store32(r, in_record::IO_LENGTH, narrow(fixed.size));
}

// The state is stored by 01's number.
pub fn state(r: &mut [u8], state: State)
    requires { length r.old ≡ field.record_size }
    ensures { r.new ≡ store_state state r.old }
{
    store8(r, in_record::STATE, state_number(state));
}

// Both marks are stored; each is below 2^32.
pub fn marks(r: &mut [u8], marks: Marks)
    requires { (length r.old ≡ field.record_size) × (marks.read < 2 ^ 32) × (marks.write < 2 ^ 32) }
    ensures { r.new ≡ store_marks marks r.old }
{
    store32(r, in_record::READ_MARK, narrow(marks.read));
    store32(r, in_record::WRITE_MARK, narrow(marks.write));
}

// The read mark is stored; the write mark stays. A poll in the middle of a transfer moves one mark only.
pub fn read_mark(r: &mut [u8], mark: usize)
    requires { (length r.old ≡ field.record_size) × (mark < 2 ^ 32) }
    ensures { r.new ≡ store_marks (at mark (marks_at r.old).write) r.old }
{
    store32(r, in_record::READ_MARK, narrow(mark));
}

// The write mark is stored; the read mark stays.
pub fn write_mark(r: &mut [u8], mark: usize)
    requires { (length r.old ≡ field.record_size) × (mark < 2 ^ 32) }
    ensures { r.new ≡ store_marks (at (marks_at r.old).read mark) r.old }
{
    store32(r, in_record::WRITE_MARK, narrow(mark));
}

// The count left is stored.
pub fn left(r: &mut [u8], left: Left)
    requires { length r.old ≡ field.record_size }
    ensures { r.new ≡ store_left left r.old }
{
    store32(r, in_record::LEFT, left.0);
}

// The count of what was put in is stored.
pub fn put_in(r: &mut [u8], putin: PutIn)
    requires { length r.old ≡ field.record_size }
    ensures { r.new ≡ store_put_in putin r.old }
{
    store32(r, in_record::PUT_IN, putin.0);
}

// If there is no status, only the flag is written.
pub fn status(r: &mut [u8], status: Option<Told>)
    requires { length r.old ≡ field.record_size }
    ensures { r.new ≡ store_status status r.old }
{
    match status {
        None => store8(r, in_record::STATUS_PRESENT, 0),
        Some(t) => {
            store8(r, in_record::STATUS_PRESENT, 1);
            store32(r, in_record::RESIDUE, t.residue.0);
            store8(r, in_record::STATUS, status_number(t.status));
        }
    }
}

// The wrapper with this `head` and this command `block` is stored.
pub fn wrapper(r: &mut [u8], head: Head, block: &[u8])
    requires { (length r.old ≡ field.record_size) × (length block.now ≡ 16) }
    ensures { r.new ≡ store_wrapper (wrapper_of_head head block.now) r.old }
{
    store8(r, in_record::DIRECTION, direction_number(head.direction));
    store8(r, in_record::LUN, head.lun);
    store8(r, in_record::BLOCK_LENGTH, head.blocklength);
    store32(r, in_record::TAG, head.tag);
    store32(r, in_record::DECLARED, head.length);
    put(r, in_record::BLOCK, block);
}
