// The command shown to the firmware, and the command step, over a record of bytes. Each call takes any bytes of any length, and tests
// first what it was lent. A refusal with 10 leaves all of it as it was. The results are words of the C interface, where an answer alone is
// its number; the flag that tells of extended addressing is a number there too.
// The block is shown and decoded where it stands in the record: copies of the block, and of the command by value, would be most of what
// these calls need of the firmware's stack.
#![tactic(auto)]

ghost use Rattle.std.specs.Prelude.{◌≡◌, ◌&&◌, ◌≤◌, length};
ghost use Rattle.fields.specs.Field.{get};
ghost use Rattle.scsi.specs.Decoding.{decode_call};
ghost use Rattle.scsi.specs.Numbers.{decode_outcome, decode_outcome_of};
ghost use Rattle.scsi.specs.Inner.Numbers.{outcome_number};
ghost use Rattle.device.specs.Device.{numbers_of};
ghost use Rattle.device.specs.Broken.{is_whole};
ghost use Rattle.calls.specs.Command.{showing, block_of};
ghost use Rattle.recordbytes.specs.Layout.{block_length, lun, record_size};
ghost use Rattle.recordbytes.specs.Record.{is_known, wrapper_at, device_at};
ghost use Rattle.border.specs.Word as spec;
ghost use Rattle.commandbytes.specs.Command.{command_outcome, command_outcome_of, command_on, command_step_by, command_step_on, command_step_told_on};

use border::word::word;
use buffer::span::put;
use calls::command::offers;
use calls::is_in;
use device::whole;
use fields::byte;
use recordbytes::{device_at, in_record, known, numbers_at};
use ring::{State, state_number};
use scsi::PLAIN_IS_EXTENDED;
use scsi::numbers::{Refusal, put_decoded};

// Says whether the bytes are a record, and one that is not broken.
fn unbroken(record: &[u8], io: &[u8]) -> bool
    ensures { result ≡ is_known «record».now && is_whole (numbers_of (device_at «record».now)) (length io.now) }
{
    if !known(record) {
        return false;
    }
    whole(numbers_at(record), io.len())
}

// Shows the record's command: its 16 bytes of block go into `block`.
fn show_block(record: &[u8], block: &mut [u8]) -> u64
    requires { (length «record».now ≡ record_size) × (length block.old ≡ 16) }
    ensures { command_outcome result block.new ≡ command_outcome_of block.old (showing (wrapper_at «record».now)) }
{
    put(block, 0, &record[in_record::BLOCK..in_record::PUT_IN]);
    word(
        0,
        byte(record, in_record::LUN),
        0,
        1,
        byte(record, in_record::BLOCK_LENGTH) as u32,
    )
}

// Shows the command: its block goes into `block`, its LUN and the block length into the result.
pub fn command(record: &[u8], io: &[u8], block: &mut [u8]) -> u64
    ensures { command_outcome result block.new ≡ command_on «record».now io.now block.old }
{
    if block.len() != 16 {
        return 10;
    }
    if !unbroken(record, io) {
        return 10;
    }
    if is_in(device_at(record), state_number(State::CommandTransfer)) {
        return 0;
    }
    show_block(record, block)
}

// Decodes the block of the record's command into the six numbers `command`.
fn decode_block(record: &[u8], extended: bool, command: &mut [u64]) -> Result<(), Refusal>
    requires { (length «record».now ≡ record_size) × (get block_length «record».now ≤ 16) }
    ensures { decode_outcome (outcome_number result) command.new ≡ decode_outcome_of command.old (decode_call extended (block_of (wrapper_at «record».now))) }
{
    let end = in_record::BLOCK + byte(record, in_record::BLOCK_LENGTH) as usize;
    put_decoded(&record[in_record::BLOCK..end], extended, command)
}

// Gives the result for a command that is offered: its LUN and the flag.
fn offered_word(record: &[u8]) -> u64
    requires { length «record».now ≡ record_size }
    ensures { result ≡ spec.word 0 (get lun «record».now) 0 1 0 }
{
    word(0, byte(record, in_record::LUN), 0, 1, 0)
}

// Offers the command, decoded: its numbers go into `command`, its LUN into the result.
fn step(record: &[u8], io: &[u8], extended: bool, command: &mut [u64]) -> u64
    ensures { command_outcome result command.new ≡ command_step_by extended «record».now io.now command.old }
{
    if command.len() != 6 {
        return 10;
    }
    if !unbroken(record, io) {
        return 10;
    }
    if !offers(device_at(record)) {
        return 0;
    }
    match decode_block(record, extended, command) {
        Ok(()) => offered_word(record),
        Err(refusal) => refusal.number() as u64,
    }
}

// Makes the command step with extended addressing on: this is the plain entry.
pub fn command_step(record: &[u8], io: &[u8], command: &mut [u64]) -> u64
    ensures { command_outcome result command.new ≡ command_step_on «record».now io.now command.old }
{
    step(record, io, PLAIN_IS_EXTENDED, command)
}

// Makes the command step with extended addressing off (`extended` is 0) or on (1). For any other `extended` it answers 10.
pub fn command_step_told(record: &[u8], io: &[u8], extended: u32, command: &mut [u64]) -> u64
    ensures { command_outcome result command.new ≡ command_step_told_on extended «record».now io.now command.old }
{
    if 1 < extended {
        return 10;
    }
    step(record, io, extended == 1, command)
}
