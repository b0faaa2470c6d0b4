// The socket for firmware in C and for Rust programs. Calls take numbers and byte slices; the record is 56 bytes. In C a slice is two
// arguments, its pointer and its length; c/include/souklavanh.h says what each call does. Every call takes any bytes of any length and
// any numbers, and ends with an answer. Every call that is lent a record to work on tests it first; a refusal with 10 leaves everything
// as it was.
// An archive has only the functions of its own crate. So each call is handed on here, from the crate that proves it.
//     decode    the decoder's two entries, and BOT's verdict on a message
#![tactic(auto)]

mod decode;

ghost use Rattle.std.specs.Prelude.{◌≡◌};
ghost use Rattle.device.specs.Create.{fixed};
ghost use Rattle.bbb.specs.Poll.{given};
ghost use Rattle.ringbytes.specs.Poll.{poll_outcome, poll_on};
ghost use Rattle.databytes.specs.Data.{data_outcome, read_data_on, write_data_on, write_data_all_on};
ghost use Rattle.callbytes.specs.Calls.{call_outcome, create_on, set_status_on, reset_on, control_on};
ghost use Rattle.commandbytes.specs.Command.{command_outcome, command_on, command_step_on, command_step_told_on};

use bbb::Turn;

// Makes a new record.
#[unsafe(no_mangle)]
pub extern "C" fn souk_create(record: &mut [u8], packet_size: u32, max_lun: u8, size: u32) -> u32
    ensures { call_outcome result «record».new ≡ create_on «record».old (fixed packet_size max_lun size) }
{
    callbytes::create::create(record, packet_size, max_lun, size)
}

// Makes one poll. `one` and `two` are the packets offered; `first`, `second` and `write` are the answers of the two OUT reads and of the
// IN write.
#[unsafe(no_mangle)]
pub extern "C" fn souk_poll(
    record: &mut [u8],
    io: &mut [u8],
    packet: &mut [u8],
    one: &[u8],
    two: &[u8],
    first: u8,
    second: u8,
    write: u8,
) -> u64
    ensures { poll_outcome result «record».new io.new packet.new ≡ poll_on «record».old io.old (given packet.old one.now two.now (record { first = first; second = second; write = write })) }
{
    pollbytes::poll(
        record,
        io,
        packet,
        one,
        two,
        Turn {
            first,
            second,
            write,
        },
    )
}

// Sets the status that the host gets.
#[unsafe(no_mangle)]
pub extern "C" fn souk_set_status(record: &mut [u8], io: &[u8], status: u8, figure: u32) -> u32
    ensures { call_outcome result «record».new ≡ set_status_on «record».old io.now (record { status = status; figure = figure }) }
{
    callbytes::status::set_status(record, io, status, figure)
}

// Reads unread bytes of `io` into `dst`.
#[unsafe(no_mangle)]
pub extern "C" fn souk_read_data(record: &mut [u8], io: &[u8], dst: &mut [u8]) -> u64
    ensures { data_outcome result «record».new dst.new ≡ read_data_on «record».old io.now dst.old }
{
    databytes::read_data(record, io, dst)
}

// Writes bytes of `src` into `io`, as many as fit and at most as many as are left.
#[unsafe(no_mangle)]
pub extern "C" fn souk_write_data(record: &mut [u8], io: &mut [u8], src: &[u8]) -> u64
    ensures { data_outcome result «record».new io.new ≡ write_data_on «record».old io.old src.now }
{
    databytes::write_data(record, io, src)
}

// Writes all of `src` into `io`, or none of it.
#[unsafe(no_mangle)]
pub extern "C" fn souk_try_write_data_all(record: &mut [u8], io: &mut [u8], src: &[u8]) -> u64
    ensures { data_outcome result «record».new io.new ≡ write_data_all_on «record».old io.old src.now }
{
    databytes::try_write_data_all(record, io, src)
}

// Resets the device: it enters 0.
#[unsafe(no_mangle)]
pub extern "C" fn souk_reset(record: &mut [u8], io: &[u8]) -> u64
    ensures { call_outcome result «record».new ≡ reset_on «record».old io.now }
{
    callbytes::bus::reset(record, io)
}

// Handles the control request `request` with the bmRequestType `request_type`.
#[unsafe(no_mangle)]
pub extern "C" fn souk_control(record: &mut [u8], io: &[u8], request_type: u8, request: u8) -> u64
    ensures { call_outcome result «record».new ≡ control_on «record».old io.now (record { requesttype = request_type; request = request }) }
{
    callbytes::bus::control(record, io, request_type, request)
}

// Shows the command in the 16 bytes of `block`.
#[unsafe(no_mangle)]
pub extern "C" fn souk_command(record: &[u8], io: &[u8], block: &mut [u8]) -> u64
    ensures { command_outcome result block.new ≡ command_on «record».now io.now block.old }
{
    commandbytes::command(record, io, block)
}

// Offers the command, decoded, in the six numbers of `command`.
#[unsafe(no_mangle)]
pub extern "C" fn souk_command_step(record: &[u8], io: &[u8], command: &mut [u64]) -> u64
    ensures { command_outcome result command.new ≡ command_step_on «record».now io.now command.old }
{
    commandbytes::command_step(record, io, command)
}

// Offers the command in the same way; extended addressing is off where `extended` is 0 and on where it is 1.
#[unsafe(no_mangle)]
pub extern "C" fn souk_command_step_told(
    record: &[u8],
    io: &[u8],
    extended: u32,
    command: &mut [u64],
) -> u64
    ensures { command_outcome result command.new ≡ command_step_told_on extended «record».now io.now command.old }
{
    commandbytes::command_step_told(record, io, extended, command)
}
