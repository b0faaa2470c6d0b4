// The decoder's two entries, and BOT's verdict on a message: these are those of `scsi` and `wrapper`, under the names of the socket.
ghost use Rattle.std.specs.Prelude.{◌≡◌};
ghost use Rattle.scsi.specs.Numbers.{decode_outcome, shown_decode, shown_told};
ghost use Rattle.wrapper.specs.Verdict.{verdict_of, verdict_number};

use scsi::numbers::{decode_into, decode_told_into};
use wrapper::verdict::verdict_number;

// Decodes `block` into the six numbers of `command`, with extended addressing.
#[unsafe(no_mangle)]
pub extern "C" fn souk_decode(block: &[u8], command: &mut [u64]) -> u32
    ensures { decode_outcome result command.new ≡ shown_decode block.now command.old }
{
    decode_into(block, command)
}

// Decodes `block` in the same way; extended addressing is off where `extended` is 0 and on where it is 1.
#[unsafe(no_mangle)]
pub extern "C" fn souk_decode_told(block: &[u8], extended: u32, command: &mut [u64]) -> u32
    ensures { decode_outcome result command.new ≡ shown_told extended block.now command.old }
{
    decode_told_into(block, extended, command)
}

// Gives BOT's verdict on `message`, received by a device with the max LUN `max_lun`.
#[unsafe(no_mangle)]
pub extern "C" fn souk_verdict(message: &[u8], max_lun: u8) -> u32
    ensures { result ≡ verdict_number (verdict_of max_lun message.now) }
{
    verdict_number(message, max_lun)
}
