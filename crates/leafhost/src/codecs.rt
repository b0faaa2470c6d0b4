// These are the calls of the wrapper, the status and the verdict, and the decoder's two entries. If what the caller lends for the result
// has another length than it should, it is a broken record: the answer is 10, and nothing changes.
ghost use Rattle.std.specs.Prelude.{◌≡◌};
ghost use Rattle.scsi.specs.Numbers.{decode_outcome, shown_decode, shown_told};
ghost use Rattle.wrapper.specs.Verdict.{verdict_of, verdict_number};
ghost use Rattle.leafhost.specs.Codecs.{wrapper_numbers, parse_outcome, shown_parse, status_outcome, shown_status};

use scsi::numbers::{decode_into, decode_told_into};
use wrapper::counters::residue_of;
use wrapper::status::{status_bytes, status_of};
use wrapper::verdict::verdict_number;
use wrapper::{Wrapper, direction_number, in_status};

// Gives the five numbers of the wrapper `w`.
fn numbers(w: Wrapper) -> [u32; 5]
    ensures { result ≡ wrapper_numbers w }
{
    [
        w.tag,
        w.length,
        direction_number(w.direction) as u32,
        w.lun as u32,
        w.blocklength as u32,
    ]
}

// Answers 1 if `message` is a valid wrapper, and 0 if it is not. A valid one leaves its five numbers in `fields` and the 16 bytes of its
// block in `block`. The answer is 10 if other lengths are lent.
#[unsafe(no_mangle)]
pub extern "C" fn wrapper_parse(message: &[u8], fields: &mut [u32], block: &mut [u8]) -> u32
    ensures { parse_outcome result fields.new block.new ≡ shown_parse message.now fields.old block.old }
{
    if fields.len() != 5 || block.len() != 16 {
        return 10;
    }
    let Some(w) = wrapper::parse(message) else {
        return 0;
    };
    fields.copy_from_slice(&numbers(w));
    block.copy_from_slice(&w.block);
    1
}

// Writes the status for a wrapper with this `tag` and `length` (L), with the firmware's `figure` and its status byte, `byte`. It answers 0
// if the status stands in `bytes`, 12 if `byte` is above 2, and 10 if `bytes` does not have 13 bytes.
#[unsafe(no_mangle)]
pub extern "C" fn wrapper_status(
    tag: u32,
    length: u32,
    figure: u32,
    byte: u8,
    bytes: &mut [u8],
) -> u32
    ensures { status_outcome result bytes.new ≡ shown_status tag length figure byte bytes.old }
{
    if bytes.len() != in_status::SIZE {
        return 10;
    }
    let Some(status) = status_of(byte) else {
        return 12;
    };
    bytes.copy_from_slice(&status_bytes(tag, residue_of(length, figure), status));
    0
}

// Answers with BOT's verdict on `message`, for a device with the LUNs 0 to `maxlun`: 0 invalid, 1 valid only, 2 meaningful.
#[unsafe(no_mangle)]
pub extern "C" fn wrapper_verdict(message: &[u8], maxlun: u8) -> u32
    ensures { result ≡ verdict_number (verdict_of maxlun message.now) }
{
    verdict_number(message, maxlun)
}

// Decodes `block` into the six numbers `command`, with extended addressing on. It answers 0 if the command stands there, 13 if the block
// is empty, and 10 if `command` does not have six numbers.
#[unsafe(no_mangle)]
pub extern "C" fn scsi_decode(block: &[u8], command: &mut [u64]) -> u32
    ensures { decode_outcome result command.new ≡ shown_decode block.now command.old }
{
    decode_into(block, command)
}

// Decodes `block` into the six numbers `command`, with extended addressing off (`extended` is 0) or on (1). For any other `extended` it
// answers 10; its other answers are those of `scsi_decode`.
#[unsafe(no_mangle)]
pub extern "C" fn scsi_decode_told(block: &[u8], extended: u32, command: &mut [u64]) -> u32
    ensures { decode_outcome result command.new ≡ shown_told extended block.now command.old }
{
    decode_told_into(block, extended, command)
}
