// For callers in C and Rust a command is six numbers: which command it is, in the order of the Rust's enum, and its fields. The decoder's
// two entries stand here with the command in such numbers.
ghost use Rattle.std.specs.Prelude.{◌≡◌, length};
ghost use Rattle.scsi.specs.Decoding.{decode_call};
ghost use Rattle.scsi.specs.Numbers.{six, command_numbers, decode_outcome, decode_outcome_of, shown_decode, shown_told};
ghost use Rattle.scsi.specs.Inner.Numbers.{refusal_number, outcome_number};

use crate::{PLAIN_IS_EXTENDED, ScsiCommand, command};

// Nothing is decoded: what was lent is not six numbers, or what was told is no flag, or the block is empty. The refusals have 01's numbers.
#[derive(Clone, Copy)]
pub enum Refusal {
    BrokenRecord = 10,
    EmptyBlock = 13,
}

impl Refusal {
    // Gives 01's number of the refusal.
    pub fn number(self) -> u32
        ensures { result ≡ refusal_number self }
    {
        self as u32
    }
}

// Stores a command's six numbers, `kind` and the fields `a` to `e`, in `lent`. This and the next function take a slice and not an array: std's
// `as_mut_array` gives back a pointer, which no function may do in the module for 32-bit processors (tools/pointers.awk).
fn put_six(lent: &mut [u64], kind: u64, a: u64, b: u64, c: u64, d: u64, e: u64)
    requires { length lent.old ≡ 6 }
    ensures { lent.new ≡ six kind a b c d e }
{
    lent[0] = kind;
    lent[1] = a;
    lent[2] = b;
    lent[3] = c;
    lent[4] = d;
    lent[5] = e;
}

// Stores the six numbers of `command` in `lent`. It has an arm for each of the eleven commands, and so is longer than other functions.
pub fn put_command(lent: &mut [u64], command: ScsiCommand)
    requires { length lent.old ≡ 6 }
    ensures { lent.new ≡ command_numbers command }
{
    match command {
        ScsiCommand::Unknown { cmd } => put_six(lent, 0, cmd as u64, 0, 0, 0, 0),
        ScsiCommand::Inquiry {
            evpd,
            page_code,
            alloc_len,
        } => {
            put_six(
                lent,
                1,
                evpd as u64,
                page_code as u64,
                alloc_len as u64,
                0,
                0,
            )
        }
        ScsiCommand::TestUnitReady => put_six(lent, 2, 0, 0, 0, 0, 0),
        ScsiCommand::RequestSense { desc, alloc_len } => {
            put_six(lent, 3, desc as u64, alloc_len as u64, 0, 0, 0)
        }
        ScsiCommand::ModeSense6 {
            dbd,
            page_control,
            page_code,
            subpage_code,
            alloc_len,
        } => {
            put_six(
                lent,
                4,
                dbd as u64,
                page_control as u64,
                page_code as u64,
                subpage_code as u64,
                alloc_len as u64,
            )
        }
        ScsiCommand::ModeSense10 {
            dbd,
            page_control,
            page_code,
            subpage_code,
            alloc_len,
        } => {
            put_six(
                lent,
                5,
                dbd as u64,
                page_control as u64,
                page_code as u64,
                subpage_code as u64,
                alloc_len as u64,
            )
        }
        ScsiCommand::ReadCapacity10 => put_six(lent, 6, 0, 0, 0, 0, 0),
        ScsiCommand::ReadCapacity16 { alloc_len } => put_six(lent, 7, alloc_len as u64, 0, 0, 0, 0),
        ScsiCommand::Read { lba, len } => put_six(lent, 8, lba, len as u64, 0, 0, 0),
        ScsiCommand::Write { lba, len } => put_six(lent, 9, lba, len as u64, 0, 0, 0),
        ScsiCommand::ReadFormatCapacities { alloc_len } => put_six(
            lent,
            10,
            alloc_len as u64,
            0,
            0,
            0,
            0,
        ),
    }
}

// Decodes `block`, and stores its command in the six numbers `lent`. Nothing but the command itself stands between the two: each further
// copy of a command is 24 bytes of stack. The answer is 0 if the command stands there, 13 if the block is empty, and 10 if `lent` does
// not have six numbers. It is C's number and no Result, since an entry for C then goes here by a jump: over a Result INQUIRY took 84
// instructions for 74, and more stack.
#[tactic(auto, unfolding(crate::specs::Decoding::decode_call, crate::specs::Numbers::decode_outcome_of))]
fn decode_numbers(block: &[u8], extended: bool, lent: &mut [u64]) -> u32
    ensures { decode_outcome result lent.new ≡ decode_outcome_of lent.old (decode_call extended block.now) }
{
    if lent.len() != 6 {
        return 10;
    }
    if block.len() == 0 {
        return 13;
    }
    put_command(lent, command(block, extended));
    0
}

// The same for callers in Rattle: it refuses lent numbers that are not six first, and then an empty block.
pub fn put_decoded(block: &[u8], extended: bool, lent: &mut [u64]) -> Result<(), Refusal>
    ensures { decode_outcome (outcome_number result) lent.new ≡ decode_outcome_of lent.old (decode_call extended block.now) }
{
    match decode_numbers(block, extended, lent) {
        0 => Ok(()),
        13 => Err(Refusal::EmptyBlock),
        _ => Err(Refusal::BrokenRecord),
    }
}

// Decodes `block` with extended addressing on: this is the plain entry. It answers as `decode_numbers` does.
#[tactic(auto, unfolding(crate::specs::Numbers::shown_decode, crate::specs::Decoding::plain_call))]
pub fn decode_into(block: &[u8], lent: &mut [u64]) -> u32
    ensures { decode_outcome result lent.new ≡ shown_decode block.now lent.old }
{
    decode_numbers(block, PLAIN_IS_EXTENDED, lent)
}

// Decodes `block` with extended addressing off (`extended` is 0) or on (1). For any other `extended` it answers 10;
// its other answers are those of `decode_into`. The flag is a number, as the C interface has it.
#[tactic(auto, unfolding(crate::specs::Numbers::shown_told))]
pub fn decode_told_into(block: &[u8], extended: u32, lent: &mut [u64]) -> u32
    ensures { decode_outcome result lent.new ≡ shown_told extended block.now lent.old }
{
    if 1 < extended {
        return 10;
    }
    decode_numbers(block, extended == 1, lent)
}
