// These functions read the fields of each listed command. Bytes and bits are counted as in the standards' tables.
ghost use Rattle.std.specs.Prelude.{◌≡◌, true, ◌≤◌, ◌<◌, length};
ghost use Rattle.scsi.specs.Commands.{flag, number_at, page_control_of_number, request_sense, inquiry, mode_sense6, mode_sense10, read_capacity16, read_format_capacities};
ghost use Rattle.scsi.specs.Decoding.{rows, lists, fields_by};
ghost use Rattle.scsi.specs.Inner.Decoding.{shortest_of};

use crate::{PageControl, ScsiCommand};
use fields::{be16, be32, be64, bits_of, byte};

// Tests whether the bit `bit` of the byte of `b` at index `at` is set.
#[tactic(auto, unfolding(crate::specs::Commands::flag))]
fn is_set(b: &[u8], at: usize, bit: u8) -> bool
    requires { (at < length b.now) × (bit < 8) }
    ensures { result ≡ flag at bit b.now }
{
    bits_of(b, at, bit, 1) == 1
}

// Gives the page control that SPC's number `n` stands for.
#[tactic(auto, unfolding(crate::specs::Commands::page_control_of_number))]
fn control_of(n: u8) -> PageControl
    ensures { result ≡ page_control_of_number n }
{
    match n {
        1 => PageControl::ChangeableValues,
        2 => PageControl::DefaultValues,
        3 => PageControl::SavedValues,
        _ => PageControl::CurrentValues,
    }
}

// Reads the fields of a REQUEST SENSE. Like the functions after it, it requires the length that the table has for its opcode.
fn request_sense(b: &[u8]) -> ScsiCommand
    requires { shortest_of rows 0x03 ≤ length b.now }
    ensures { result ≡ request_sense b.now }
{
    ScsiCommand::RequestSense {
        desc: is_set(b, 1, 0),
        alloc_len: byte(b, 4),
    }
}

// Reads the fields of an INQUIRY.
fn inquiry(b: &[u8]) -> ScsiCommand
    requires { shortest_of rows 0x12 ≤ length b.now }
    ensures { result ≡ inquiry b.now }
{
    ScsiCommand::Inquiry {
        evpd: is_set(b, 1, 0),
        page_code: byte(b, 2),
        alloc_len: be16(b, 3),
    }
}

// Reads the fields of a MODE SENSE (6). A function that reads what it shares with MODE SENSE (10) would give back four values at once, and
// each of the two would have to name them all again.
fn mode_sense_6(b: &[u8]) -> ScsiCommand
    requires { shortest_of rows 0x1A ≤ length b.now }
    ensures { result ≡ mode_sense6 b.now }
{
    ScsiCommand::ModeSense6 {
        dbd: is_set(b, 1, 3),
        page_control: control_of(bits_of(b, 2, 6, 2)),
        page_code: bits_of(b, 2, 0, 6),
        subpage_code: byte(b, 3),
        alloc_len: byte(b, 4),
    }
}

// Reads the fields of a MODE SENSE (10).
fn mode_sense_10(b: &[u8]) -> ScsiCommand
    requires { shortest_of rows 0x5A ≤ length b.now }
    ensures { result ≡ mode_sense10 b.now }
{
    ScsiCommand::ModeSense10 {
        dbd: is_set(b, 1, 3),
        page_control: control_of(bits_of(b, 2, 6, 2)),
        page_code: bits_of(b, 2, 0, 6),
        subpage_code: byte(b, 3),
        alloc_len: be16(b, 7),
    }
}

// Reads the fields of a READ CAPACITY (16). Its service action is not looked at, as in the Rust.
fn read_capacity_16(b: &[u8]) -> ScsiCommand
    requires { shortest_of rows 0x9E ≤ length b.now }
    ensures { result ≡ read_capacity16 b.now }
{
    ScsiCommand::ReadCapacity16 {
        alloc_len: be32(b, 10),
    }
}

// Reads the address and the number of blocks of a READ (10) or a WRITE (10), which have the same fields.
fn extent_10(b: &[u8]) -> (u64, u32)
    requires { shortest_of rows 0x28 ≤ length b.now }
    ensures { result ≡ (number_at 2 4 b.now, number_at 7 2 b.now) }
{
    (be32(b, 2) as u64, be16(b, 7) as u32)
}

// Reads the address and the number of blocks of a READ (16) or a WRITE (16).
fn extent_16(b: &[u8]) -> (u64, u32)
    requires { shortest_of rows 0x88 ≤ length b.now }
    ensures { result ≡ (number_at 2 8 b.now, number_at 10 4 b.now) }
{
    (be64(b, 2), be32(b, 10))
}

// Reads the fields of a READ FORMAT CAPACITIES.
fn read_format_capacities(b: &[u8]) -> ScsiCommand
    requires { shortest_of rows 0x23 ≤ length b.now }
    ensures { result ≡ read_format_capacities b.now }
{
    ScsiCommand::ReadFormatCapacities {
        alloc_len: be16(b, 7),
    }
}

// Reads the command from a block `b` that the table lists with its `opcode`. The last arm is never reached.
#[tactic(auto, unfolding(crate::specs::Decoding::lists, crate::specs::Decoding::fields_by))]
pub(crate) fn read_fields(b: &[u8], opcode: u8) -> ScsiCommand
    requires { lists rows opcode (length b.now) ≡ true }
    ensures { result ≡ fields_by rows opcode b.now }
{
    match opcode {
        0x00 => ScsiCommand::TestUnitReady,
        0x03 => request_sense(b),
        0x12 => inquiry(b),
        0x1A => mode_sense_6(b),
        0x23 => read_format_capacities(b),
        0x25 => ScsiCommand::ReadCapacity10,
        0x28 => {
            let (lba, len) = extent_10(b);
            ScsiCommand::Read { lba, len }
        }
        0x2A => {
            let (lba, len) = extent_10(b);
            ScsiCommand::Write { lba, len }
        }
        0x5A => mode_sense_10(b),
        0x88 => {
            let (lba, len) = extent_16(b);
            ScsiCommand::Read { lba, len }
        }
        0x8A => {
            let (lba, len) = extent_16(b);
            ScsiCommand::Write { lba, len }
        }
        0x9E => read_capacity_16(b),
        _ => ScsiCommand::Unknown { cmd: opcode },
    }
}
