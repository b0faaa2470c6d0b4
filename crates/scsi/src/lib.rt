// This is the SCSI decoder of document 01, after scsi.rs. It takes a block of any bytes and any length.
//     table       which opcodes are listed, and how long a block has to be
//     commands    the fields of each listed command
//     numbers     a command as six numbers, for callers in C and Rust
#![tactic(auto)]

mod commands;
pub mod numbers;
mod table;

ghost use Rattle.std.specs.Prelude.{◌≡◌, ◌≤◌, length};
ghost use Rattle.scsi.specs.Decoding.{answer_of, decode_call, plain_call, decoded};

use crate::commands::read_fields;
use crate::table::listed;
use fields::byte;

// A MODE SENSE asks for one of these kinds of values. They have SPC's numbers.
#[derive(Clone, Copy)]
pub enum PageControl {
    CurrentValues = 0,
    ChangeableValues = 1,
    DefaultValues = 2,
    SavedValues = 3,
}

// A block decodes to one of these commands. They are named and ordered as in the Rust.
#[derive(Clone, Copy)]
pub enum ScsiCommand {
    Unknown {
        cmd: u8,
    },
    Inquiry {
        evpd: bool,
        page_code: u8,
        alloc_len: u16,
    },
    TestUnitReady,
    RequestSense {
        desc: bool,
        alloc_len: u8,
    },
    ModeSense6 {
        dbd: bool,
        page_control: PageControl,
        page_code: u8,
        subpage_code: u8,
        alloc_len: u8,
    },
    ModeSense10 {
        dbd: bool,
        page_control: PageControl,
        page_code: u8,
        subpage_code: u8,
        alloc_len: u16,
    },
    ReadCapacity10,
    ReadCapacity16 {
        alloc_len: u32,
    },
    Read {
        lba: u64,
        len: u32,
    },
    Write {
        lba: u64,
        len: u32,
    },
    ReadFormatCapacities {
        alloc_len: u16,
    },
}

// Decodes a `block` that has at least one byte, and so an opcode. `extended` says whether extended addressing is on.
#[tactic(auto, using(crate::proofs::Laws::listed_lists), unfolding(crate::specs::Decoding::decoded))]
fn command(block: &[u8], extended: bool) -> ScsiCommand
    requires { 1 ≤ length block.now }
    ensures { result ≡ decoded extended block.now }
{
    let opcode = byte(block, 0);
    if listed(opcode, block.len(), extended) {
        read_fields(block, opcode)
    } else {
        ScsiCommand::Unknown { cmd: opcode }
    }
}

// Decodes `block` for a caller who tells whether extended addressing is on: 88 and 8A count only if `extended` is true. A block with at least
// one byte decodes to a command; one that has no byte has no opcode.
#[tactic(auto, unfolding(crate::specs::Decoding::decode_call))]
pub fn decode_told(block: &[u8], extended: bool) -> Option<ScsiCommand>
    ensures { answer_of result ≡ decode_call extended block.now }
{
    if block.len() == 0 {
        return None;
    }
    Some(command(block, extended))
}

// Plain entries, here and in the crates above, have extended addressing on.
pub const PLAIN_IS_EXTENDED: bool = true;

// Decodes `block` with extended addressing on: this is the plain entry.
#[tactic(auto, unfolding(crate::specs::Decoding::plain_call))]
pub fn decode(block: &[u8]) -> Option<ScsiCommand>
    ensures { answer_of result ≡ plain_call block.now }
{
    decode_told(block, PLAIN_IS_EXTENDED)
}
