// This is the wrapper (CBW) of document 01, after bbb.rs. The modules have the status (CSW), three counters, and BOT's verdict on a
// message. Every entry of this crate takes any bytes of any length and any number, and ends with an answer. Two public functions are for
// the layers above and require 31 bytes: `head_of` and `read_wrapper`. Their callers have tested the message before. (An array of 31 bytes
// would say so in a type. But to take one from a slice gives an Option of a reference, whose place in memory depends on the width of a
// pointer, and tools/pointers.awk refuses that.)
#![tactic(auto)]

pub mod counters;
pub mod in_status;
pub mod in_wrapper;
pub mod status;
pub mod verdict;

ghost use Rattle.std.specs.Prelude.{◌≡◌, length};
ghost use Rattle.wrapper.specs.Wrapper.{cbwcb, is_signed, is_block_length, is_valid, direction_of_flags, direction_number, direction_of_number, wrapper_of, no_wrapper, parsed};
ghost use Rattle.wrapper.specs.Inner.Wrapper.{head_of};

use fields::{bits_of, byte, bytes_at, le32};

// The bytes 55 53 42 43 are this little-endian number.
pub const SIGNED: u32 = 0x43425355;

// The data goes from the host (Out) or to the host (In), or there is none (NotExpected).
#[derive(Clone, Copy)]
pub enum DataDirection {
    Out = 2,
    In = 1,
    NotExpected = 0,
}

// A wrapper has these fields. `length` is L, and `blocklength` says how many bytes of `block` are the command.
#[derive(Clone, Copy)]
pub struct Wrapper {
    pub tag: u32,
    pub length: u32,
    pub direction: DataDirection,
    pub lun: u8,
    pub blocklength: u8,
    pub block: [u8; 16],
}

// A wrapper without its command block is enough for a poll to decide.
#[derive(Clone, Copy)]
pub struct Head {
    pub tag: u32,
    pub length: u32,
    pub direction: DataDirection,
    pub lun: u8,
    pub blocklength: u8,
}

// Tests whether `message` has 31 bytes and the wrapper's signature.
pub(crate) fn signed(message: &[u8]) -> bool
    ensures { result ≡ is_signed message.now }
{
    message.len() == in_wrapper::SIZE && le32(message, in_wrapper::SIGNATURE) == SIGNED
}

// Tests whether a command block can have `blocklength` bytes.
pub(crate) fn block_fits(blocklength: u8) -> bool
    ensures { result ≡ is_block_length blocklength }
{
    (1..=16).contains(&blocklength)
}

// Tests whether `message` is a valid wrapper in document 01's sense.
pub fn valid(message: &[u8]) -> bool
    ensures { result ≡ is_valid message.now }
{
    signed(message) && block_fits(byte(message, in_wrapper::BLOCK_LENGTH))
}

// Gives the direction of the data. If `length` is 0 there is no data, and the flag `tohost` does not count.
fn direction_of(length: u32, tohost: u8) -> DataDirection
    ensures { result ≡ direction_of_flags length tohost }
{
    match (length, tohost) {
        (0, _) => DataDirection::NotExpected,
        (_, 1) => DataDirection::In,
        _ => DataDirection::Out,
    }
}

// Gives the number of `direction` for callers in C and Rust.
pub fn direction_number(direction: DataDirection) -> u8
    ensures { result ≡ direction_number direction }
{
    direction as u8
}

// Gives the direction with this `number`. Numbers above 2 belong to no direction, and are taken for Out.
pub fn direction_of_number(number: u8) -> DataDirection
    ensures { result ≡ direction_of_number number }
{
    match number {
        0 => DataDirection::NotExpected,
        1 => DataDirection::In,
        _ => DataDirection::Out,
    }
}

// Reads all fields of the wrapper `m` but its block.
pub fn head_of(m: &[u8]) -> Head
    requires { length m.now ≡ 31 }
    ensures { result ≡ head_of (wrapper_of m.now) }
{
    let length = le32(m, in_wrapper::LENGTH);
    Head {
        tag: le32(m, in_wrapper::TAG),
        length,
        direction: direction_of(length, bits_of(m, in_wrapper::FLAGS, 7, 1)),
        lun: bits_of(m, in_wrapper::LUN, 0, 4),
        blocklength: byte(m, in_wrapper::BLOCK_LENGTH),
    }
}

// Reads all fields of the wrapper `m`.
pub fn read_wrapper(m: &[u8]) -> Wrapper
    requires { length m.now ≡ 31 }
    ensures { result ≡ wrapper_of m.now }
{
    let head = head_of(m);
    Wrapper {
        tag: head.tag,
        length: head.length,
        direction: head.direction,
        lun: head.lun,
        blocklength: head.blocklength,
        block: bytes_at(m, in_wrapper::BLOCK),
    }
}

// Gives the blank wrapper, which a new device has.
pub fn no_wrapper() -> Wrapper
    ensures { result ≡ no_wrapper }
{
    Wrapper {
        tag: 0,
        length: 0,
        direction: DataDirection::NotExpected,
        lun: 0,
        blocklength: 0,
        block: [0; 16],
    }
}

// Parses a received `message`: only a valid one gives its fields.
pub fn parse(message: &[u8]) -> Option<Wrapper>
    ensures { result ≡ parsed message.now }
{
    if valid(message) {
        Some(read_wrapper(message))
    } else {
        None
    }
}
