// The polls of which a read-out is made: the next packet of data crosses the wire, or the status goes out, and nothing else happens. The
// whole ring would do the same, but more slowly. So these polls are looked for first, in the bytes of the record, before anything else is
// read. The tests may miss such a poll: then the ring makes it. They are in an order in which few numbers have to be kept, and so the
// compiler needs almost no stack for them (docs/READOUT.md).
//     ending    the poll that sends the status
#![tactic(auto)]

pub mod ending;

ghost use Rattle.std.specs.Prelude.{◌≡◌, true, cond, ◌&&◌, leb, eqb, length};
ghost use Rattle.ring.specs.declared.State.TheVariants.{DataTransferToHostEnding};
ghost use Rattle.device.specs.Device.{is_present, numbers_of};
ghost use Rattle.recordbytes.specs.Layout.{record_size};
ghost use Rattle.recordbytes.specs.Record.{device_at, store_state};
ghost use Rattle.onward.specs.Inner.Onward.{Steady, sends_in, MaySend, CanSend, SendsOrStays, MayTake, CanTake, TakesOrStays};

use bbb::fits;
use border::word::word;
use device::{Numbers, Told, present};
use fields::{byte, le32};
use packetcopy::put_packet;
use recordbytes::{in_record, store};
use ring::State;
use wrapper::counters::left_after;

// The lengths of what a poll is lent: of the IO buffer, of the packet buffer and of the packets offered.
#[derive(Clone, Copy)]
pub struct Lengths {
    pub io: usize,
    pub packet: usize,
    pub one: usize,
    pub two: usize,
}

// Data goes out in 4, and in 6 if a status is present; `flag` is 1 where one is and 0 where none is.
fn sends_in(state: u8, flag: u8) -> bool
    ensures { result ≡ leb flag 1 && sends_in state (eqb flag 1) }
{
    match flag {
        0 => state == 4,
        1 => state == 6 || state == 4,
        _ => false,
    }
}

// Tests what all these polls need of the numbers in `record` that stay, but not whether P is a packet size. `len` is the length of the IO
// buffer. A buffer shorter than the largest packet is left to the ring. The tests stand apart here and below, since each reads
// its number only after those before it: all in one expression took a case of proof for each, and more instructions in `sends_on`.
pub(crate) fn steady(record: &[u8], len: usize) -> bool
    requires { length «record».now ≡ record_size }
    ensures { result ≡ true → Steady «record».now len }
{
    if le32(record, in_record::IO_LENGTH) as usize != len {
        return false;
    }
    if len < 64 || 65536 < len {
        return false;
    }
    if 15 < byte(record, in_record::MAX_LUN) {
        return false;
    }
    if 2 < byte(record, in_record::STATUS) {
        return false;
    }
    if 2 < byte(record, in_record::DIRECTION) {
        return false;
    }
    if 15 < byte(record, in_record::LUN) {
        return false;
    }
    byte(record, in_record::BLOCK_LENGTH) <= 16
}

// Whether a whole packet of data goes out: the record is whole if P is a packet size, and what was offered fits. `write` is IN's answer. A
// no leaves the poll to the ring.
pub fn sends_on(record: &[u8], lent: Lengths, write: u8) -> bool
    requires { length «record».now ≡ record_size }
    ensures { result ≡ true → MaySend «record».now lent write }
{
    let state = byte(record, in_record::STATE);
    let flag = byte(record, in_record::STATUS_PRESENT);
    if !sends_in(state, flag) || write != 0 {
        return false;
    }
    if !steady(record, lent.io) {
        return false;
    }
    let p = byte(record, in_record::PACKET_SIZE) as usize;
    if !fits(p, lent.packet, lent.one, lent.two) {
        return false;
    }
    let end = le32(record, in_record::READ_MARK) as usize + p;
    let to = le32(record, in_record::WRITE_MARK) as usize;
    let left = le32(record, in_record::LEFT) as usize;
    to <= lent.io && end <= to && p <= left
}

// With a status present, 4 goes on to 6.
fn reach(record: &mut [u8], status: Option<Told>)
    requires { length «record».old ≡ record_size }
    ensures { «record».new ≡ cond (is_present status) (store_state DataTransferToHostEnding «record».old) «record».old }
{
    if present(status) {
        store::state(record, State::DataTransferToHostEnding);
    }
}

// Sends the next packet from `io` into `packet`. `n` are the numbers in `record`. If P is no packet size, there is no result and nothing
// changes: the copy tells, so the tests before it do not ask.
pub fn send_on(record: &mut [u8], n: Numbers, io: &[u8], packet: &mut [u8]) -> Option<u64>
    requires { (length «record».old ≡ record_size) × (n ≡ numbers_of (device_at «record».old)) × CanSend n (length io.now) (length packet.old) }
    ensures { SendsOrStays n io.now «record».old packet.old result «record».new packet.new }
{
    let status = n.status;
    let from = n.marks.read;
    let p = n.fixed.packetsize;
    let falls = left_after(n.left, p);
    if !put_packet(packet, 0, io, from, p) {
        return None;
    }
    reach(record, status);
    store::read_mark(record, from + p);
    store::left(record, falls);
    Some(word(0, 0, 0, 0, store::narrow(p)))
}

// Whether a whole packet of data comes in for which there is room: the record is whole if P is a packet size, and what was offered fits.
// `first` is the answer of the first OUT read. A no leaves the poll to the ring.
pub fn takes_on(record: &[u8], lent: Lengths, first: u8) -> bool
    requires { length «record».now ≡ record_size }
    ensures { result ≡ true → MayTake «record».now lent first }
{
    let state = byte(record, in_record::STATE);
    let flag = byte(record, in_record::STATUS_PRESENT);
    if state != 7 || flag != 0 || first != 0 {
        return false;
    }
    if !steady(record, lent.io) {
        return false;
    }
    let p = byte(record, in_record::PACKET_SIZE) as usize;
    if lent.one != p || !fits(p, lent.packet, lent.one, lent.two) {
        return false;
    }
    let at = le32(record, in_record::WRITE_MARK) as usize;
    if at < le32(record, in_record::READ_MARK) as usize || lent.io < at + p {
        return false;
    }
    p <= le32(record, in_record::LEFT) as usize
}

// Takes the packet `one` into `io`. `n` are the numbers in `record`. If P is no packet size, there is no result and nothing changes.
pub fn take_on(record: &mut [u8], n: Numbers, io: &mut [u8], one: &[u8]) -> Option<u64>
    requires { (length «record».old ≡ record_size) × (n ≡ numbers_of (device_at «record».old)) × CanTake n (length io.old) (length one.now) }
    ensures { TakesOrStays n io.old «record».old one.now result «record».new io.new }
{
    let at = n.marks.write;
    let p = n.fixed.packetsize;
    let falls = left_after(n.left, p);
    if !put_packet(io, at, one, 0, p) {
        return None;
    }
    store::write_mark(record, at + p);
    store::left(record, falls);
    Some(word(0, 0, 0, 1, 0))
}
