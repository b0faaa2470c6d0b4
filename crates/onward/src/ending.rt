// The poll that sends the status, or its first packet: all data is through, and the firmware has set the status.
ghost use Rattle.std.specs.Prelude.{◌≡◌, true, ◌≤◌, length};
ghost use Rattle.fields.specs.Field.{get};
ghost use Rattle.recordbytes.specs.Layout as field;
ghost use Rattle.recordbytes.specs.Layout.{record_size};
ghost use Rattle.onward.specs.Inner.Onward.{MayEnd, EndsOn};

use crate::{Lengths, steady};
use bbb::fits;
use border::word::word;
use buffer::marked::read;
use device::create::is_packet_size;
use fields::{byte, le32};
use packets::put_status;
use recordbytes::{in_record, store};
use ring::State;
use wrapper::counters::Residue;
use wrapper::status::status_of_number;

// Whether the record is whole, what was offered fits, and the status goes out: the state is 4 to 8, a status is present, and nothing is
// left. `write` is IN's answer. A no leaves the poll to the ring. Any bytes may be asked.
pub fn ends_on(record: &[u8], lent: Lengths, write: u8) -> bool
    ensures { result ≡ true → MayEnd «record».now lent write }
{
    if record.len() != in_record::SIZE {
        return false;
    }
    let state = byte(record, in_record::STATE);
    if state < 4 || 8 < state {
        return false;
    }
    if byte(record, in_record::STATUS_PRESENT) != 1 || write != 0 {
        return false;
    }
    if le32(record, in_record::LEFT) != 0 {
        return false;
    }
    if !steady(record, lent.io) {
        return false;
    }
    let p = byte(record, in_record::PACKET_SIZE) as usize;
    if !fits(p, lent.packet, lent.one, lent.two) {
        return false;
    }
    let from = le32(record, in_record::READ_MARK) as usize;
    let to = le32(record, in_record::WRITE_MARK) as usize;
    if to < from || lent.io < to {
        return false;
    }
    is_packet_size(p)
}

// Writes the status into the emptied `io`, and sends its first packet into `packet`.
pub fn end_on(record: &mut [u8], io: &mut [u8], packet: &mut [u8]) -> u64
    requires { (length «record».old ≡ record_size) × (get field.packet_size «record».old ≤ length packet.old) × (length io.old ≤ 65536) }
    ensures { EndsOn «record».old io.old packet.old result «record».new io.new packet.new }
{
    let p = byte(record, in_record::PACKET_SIZE) as usize;
    let status = status_of_number(byte(record, in_record::STATUS));
    let written = put_status(
        io,
        le32(record, in_record::TAG),
        Residue(le32(record, in_record::RESIDUE)),
        status,
    );
    let sent = read(io, written, p, packet);
    let after = sent.marks;
    store::state(record, State::StatusTransfer);
    store::marks(record, after);
    word(0, 0, 0, 0, store::narrow(sent.count))
}
