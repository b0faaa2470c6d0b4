// One poll of a record of bytes. The polls of which a read-out is made go a short way. That way can be taken out: the promise is the same
// as that of the ring.
#![tactic(auto)]

ghost use Rattle.std.specs.Prelude.{◌≡◌, length};
ghost use Rattle.bbb.specs.Poll.{given};
ghost use Rattle.recordbytes.specs.Layout.{record_size};
ghost use Rattle.ringbytes.specs.Poll.{poll_outcome, poll_on};
ghost use Rattle.pollbytes.specs.Inner.Short.{PollsOrStays};

use bbb::Turn;
use fields::byte;
use onward::ending::{end_on, ends_on};
use onward::{Lengths, send_on, sends_on, take_on, takes_on};
use recordbytes::{in_record, numbers_at};

// Looks for a poll in the middle of a transfer, and makes it. Without a result it was not made.
fn onward_poll(
    record: &mut [u8],
    io: &mut [u8],
    packet: &mut [u8],
    one: &[u8],
    two: &[u8],
    turn: Turn,
) -> Option<u64>
    requires { length «record».old ≡ record_size }
    ensures { PollsOrStays «record».old io.old (given packet.old one.now two.now turn) result «record».new io.new packet.new }
{
    let lent = Lengths {
        io: io.len(),
        packet: packet.len(),
        one: one.len(),
        two: two.len(),
    };
    if byte(record, in_record::STATE) == 7 {
        if takes_on(record, lent, turn.first) {
            return take_on(record, numbers_at(record), io, one);
        }
        return None;
    }
    if sends_on(record, lent, turn.write) {
        return send_on(record, numbers_at(record), io, packet);
    }
    None
}

// Makes any other poll: the one that sends the status by a way of its own, and the rest by the ring. It is never put into its caller, where
// the short way would then save all registers for it. It takes the answers one by one, since a struct would go by a pointer to it.
#[cold]
#[inline(never)]
fn other_poll(
    record: &mut [u8],
    io: &mut [u8],
    packet: &mut [u8],
    one: &[u8],
    two: &[u8],
    first: u8,
    second: u8,
    write: u8,
) -> u64
    ensures { poll_outcome result «record».new io.new packet.new ≡ poll_on «record».old io.old (given packet.old one.now two.now (record { first = first; second = second; write = write })) }
{
    let lent = Lengths {
        io: io.len(),
        packet: packet.len(),
        one: one.len(),
        two: two.len(),
    };
    if ends_on(record, lent, write) {
        return end_on(record, io, packet);
    }
    let turn = Turn {
        first,
        second,
        write,
    };
    ringbytes::poll(record, io, packet, one, two, turn)
}

// Looks first for a poll in the middle of a transfer, since most polls are; these are never refused with 10 or 11.
pub fn poll(
    record: &mut [u8],
    io: &mut [u8],
    packet: &mut [u8],
    one: &[u8],
    two: &[u8],
    turn: Turn,
) -> u64
    ensures { poll_outcome result «record».new io.new packet.new ≡ poll_on «record».old io.old (given packet.old one.now two.now turn) }
{
    if record.len() == in_record::SIZE {
        if let Some(made) = onward_poll(record, io, packet, one, two, turn) {
            return made;
        }
    }
    other_poll(
        record,
        io,
        packet,
        one,
        two,
        turn.first,
        turn.second,
        turn.write,
    )
}
