// One poll of the socket's device, as in bbb.rs. The record goes in by value and comes back.
//     check    10 is checked, then 11
//     open     if the chain of handlers reaches the wrapper, a packet is read, and with 31 bytes unread the wrapper is parsed
//     take     a valid wrapper is taken out of the IO buffer, because acting may overwrite it
//     decide   the ring of handlers (crates/ring) decides on the act
//     act      the act is done in one place: a packet crosses the wire, or none
// In every function `io` is the IO buffer, `packet` is the packet buffer, `one` and `two` are the offered packets, and `turn` holds the
// endpoints' answers.
#![tactic(auto, using(crate::proofs::Polling::ways), unfolding(crate::specs::Poll::is_fitting))]

mod act;
pub mod open;

ghost use Rattle.std.specs.Prelude.{◌≡◌, ◌≤◌};
ghost use Rattle.buffer.specs.Buffer.{buffer};
ghost use Rattle.buffer.specs.Inner.Buffer.{Sound};
ghost use Rattle.bbb.specs.Poll.{given, Fits, is_fitting, polling_of, poll_call};
ghost use Rattle.bbb.specs.Inner.Phases.{refused_by, is_valid_found, opening_of, InFront, wrapper_then, is_counted_anew, put_in_then, ended_of, gone_on, changed_by};

use crate::act::act;
use crate::open::{Opened, open};
use answers::{Answer, Stalls};
use buffer::Marks;
use device::{Device, Numbers, numbers_of, present, whole};
use ring::{Found, State, row_of, settle};
use wrapper::counters::{Left, PutIn};
use wrapper::{Wrapper, in_wrapper};

// These are the endpoints' answers for this poll, for two OUT reads and one IN write: 0 does its part, 1 is busy, and others are errors.
#[derive(Clone, Copy)]
pub struct Turn {
    pub first: u8,
    pub second: u8,
    pub write: u8,
}

// A poll reports its answer, the OUT packets taken, the bytes sent, and what is asked of the endpoints.
#[derive(Clone, Copy)]
pub struct Report {
    pub answer: Answer,
    pub taken: u8,
    pub sent: usize,
    pub stalls: Stalls,
}

// A poll gives the record and its report.
#[derive(Clone, Copy)]
pub struct Polled {
    pub device: Device,
    pub report: Report,
}

// A poll changes these parts of the record, apart from the wrapper, and reports this. `cleared` says that the status is cleared.
#[derive(Clone, Copy)]
pub struct Change {
    pub state: State,
    pub marks: Marks,
    pub left: Left,
    pub cleared: bool,
    pub report: Report,
}

// Only a valid wrapper goes into the record.
pub fn is_valid(found: Found) -> bool
    ensures { result ≡ is_valid_found found }
{
    matches!(found, Found::Valid(_))
}

// What the firmware puts in is counted anew if 31 bytes were parsed, or if 0 was entered (`cleared`).
pub fn counted_anew(found: Found, cleared: bool) -> bool
    ensures { result ≡ is_counted_anew found cleared }
{
    cleared || !matches!(found, Found::Nothing)
}

// The handlers decide, and the act is done. `n` are the numbers of the record at the start, and `o` is what opening gave.
pub fn go_on(
    n: Numbers,
    o: Opened,
    io: &mut [u8],
    packet: &mut [u8],
    one: &[u8],
    two: &[u8],
    turn: Turn,
) -> Change
    requires { (n.marks.read ≤ n.marks.write) × Sound (buffer io.old o.marks) × (o.taken ≤ 1) × Fits n.fixed.packetsize packet.old one.now two.now }
    ensures { ended_of result io.new packet.new ≡ gone_on n (opening_of o) io.old (given packet.old one.now two.now turn) }
{
    let row = row_of(settle(
        n.state,
        n.left.0,
        present(n.status),
        n.marks.write - n.marks.read == 0,
        o.found,
        o.left.0,
    ));
    let did = act(row, n, o, io, packet, one, two, turn);
    Change {
        state: row.0,
        marks: did.marks,
        left: did.left,
        cleared: o.cleared,
        report: Report {
            answer: did.answer,
            taken: did.taken,
            sent: did.sent,
            stalls: answers::asked(o.cleared, did.stalled),
        },
    }
}

// The packet buffer, of `packet` bytes, and the offers, of `one` and `two` bytes, must fit the packet size `p`; otherwise the poll
// answers 11.
pub fn fits(p: usize, packet: usize, one: usize, two: usize) -> bool
    ensures { result ≡ is_fitting p packet one two }
{
    one <= p && two <= p && p <= packet
}

// The record gets a valid wrapper that opening found, and otherwise keeps the wrapper `old`.
fn wrapper_then(o: Opened, old: Wrapper, io: &[u8]) -> Wrapper
    requires { Sound (buffer io.now o.marks) × InFront o }
    ensures { result ≡ wrapper_then (opening_of o) io.now old }
{
    if is_valid(o.found) {
        let end = o.marks.read;
        return wrapper::read_wrapper(&io[end - in_wrapper::SIZE..end]);
    }
    old
}

// What was put in is counted from 0 on, or the count stays `old`, as opening has it.
fn put_in_then(o: Opened, old: PutIn) -> PutIn
    ensures { result ≡ put_in_then (opening_of o) old }
{
    if counted_anew(o.found, o.cleared) {
        PutIn(0)
    } else {
        old
    }
}

// The record `d` gets the changes `c`, the wrapper `w` and the count `putin`. The status is cleared if 0 was entered.
fn changed(d: Device, c: Change, w: Wrapper, putin: PutIn) -> Device
    ensures { result ≡ changed_by d c w putin }
{
    Device {
        state: c.state,
        marks: c.marks,
        wrapper: w,
        status: if c.cleared { None } else { d.status },
        left: c.left,
        putin,
        ..d
    }
}

// A poll is refused, and the record stays.
fn refused(device: Device, why: Answer) -> Polled
    ensures { result ≡ refused_by device why }
{
    Polled {
        device,
        report: Report {
            answer: why,
            taken: 0,
            sent: 0,
            stalls: Stalls::Kept,
        },
    }
}

// This is one poll, of any record with any offers.
pub fn poll(
    device: Device,
    io: &mut [u8],
    packet: &mut [u8],
    one: &[u8],
    two: &[u8],
    turn: Turn,
) -> Polled
    ensures { polling_of result io.new packet.new ≡ poll_call device io.old (given packet.old one.now two.now turn) }
{
    let n = numbers_of(device);
    if !whole(n, io.len()) {
        return refused(device, Answer::BrokenRecord);
    }
    if !fits(n.fixed.packetsize, packet.len(), one.len(), two.len()) {
        return refused(device, Answer::PacketRefused);
    }
    let o = open(n, io, one, turn.first);
    let w = wrapper_then(o, device.wrapper, io);
    let putin = put_in_then(o, device.putin);
    let c = go_on(n, o, io, packet, one, two, turn);
    let d = changed(device, c, w, putin);
    Polled {
        device: d,
        report: c.report,
    }
}
