// A poll comes to an act, which is done here. Every packet but the one that opening reads crosses the wire here.
#![tactic(auto, using(crate::proofs::Acting::ways), unfolding(crate::specs::Poll::falls_short, crate::specs::Poll::offered_packet, crate::specs::Poll::offered_by))]

ghost use Rattle.std.specs.Prelude.{◌≡◌, ◌≤◌, length};
ghost use Rattle.buffer.specs.Buffer.{buffer};
ghost use Rattle.buffer.specs.Inner.Buffer.{Sound, Leaves};
ghost use Rattle.answers.specs.Answers.{endpoint_of};
ghost use Rattle.packets.specs.Inner.Packets.{Reads};
ghost use Rattle.bbb.specs.Poll.{given, left_then, Fits, falls_short, offered_packet, offered_by, status_put};
ghost use Rattle.bbb.specs.Inner.Phases.{opening_of, doing_of, Acts, rest_did, emptied_marks, one_more, took, is_refused, readied, sent_by, sent_packet, acted, acted_packet};

use crate::Turn;
use crate::open::Opened;
use answers::{Answer, endpoint_of};
use buffer::Marks;
use device::{Numbers, Told};
use packets::{Received, fill, read_packet, send_packet};
use ring::{Before, Kind, Row};
use wrapper::counters::{Left, left_after};

// An act gives the marks, left, the bytes sent, the answer, the packets taken in the whole poll, and whether both endpoints are stalled.
#[derive(Clone, Copy)]
pub struct Did {
    pub marks: Marks,
    pub left: Left,
    pub sent: usize,
    pub answer: Answer,
    pub taken: u8,
    pub stalled: bool,
}

// Nothing crosses the wire.
fn rest(o: Opened, stalled: bool) -> Did
    ensures { result ≡ rest_did o stalled }
{
    Did {
        marks: o.marks,
        left: o.left,
        sent: 0,
        answer: o.answer,
        taken: o.taken,
        stalled,
    }
}

// The first offered packet is read while none is `taken`, and the second after that.
fn read_offered(
    taken: u8,
    p: usize,
    m: Marks,
    io: &mut [u8],
    one: &[u8],
    two: &[u8],
    turn: Turn,
) -> Received
    requires { Sound (buffer io.old m) × (length one.now ≤ p) × (length two.now ≤ p) }
    ensures { Reads p (offered_by taken turn) (offered_packet taken one.now two.now) (buffer io.old m) result io.new }
{
    if taken == 0 {
        return read_packet(io, m, p, endpoint_of(turn.first), one);
    }
    read_packet(io, m, p, endpoint_of(turn.second), two)
}

// State 8 drops what is unread before it reads.
fn emptied(b: Before, m: Marks) -> Marks
    ensures { result ≡ emptied_marks b m }
{
    match b {
        Before::Empty => buffer::marked::clean(),
        _ => m,
    }
}

// One more packet counts as taken if `more` is true.
fn one_more(taken: u8, more: bool) -> u8
    requires { taken ≤ 1 }
    ensures { result ≡ one_more taken more }
{
    taken + u8::from(more)
}

// A packet of data is read, and left falls by its bytes.
fn take(b: Before, p: usize, o: Opened, io: &mut [u8], one: &[u8], two: &[u8], turn: Turn) -> Did
    requires { Sound (buffer io.old o.marks) × (o.taken ≤ 1) × (length one.now ≤ p) × (length two.now ≤ p) }
    ensures { doing_of result io.new ≡ took b p (opening_of o) io.old one.now two.now turn }
{
    let r = read_offered(o.taken, p, emptied(b, o.marks), io, one, two, turn);
    Did {
        marks: r.marks,
        left: left_after(o.left, r.brought.unwrap_or(0)),
        sent: 0,
        answer: r.answer,
        taken: one_more(o.taken, r.brought.is_some()),
        stalled: false,
    }
}

// This says whether a whole packet is due (at least `p` bytes are left) and not there (fewer than `p` are unread).
fn falls_short(p: usize, left: Left, unread: usize) -> bool
    ensures { result ≡ falls_short p left unread }
{
    p <= left.0 as usize && unread < p
}

// Only a send in state 4 can be refused: a whole packet may be due there.
fn refused(b: Before, p: usize, left: Left, unread: usize) -> bool
    ensures { result ≡ is_refused b p left unread }
{
    match b {
        Before::Whole => falls_short(p, left, unread),
        _ => false,
    }
}

// The status is written into the emptied buffer. A record that is not broken always has one here.
fn put_status(io: &mut [u8], m: Marks, tag: u32, status: Option<Told>) -> Marks
    requires { Sound (buffer io.old m) }
    ensures { Leaves (buffer io.new result) (status_put tag status (buffer io.old m)) }
{
    match status {
        None => buffer::marked::clean(),
        Some(t) => packets::put_status(io, tag, t.residue, t.status),
    }
}

// The buffer is made ready to send from, as `b` says.
fn ready(b: Before, m: Marks, left: Left, n: Numbers, io: &mut [u8]) -> Marks
    requires { Sound (buffer io.old m) }
    ensures { Leaves (buffer io.new result) (readied b n.fixed.packetsize (buffer io.old m) left n) }
{
    match b {
        Before::Fill => fill(io, m, n.fixed.packetsize, left),
        Before::Status => put_status(io, m, n.tag, n.status),
        _ => m,
    }
}

// Left falls by data, and not by the status.
fn left_then(counts: bool, left: Left, moved: usize) -> Left
    ensures { result ≡ left_then counts left moved }
{
    if counts {
        left_after(left, moved)
    } else {
        left
    }
}

// A packet is sent, unless a whole one is due and not there.
fn send(
    b: Before,
    counts: bool,
    n: Numbers,
    o: Opened,
    io: &mut [u8],
    packet: &mut [u8],
    write: u8,
) -> Did
    requires { Sound (buffer io.old o.marks) × (n.fixed.packetsize ≤ length packet.old) }
    ensures { Acts (sent_by b counts n (opening_of o) io.old (endpoint_of write)) (sent_packet b n (opening_of o) io.old (endpoint_of write) packet.old) result io.new packet.new }
{
    let p = n.fixed.packetsize;
    if refused(b, p, o.left, o.marks.write - o.marks.read) {
        return Did {
            answer: Answer::FullPacketExpected,
            ..rest(o, false)
        };
    }
    let m = ready(b, o.marks, o.left, n, io);
    let s = send_packet(io, m, p, endpoint_of(write), packet);
    Did {
        marks: s.marks,
        left: left_then(counts, o.left, s.count),
        sent: s.count,
        answer: s.answer,
        taken: o.taken,
        stalled: false,
    }
}

// The act does what its `row` says.
pub fn act(
    row: Row,
    n: Numbers,
    o: Opened,
    io: &mut [u8],
    packet: &mut [u8],
    one: &[u8],
    two: &[u8],
    turn: Turn,
) -> Did
    requires { Sound (buffer io.old o.marks) × (o.taken ≤ 1) × Fits n.fixed.packetsize packet.old one.now two.now }
    ensures { Acts (acted row n (opening_of o) io.old (given packet.old one.now two.now turn)) (acted_packet row n (opening_of o) io.old (given packet.old one.now two.now turn)) result io.new packet.new }
{
    let b = row.2;
    match row.1 {
        Kind::Rest => rest(o, false),
        Kind::Stall => rest(o, true),
        Kind::Read => take(b, n.fixed.packetsize, o, io, one, two, turn),
        Kind::Send => send(b, row.3, n, o, io, packet, turn.write),
    }
}
