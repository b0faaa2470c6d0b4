// Opening a poll: if the chain of handlers reaches the wrapper, a packet is read, and with 31 bytes unread the wrapper is parsed.
#![tactic(auto, using(crate::proofs::Opening::ways), unfolding(crate::specs::Inner::Phases::opens_in))]

ghost use Rattle.std.specs.Prelude.{◌≡◌, ◌&&◌, ◌+◌, ◌≤◌, leb, length};
ghost use Rattle.buffer.specs.Buffer.{buffer};
ghost use Rattle.buffer.specs.Inner.Buffer.{Sound};
ghost use Rattle.ring.specs.States.{state_number};
ghost use Rattle.device.specs.Broken.{Whole};
ghost use Rattle.answers.specs.Answers.{endpoint_of};
ghost use Rattle.bbb.specs.Inner.Phases.{Opens, opens_in, parsed_open, read_open, read_io, opened, opened_io, left_when};

use answers::{Answer, endpoint_of};
use buffer::Marks;
use device::Numbers;
use packets::read_packet;
use ring::{Found, State};
use wrapper::counters::Left;
use wrapper::in_wrapper;

// Opening gives what it found and how far the poll has come then.
#[derive(Clone, Copy)]
pub struct Opened {
    pub found: Found,
    pub marks: Marks,
    pub left: Left,
    pub answer: Answer,
    pub taken: u8,
    pub cleared: bool,
}

// 31 bytes or more are unread. The first 31 are a wrapper, valid or not, and count as read.
fn parse(m: Marks, left: Left, cleared: bool, io: &[u8]) -> Opened
    requires { Sound (buffer io.now m) × (m.read + 31 ≤ m.write) }
    ensures { Opens (parsed_open (buffer io.now m) left cleared) io.now result io.now }
{
    let from = m.read;
    let end = from + in_wrapper::SIZE;
    let invalid = Opened {
        found: Found::Invalid,
        marks: Marks {
            read: end,
            write: m.write,
        },
        left,
        answer: Answer::Done,
        taken: 1,
        cleared,
    };
    if wrapper::valid(&io[from..end]) {
        let h = wrapper::head_of(&io[from..end]);
        return Opened {
            found: Found::Valid(h.direction),
            left: Left(h.length),
            ..invalid
        };
    }
    invalid
}

// It is time to parse if a packet was `taken` and at least 31 bytes are unread.
fn ripe(taken: bool, unread: usize) -> bool
    ensures { result ≡ taken && leb 31 unread }
{
    taken && in_wrapper::SIZE <= unread
}

// The first offer is read, and parsed if at least 31 bytes are unread then. `p` is the packet size, and `first` is the first OUT answer.
fn read_wrapper(
    p: usize,
    m: Marks,
    left: Left,
    cleared: bool,
    io: &mut [u8],
    one: &[u8],
    first: u8,
) -> Opened
    requires { Sound (buffer io.old m) × (length one.now ≤ p) }
    ensures { Opens (read_open p (endpoint_of first) one.now left cleared (buffer io.old m)) (read_io p (endpoint_of first) one.now (buffer io.old m)) result io.new }
{
    let r = read_packet(io, m, p, endpoint_of(first), one);
    let taken = r.brought.is_some();
    if ripe(taken, r.marks.write - r.marks.read) {
        return parse(r.marks, left, cleared, io);
    }
    Opened {
        found: Found::Nothing,
        marks: r.marks,
        left,
        answer: r.answer,
        taken: u8::from(taken),
        cleared,
    }
}

// The chain that starts in this `state` reaches the wrapper in 0, and in 3 if nothing is unread (`empty`).
fn reaches(state: State, empty: bool) -> bool
    ensures { result ≡ opens_in (state_number state) empty }
{
    match state {
        State::CommandTransfer => true,
        State::StatusTransfer => empty,
        _ => false,
    }
}

// Entering 0 clears left.
fn left_when(cleared: bool, left: Left) -> Left
    ensures { result ≡ left_when cleared left }
{
    if cleared { Left(0) } else { left }
}

// A poll that starts with the numbers `n` opens. The 31 bytes of a valid wrapper that was found stand just before the read mark. Acting
// may move or overwrite them, so a caller that wants them takes them before it acts.
pub fn open(n: Numbers, io: &mut [u8], one: &[u8], first: u8) -> Opened
    requires { Whole n (length io.old) × (length one.now ≤ n.fixed.packetsize) }
    ensures { Opens (opened n io.old one.now (endpoint_of first)) (opened_io n io.old one.now (endpoint_of first)) result io.new }
{
    if reaches(n.state, n.marks.write - n.marks.read == 0) {
        // No `==`: the module would get a constant in memory for the state, and tools/retarget takes none.
        let cleared = matches!(n.state, State::StatusTransfer);
        let left = left_when(cleared, n.left);
        return read_wrapper(n.fixed.packetsize, n.marks, left, cleared, io, one, first);
    }
    Opened {
        found: Found::Nothing,
        marks: n.marks,
        left: n.left,
        answer: Answer::Done,
        taken: 0,
        cleared: false,
    }
}
