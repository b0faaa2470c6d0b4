// One event, which is a kind byte, 2 bytes length n and n bytes (its body), and what document 01 asks of each kind.
ghost use Rattle.std.specs.Prelude.{◌≡◌};
ghost use Rattle.benchfile.specs.Event.{agrees, is_poll_body, is_status_body, is_step_body, suits, may_stand, kind_number, kind_of_number, event_head_of, event_at};

use fields::{byte, le16};

// The kinds of events, in document 01's order.
#[derive(Clone, Copy, PartialEq, Eq)]
pub enum Kind {
    Create,
    Poll,
    Status,
    WriteData,
    TryWriteDataAll,
    ReadData,
    Reset,
    Control,
    CommandStep,
}

// An event that stands whole at an offset, and that the rules allow: its kind, and the length of its body.
#[derive(Clone, Copy)]
pub struct EventHead {
    pub kind: Kind,
    pub length: usize,
}

// The kind with this number, if there is one.
#[tactic(auto, using(std::proofs::lemmas::Bool::Decides::nat_tests), unfolding(crate::specs::Event::kind_of_number))]
fn kind_of_number(number: u8) -> Option<Kind>
    ensures { result ≡ kind_of_number number }
{
    match number {
        0 => Some(Kind::Create),
        1 => Some(Kind::Poll),
        2 => Some(Kind::Status),
        3 => Some(Kind::WriteData),
        4 => Some(Kind::TryWriteDataAll),
        5 => Some(Kind::ReadData),
        6 => Some(Kind::Reset),
        7 => Some(Kind::Control),
        8 => Some(Kind::CommandStep),
        _ => None,
    }
}

// The length of a packet is 0 unless its endpoint's answer is 0.
#[tactic(auto, using(std::proofs::lemmas::Bool::Decides::nat_tests), unfolding(crate::specs::Event::agrees))]
fn agree(answer: u8, length: u8) -> bool
    ensures { result ≡ agrees answer length }
{
    answer == 0 || length == 0
}

// The body of a poll is three answers, two packet lengths and the packets.
#[tactic(auto, using(std::proofs::lemmas::Bool::Decides::nat_tests), unfolding(crate::specs::Event::is_poll_body))]
fn poll_fits(body: &[u8]) -> bool
    ensures { result ≡ is_poll_body body.now }
{
    if body.len() < 5 {
        return false;
    }
    let one = byte(body, 3);
    let two = byte(body, 4);
    body.len() == 5 + usize::from(one) + usize::from(two)
        && agree(byte(body, 1), one)
        && agree(byte(body, 2), two)
}

// The body of a status is a status byte from 0 to 2 and a figure.
#[tactic(auto, using(std::proofs::lemmas::Bool::Decides::nat_tests), unfolding(crate::specs::Event::is_status_body))]
fn status_fits(body: &[u8]) -> bool
    ensures { result ≡ is_status_body body.now }
{
    body.len() == 5 && byte(body, 0) <= 2
}

// The body of a command step is empty, or one byte that is 0 or 1.
#[tactic(auto, using(std::proofs::lemmas::Bool::Decides::nat_tests), unfolding(crate::specs::Event::is_step_body))]
fn step_fits(body: &[u8]) -> bool
    ensures { result ≡ is_step_body body.now }
{
    body.is_empty() || body.len() == 1 && byte(body, 0) <= 1
}

// Whether an event of the kind `kind` may have the body `body`.
#[tactic(auto, using(std::proofs::lemmas::Bool::Decides::nat_tests), unfolding(crate::specs::Event::suits, crate::specs::Event::is_long))]
fn suit(kind: Kind, body: &[u8]) -> bool
    ensures { result ≡ suits (kind_number kind) body.now }
{
    match kind {
        Kind::Create => body.len() == 7,
        Kind::Poll => poll_fits(body),
        Kind::Status => status_fits(body),
        Kind::WriteData | Kind::TryWriteDataAll => true,
        Kind::ReadData | Kind::Control => body.len() == 2,
        Kind::Reset => body.is_empty(),
        Kind::CommandStep => step_fits(body),
    }
}

// A creation stands first, and only first.
#[tactic(auto, using(std::proofs::lemmas::Bool::Decides::nat_tests), unfolding(crate::specs::Event::may_stand))]
fn may_stand(first: bool, kind: Kind) -> bool
    ensures { result ≡ may_stand first (kind_number kind) }
{
    if first {
        kind == Kind::Create
    } else {
        kind != Kind::Create
    }
}

// What stands at the front of the bytes `rest`; `first` says whether they begin the file.
#[tactic(auto, using(crate::proofs::Front::fronts))]
fn front(first: bool, rest: &[u8]) -> Option<EventHead>
    ensures { result ≡ event_head_of first rest.now }
{
    if rest.len() < 3 {
        return None;
    }
    let length = usize::from(le16(rest, 1));
    let body = rest.get(3..3 + length)?;
    let kind = kind_of_number(byte(rest, 0))?;
    if may_stand(first, kind) && suit(kind, body) {
        Some(EventHead { kind, length })
    } else {
        None
    }
}

// What stands at the offset `at` of the events.
#[tactic(auto, using(std::proofs::lemmas::Grind::common_steps, crate::proofs::Front::front_short), unfolding(crate::specs::Event::event_at))]
pub fn event_at(events: &[u8], at: usize) -> Option<EventHead>
    ensures { result ≡ event_at events.now at }
{
    front(at == 0, events.get(at..)?)
}
