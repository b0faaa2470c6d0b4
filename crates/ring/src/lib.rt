// The handlers of a poll, as in bbb.rs: "the handlers call each other in a ring". From numbers and small enums they decide to which act a
// poll comes; the act itself is done in one place elsewhere (`act` in crates/bbb/src/act.rt). A handler's parameters bound the number of
// handlers that may still be called (proofs/+handlers/Invariants.antt). Every call lowers it, so the chain ends.
#![tactic(auto, unfolding(crate::specs::States::state_of_number, crate::specs::Inner::Ring::read_cbw_act, crate::specs::Inner::Ring::start_act, crate::specs::Inner::Ring::no_data_act, crate::specs::Inner::Ring::status_transfer_act, crate::specs::Inner::Ring::to_host_act, crate::specs::Inner::Ring::status_await_act, crate::specs::Inner::Ring::to_host_ending_act, crate::specs::Inner::Ring::from_host_act, crate::specs::Inner::Ring::from_host_ending_act))]

ghost use Rattle.std.specs.Prelude.{◌≡◌};
ghost use Rattle.ring.specs.declared.Act.TheVariants.{Enter};
ghost use Rattle.ring.specs.States.{state_number, state_of_number};
ghost use Rattle.ring.specs.Inner.Ring.{row_of, read_cbw_act, start_act, no_data_act, status_transfer_act, to_host_act, status_await_act, to_host_ending_act, from_host_act, from_host_ending_act, settled};

use wrapper::DataDirection;

// These are document 01's states, in its order.
#[derive(Clone, Copy, PartialEq, Eq)]
pub enum State {
    CommandTransfer,
    CommandTransferInvalid,
    DataTransferNoData,
    StatusTransfer,
    DataTransferToHost,
    DataTransferToHostStatusAwait,
    DataTransferToHostEnding,
    DataTransferFromHost,
    DataTransferFromHostEnding,
}

// A poll that waits for a wrapper finds no whole one, an invalid one, or a valid one with this direction.
#[derive(Clone, Copy)]
pub enum Found {
    Nothing,
    Invalid,
    Valid(DataDirection),
}

// A poll comes to one of these acts: it stays in 0, stalls both in 1, sends the next packet of the status in 3, enters 3, sends data in
// 4, waits in 5, fills up and sends in 6, takes a packet in 7, or drops what is unread and takes one in 8.
#[derive(Clone, Copy)]
pub enum Act {
    Stay,
    Stall,
    Next,
    Enter,
    Send,
    Wait,
    Fill,
    Take,
    Drop,
}

// An act moves this across the wire: nothing; nothing, but it stalls both endpoints; a packet that it reads; a packet that it sends.
#[derive(Clone, Copy)]
pub enum Kind {
    Rest,
    Stall,
    Read,
    Send,
}

// Before the packet, an act does this to the buffer: nothing; nothing, but it answers 4 if a whole packet is due and not there; it fills
// it up; it writes the status into it; it empties it.
#[derive(Clone, Copy)]
pub enum Before {
    Nothing,
    Whole,
    Fill,
    Status,
    Empty,
}

// The row of an act has the state in which the act is done, what crosses the wire, what is done to the buffer first, and whether left
// falls.
#[derive(Clone, Copy)]
pub struct Row(pub State, pub Kind, pub Before, pub bool);

// This is document 01's number of the state `s`.
pub fn state_number(s: State) -> u8
    ensures { result ≡ state_number s }
{
    s as u8
}

// This is the state with this `number`. No state has a number above 8; the last state is given then.
pub fn state_of_number(number: u8) -> State
    ensures { result ≡ state_of_number number }
{
    match number {
        0 => State::CommandTransfer,
        1 => State::CommandTransferInvalid,
        2 => State::DataTransferNoData,
        3 => State::StatusTransfer,
        4 => State::DataTransferToHost,
        5 => State::DataTransferToHostStatusAwait,
        6 => State::DataTransferToHostEnding,
        7 => State::DataTransferFromHost,
        _ => State::DataTransferFromHostEnding,
    }
}

// This is the row of the act `a`.
pub fn row_of(a: Act) -> Row
    ensures { result ≡ row_of a }
{
    match a {
        Act::Stay => Row(State::CommandTransfer, Kind::Rest, Before::Nothing, false),
        Act::Stall => Row(
            State::CommandTransferInvalid,
            Kind::Stall,
            Before::Nothing,
            false,
        ),
        Act::Next => Row(State::StatusTransfer, Kind::Send, Before::Nothing, false),
        Act::Enter => Row(State::StatusTransfer, Kind::Send, Before::Status, false),
        Act::Send => Row(State::DataTransferToHost, Kind::Send, Before::Whole, true),
        Act::Wait => Row(
            State::DataTransferToHostStatusAwait,
            Kind::Rest,
            Before::Nothing,
            false,
        ),
        Act::Fill => Row(
            State::DataTransferToHostEnding,
            Kind::Send,
            Before::Fill,
            true,
        ),
        Act::Take => Row(
            State::DataTransferFromHost,
            Kind::Read,
            Before::Nothing,
            true,
        ),
        Act::Drop => Row(
            State::DataTransferFromHostEnding,
            Kind::Read,
            Before::Empty,
            true,
        ),
    }
}

// This is state 0. No status is present in it, so only `found` decides, and for a valid wrapper its direction and its `length`.
#[cycle(handlers)]
fn read_cbw(found: Found, length: u32) -> Act
    ensures { result ≡ read_cbw_act found length }
{
    match found {
        Found::Nothing => Act::Stay,
        Found::Invalid => Act::Stall,
        Found::Valid(direction) => start(direction, length),
    }
}

// A valid wrapper goes on by its `direction`, with its `length` left.
#[cycle(handlers)]
fn start(direction: DataDirection, length: u32) -> Act
    ensures { result ≡ start_act direction length }
{
    match direction {
        DataDirection::Out => from_host(length, false),
        DataDirection::In => to_host(length, false),
        DataDirection::NotExpected => no_data(false),
    }
}

// State 2 always goes on to 5.
#[cycle(handlers)]
fn no_data(present: bool) -> Act
    ensures { result ≡ no_data_act present }
{
    status_await(present)
}

// This is state 3. `empty` says that nothing is unread, and `entered` that this poll has just entered 3 and still has to write the
// status.
#[cycle(handlers)]
fn status_transfer(empty: bool, entered: bool, found: Found, length: u32) -> Act
    ensures { result ≡ status_transfer_act empty entered found length }
{
    if empty {
        return read_cbw(found, length);
    }
    if entered {
        return Act::Enter;
    }
    Act::Next
}

// 5, 6 and 8 enter 3 here, in the same poll. The status is unread then, so `found` and `length` do not count.
#[cycle(handlers)]
fn enter() -> Act
    ensures { result ≡ Enter }
{
    status_transfer(false, true, Found::Nothing, 0)
}

// State 4 sends data until none is left or a status is present.
// 4 and 7, and 6 and 8, differ only in an act and the next handler. Each has its own, so that this page lies beside bbb.rs and 01's table.
#[cycle(handlers)]
fn to_host(left: u32, present: bool) -> Act
    ensures { result ≡ to_host_act left present }
{
    if left == 0 {
        return status_await(present);
    }
    if present {
        return to_host_ending(left);
    }
    Act::Send
}

// State 5 waits for a status, and a status that is present is sent at once.
#[cycle(handlers)]
fn status_await(present: bool) -> Act
    ensures { result ≡ status_await_act present }
{
    if present {
        return enter();
    }
    Act::Wait
}

// State 6 sends what is unread and then filler until nothing is left, because the host still expects data.
#[cycle(handlers)]
fn to_host_ending(left: u32) -> Act
    ensures { result ≡ to_host_ending_act left }
{
    if left == 0 {
        return enter();
    }
    Act::Fill
}

// State 7 reads data until none is left or a status is present.
#[cycle(handlers)]
fn from_host(left: u32, present: bool) -> Act
    ensures { result ≡ from_host_act left present }
{
    if left == 0 {
        return status_await(present);
    }
    if present {
        return from_host_ending(left);
    }
    Act::Take
}

// State 8 reads data and drops it until nothing is left, because the host still sends it.
#[cycle(handlers)]
fn from_host_ending(left: u32) -> Act
    ensures { result ≡ from_host_ending_act left }
{
    if left == 0 {
        return enter();
    }
    Act::Drop
}

// A poll that starts in the state `s` comes to this act. `left` is the count left, `present` says whether a status is present, and
// `empty` whether nothing is unread. `found` and `length` count only if the chain reaches the wrapper.
pub fn settle(s: State, left: u32, present: bool, empty: bool, found: Found, length: u32) -> Act
    ensures { result ≡ settled s left present empty found length }
{
    match s {
        State::CommandTransfer => read_cbw(found, length),
        State::CommandTransferInvalid => Act::Stall,
        State::DataTransferNoData => no_data(present),
        State::StatusTransfer => status_transfer(empty, false, found, length),
        State::DataTransferToHost => to_host(left, present),
        State::DataTransferToHostStatusAwait => status_await(present),
        State::DataTransferToHostEnding => to_host_ending(left),
        State::DataTransferFromHost => from_host(left, present),
        State::DataTransferFromHostEnding => from_host_ending(left),
    }
}
