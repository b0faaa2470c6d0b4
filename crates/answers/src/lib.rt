// Endpoints and calls give these answers: document 01's numbers, by name.
#![tactic(auto)]

ghost use Rattle.std.specs.Prelude.{◌≡◌};
ghost use Rattle.answers.specs.Answers.{answer_of, endpoint_of, serves, answered_by, stalls_of};

// An endpoint that is asked does its part, or is busy, or fails with an error number.
#[derive(Clone, Copy)]
pub enum Endpoint {
    Served,
    Busy,
    Failed(u8),
}

// These are document 01's answers 0 to 13, in its order. EndpointError carries the number of the endpoint's error, and IoBufferOverflow says
// how many bytes of room are missing.
#[derive(Clone, Copy)]
pub enum Answer {
    Done,
    IoBufferOverflow(usize),
    InvalidMaxLun,
    InvalidState,
    FullPacketExpected,
    BufferTooSmall,
    WouldBlock,
    EndpointError(u8),
    PacketSizeRefused,
    BufferTooLarge,
    BrokenRecord,
    PacketRefused,
    StatusRefused,
    EmptyBlock,
}

// This is asked of both endpoints at once. In the last case they are first unstalled and then stalled.
#[derive(Clone, Copy)]
pub enum Stalls {
    Kept = 0,
    Stalled = 1,
    Unstalled = 2,
    UnstalledStalled = 3,
}

// Gives document 01's number of `answer`. (No `as`: two of the answers carry something.)
pub fn answer_number(answer: Answer) -> u8
    ensures { result ≡ (answer_of answer).number }
{
    match answer {
        Answer::Done => 0,
        Answer::IoBufferOverflow(_) => 1,
        Answer::InvalidMaxLun => 2,
        Answer::InvalidState => 3,
        Answer::FullPacketExpected => 4,
        Answer::BufferTooSmall => 5,
        Answer::WouldBlock => 6,
        Answer::EndpointError(_) => 7,
        Answer::PacketSizeRefused => 8,
        Answer::BufferTooLarge => 9,
        Answer::BrokenRecord => 10,
        Answer::PacketRefused => 11,
        Answer::StatusRefused => 12,
        Answer::EmptyBlock => 13,
    }
}

// Gives the number that `answer` carries, and 0 if it carries none.
pub fn carried(answer: Answer) -> u8
    ensures { result ≡ (answer_of answer).carried }
{
    match answer {
        Answer::EndpointError(number) => number,
        _ => 0,
    }
}

// Gives the number of bytes of room that are missing with `answer`, and 0 with every other answer than IoBufferOverflow.
pub fn missing(answer: Answer) -> usize
    ensures { result ≡ (answer_of answer).missing }
{
    match answer {
        Answer::IoBufferOverflow(bytes) => bytes,
        _ => 0,
    }
}

// Gives what the endpoint's answer `byte` stands for: 0 does its part, 1 is busy, and all others are errors.
pub fn endpoint_of(byte: u8) -> Endpoint
    ensures { result ≡ endpoint_of byte }
{
    match byte {
        0 => Endpoint::Served,
        1 => Endpoint::Busy,
        number => Endpoint::Failed(number),
    }
}

// Tests whether the endpoint `e` does its part.
pub fn served(e: Endpoint) -> bool
    ensures { result ≡ serves e }
{
    matches!(e, Endpoint::Served)
}

// Gives the answer of a call that asks the endpoint `e`.
pub fn answered(e: Endpoint) -> Answer
    ensures { answer_of result ≡ answered_by e }
{
    match e {
        Endpoint::Served => Answer::Done,
        Endpoint::Busy => Answer::WouldBlock,
        Endpoint::Failed(number) => Answer::EndpointError(number),
    }
}

// Gives what was asked of both endpoints: to unstall them if `unstalled`, and then to stall them if `stalled`.
pub fn asked(unstalled: bool, stalled: bool) -> Stalls
    ensures { result ≡ stalls_of unstalled stalled }
{
    match (unstalled, stalled) {
        (false, false) => Stalls::Kept,
        (false, true) => Stalls::Stalled,
        (true, false) => Stalls::Unstalled,
        (true, true) => Stalls::UnstalledStalled,
    }
}
