// A new device, and the rules that its numbers must meet.
ghost use Rattle.std.specs.Prelude.{◌≡◌, ◌≢◌, eqb, MatchResult};
ghost use Rattle.answers.specs.Answers.{answer, answer_of};
ghost use Rattle.device.specs.Create.{is_packet_size, creation_checks, new_device, no_device, creation_of, create_call};

use crate::{Device, Fixed};
use answers::Answer;
use buffer::Marks;
use ring::State;
use wrapper::counters::{Left, PutIn};

// Only these four packet sizes are in 01's domain.
pub fn is_packet_size(p: usize) -> bool
    ensures { result ≡ is_packet_size p }
{
    matches!(p, 8 | 16 | 32 | 64)
}

// The first creation rule that is violated refuses the numbers, with 01's answer.
fn judged(fixed: Fixed) -> Result<(), Answer>
    ensures { MatchResult result (λ _. creation_checks fixed ≡ 0) (λ why. (answer_of why ≡ answer (creation_checks fixed)) × (creation_checks fixed ≢ 0)) }
{
    if 15 < fixed.maxlun {
        return Err(Answer::InvalidMaxLun);
    }
    if fixed.size < 31 || fixed.size < fixed.packetsize {
        return Err(Answer::BufferTooSmall);
    }
    if !is_packet_size(fixed.packetsize) {
        return Err(Answer::PacketSizeRefused);
    }
    if 65536 < fixed.size {
        return Err(Answer::BufferTooLarge);
    }
    Ok(())
}

// A device may have these numbers if no creation rule is violated.
pub(crate) fn creatable(fixed: Fixed) -> bool
    ensures { result ≡ eqb (creation_checks fixed) 0 }
{
    judged(fixed).is_ok()
}

// This device waits for its first wrapper.
fn blank(fixed: Fixed) -> Device
    ensures { result ≡ new_device fixed }
{
    Device {
        fixed,
        state: State::CommandTransfer,
        marks: Marks { read: 0, write: 0 },
        wrapper: wrapper::no_wrapper(),
        status: None,
        left: Left(0),
        putin: PutIn(0),
    }
}

// This stands for "no device": every number is 0.
pub fn none() -> Device
    ensures { result ≡ no_device }
{
    blank(Fixed {
        packetsize: 0,
        maxlun: 0,
        size: 0,
    })
}

// A device is created with these numbers, or refused with 01's answer.
pub fn create(fixed: Fixed) -> Result<Device, Answer>
    ensures { creation_of result ≡ create_call fixed }
{
    judged(fixed)?;
    Ok(blank(fixed))
}
