// The command shown to the firmware, and the command step.
ghost use Rattle.std.specs.Prelude.{◌≡◌, ◌≤◌};
ghost use Rattle.scsi.specs.Decoding.{decode_call};
ghost use Rattle.calls.specs.Command.{showing_of, command_call, stepping_of, is_offered, stepping_of_decoding, block_of, command_step_told_call, command_step_call};
ghost use Rattle.calls.specs.Inner.Returned.{hides, offers_none};

use crate::{broken, is_in};
use answers::Answer;
use device::{Device, present};
use ring::{State, state_number};
use scsi::{PLAIN_IS_EXTENDED, ScsiCommand};
use wrapper::Wrapper;

// A command is shown by its LUN, and by its block: the first `blocklength` bytes of `block`.
#[derive(Clone, Copy)]
pub struct Shown {
    pub lun: u8,
    pub blocklength: u8,
    pub block: [u8; 16],
}

// The call that shows the command gives the answer, and the command if it shows one.
#[derive(Clone, Copy)]
pub struct Looked {
    pub answer: Answer,
    pub shown: Option<Shown>,
}

// A command is offered decoded, with its LUN.
#[derive(Clone, Copy)]
pub struct Offer {
    pub lun: u8,
    pub command: ScsiCommand,
}

// The command step gives the answer, and the offer if it makes one.
#[derive(Clone, Copy)]
pub struct Step {
    pub answer: Answer,
    pub offer: Option<Offer>,
}

// No command is shown.
fn hidden(answer: Answer) -> Looked
    ensures { result ≡ hides answer }
{
    Looked {
        answer,
        shown: None,
    }
}

// The command is shown in every state but 0.
pub fn command(device: Device, io: &[u8]) -> Looked
    ensures { showing_of result ≡ command_call device io.now }
{
    if broken(device, io.len()) {
        return hidden(Answer::BrokenRecord);
    }
    if is_in(device, state_number(State::CommandTransfer)) {
        return hidden(Answer::Done);
    }
    let w = device.wrapper;
    let block = w.block;
    Looked {
        answer: Answer::Done,
        shown: Some(Shown {
            lun: w.lun,
            blocklength: w.blocklength,
            block,
        }),
    }
}

// No command is offered.
fn nothing(answer: Answer) -> Step
    ensures { result ≡ offers_none answer }
{
    Step {
        answer,
        offer: None,
    }
}

// The block of the wrapper `wrapper` is decoded, and the command is offered with its LUN.
#[tactic(auto, unfolding(crate::specs::Command::block_of, crate::specs::Command::stepping_of_decoding))]
fn decoded(wrapper: Wrapper, extended: bool) -> Step
    requires { wrapper.blocklength ≤ 16 }
    ensures { stepping_of result ≡ stepping_of_decoding wrapper.lun (decode_call extended (block_of wrapper)) }
{
    let Some(command) = scsi::decode_told(&wrapper.block[..wrapper.blocklength as usize], extended)
    else {
        return nothing(Answer::EmptyBlock);
    };
    Step {
        answer: Answer::Done,
        offer: Some(Offer {
            lun: wrapper.lun,
            command,
        }),
    }
}

// This says whether the step offers the command: it is shown, and no status is present.
pub fn offers(device: Device) -> bool
    ensures { result ≡ is_offered device }
{
    if is_in(device, state_number(State::CommandTransfer)) {
        return false;
    }
    !present(device.status)
}

// The command step offers the command, decoded, while the firmware has set no status for it. The caller tells whether extended addressing
// is on.
pub fn command_step_told(device: Device, io: &[u8], extended: bool) -> Step
    ensures { stepping_of result ≡ command_step_told_call extended device io.now }
{
    if broken(device, io.len()) {
        return nothing(Answer::BrokenRecord);
    }
    if offers(device) {
        return decoded(device.wrapper, extended);
    }
    nothing(Answer::Done)
}

// The command step with extended addressing on: this is the plain entry.
pub fn command_step(device: Device, io: &[u8]) -> Step
    ensures { stepping_of result ≡ command_step_call device io.now }
{
    command_step_told(device, io, PLAIN_IS_EXTENDED)
}
