// The status of the command.
ghost use Rattle.std.specs.Prelude.{◌≡◌};
ghost use Rattle.callbytes.specs.Calls.{call_outcome, set_status_on};

use answers::answer_number;
use calls::FirmwareStatus;
use recordbytes::{device_at, known, store};

// Sets the status that the host gets: `status` is the status byte, and `figure` says how many bytes of L the firmware dealt with.
pub fn set_status(record: &mut [u8], io: &[u8], status: u8, figure: u32) -> u32
    ensures { call_outcome result «record».new ≡ set_status_on «record».old io.now (record { status = status; figure = figure }) }
{
    if !known(record) {
        return 10;
    }
    let s = calls::set_status(device_at(record), io, FirmwareStatus { status, figure });
    let d = s.device;
    let now = d.status;
    let answer = s.answer;
    store::status(record, now);
    answer_number(answer) as u32
}
