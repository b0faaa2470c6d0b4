// The calls of the bus: a reset, and control requests.
ghost use Rattle.std.specs.Prelude.{◌≡◌, length, get_or};
ghost use Rattle.answers.specs.Answers as answers;
ghost use Rattle.calls.specs.Bus as bus;
ghost use Rattle.recordbytes.specs.Layout.{record_size};
ghost use Rattle.recordbytes.specs.Record.{store_state, store_left, store_put_in, store_status};
ghost use Rattle.border.specs.Word as spec;
ghost use Rattle.callbytes.specs.Calls.{call_outcome, reset_on, control_on};

use answers::answer_number;
use border::word::{stalls_number, word};
use calls::{Handled, Request};
use recordbytes::{device_at, known, store};

// Puts an answer, stalls and a reply into one number. Max LUN is its count, and the flag says that there is one.
fn replied(number: u8, stalls: u8, reply: Option<u8>) -> u64
    ensures { result ≡ spec.word number 0 stalls (length (bus.replied reply)) (get_or (bus.replied reply) 0 0) }
{
    match reply {
        None => word(number, 0, stalls, 0, 0),
        Some(lun) => word(number, 0, stalls, 1, lun as u32),
    }
}

// Stores the count of what was put in, status, state and left in the record; everything else goes into the result.
fn handled(record: &mut [u8], h: Handled) -> u64
    requires { length «record».old ≡ record_size }
    ensures { (result ≡ spec.word (answers.answer_of h.report.answer).number 0 (spec.stalls_number h.report.stalls) (length (bus.replied h.report.reply)) (get_or (bus.replied h.report.reply) 0 0))
        × («record».new ≡ store_left h.device.left (store_state h.device.state (store_status h.device.status (store_put_in h.device.putin «record».old)))) }
{
    store::put_in(record, h.device.putin);
    store::status(record, h.device.status);
    store::state(record, h.device.state);
    store::left(record, h.device.left);
    let answer = answer_number(h.report.answer);
    replied(answer, stalls_number(h.report.stalls), h.report.reply)
}

// Resets the device: it enters 0.
pub fn reset(record: &mut [u8], io: &[u8]) -> u64
    ensures { call_outcome result «record».new ≡ reset_on «record».old io.now }
{
    if !known(record) {
        return 10;
    }
    handled(record, calls::reset(device_at(record), io))
}

// Handles the control request `request` with the bmRequestType `request_type`.
pub fn control(record: &mut [u8], io: &[u8], request_type: u8, request: u8) -> u64
    ensures { call_outcome result «record».new ≡ control_on «record».old io.now (record { requesttype = request_type; request = request }) }
{
    if !known(record) {
        return 10;
    }
    let h = calls::control(
        device_at(record),
        io,
        Request {
            requesttype: request_type,
            request,
        },
    );
    handled(record, h)
}
