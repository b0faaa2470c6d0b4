// Document 01's listing, made by the calls over a lent record. This program stands for a firmware in Rattle that keeps one device record
// and lends it. Only `poll` and `set_status` make a reference to the record. A record that is lent and then taken back gives the call by
// value again, so each of the two has the contract of the call by value of its name.
#![tactic(auto)]

ghost use Rattle.std.specs.Prelude.{◌≡◌};
ghost use Rattle.bbb.specs.Poll.{given, polling_of, poll_call};
ghost use Rattle.calls.specs.Status.{stating_of, set_status_call};

use answers::{Answer, Stalls, answer_number, missing};
use bbb::{Polled, Turn};
use benchline::{Line, put_line};
use calls::{FirmwareStatus, Stated};
use device::create::{create, none};
use device::{Device, Fixed};
use ring::state_number;

// The descriptor of standard output.
const STDOUT: i32 = 1;

// Lends the record to a poll and takes it back, in the steps of which `thin.proofs.Lender.lender_spec` speaks.
fn poll(
    mut device: Device,
    io: &mut [u8],
    packet: &mut [u8],
    one: &[u8],
    two: &[u8],
    turn: Turn,
) -> Polled
    ensures { polling_of result io.new packet.new ≡ poll_call device io.old (given packet.old one.now two.now turn) }
{
    let r = lent::poll(&mut device, io, packet, one, two, turn);
    let d = device;
    Polled {
        device: d,
        report: r,
    }
}

// Lends the record to a status and takes it back, in the same steps.
fn set_status(mut device: Device, io: &[u8], given: FirmwareStatus) -> Stated
    ensures { stating_of result ≡ set_status_call device io.now given }
{
    let r = lent::set_status(&mut device, io, given);
    let d = device;
    Stated {
        device: d,
        answer: r,
    }
}

// The fields of the line with the index `index`; state, left and unread are those of `device`. benchrun has the same for its events, with
// the reason why there are two.
fn line_of(index: usize, device: Device, answer: Answer, count: usize, stalls: Stalls) -> Line {
    Line {
        index,
        answer: answer_number(answer),
        state: state_number(device.state),
        left: device.left.0,
        unread: device.marks.write.saturating_sub(device.marks.read),
        count,
        stalls,
        missing: missing(answer),
    }
}

// Prints the line with the bytes sent, which are the first `sent` bytes of the packet buffer.
fn print(line: Line, packet: &[u8], sent: usize) {
    let n = sent.min(packet.len()).min(64);
    let mut text = [0u8; 280];
    let end = put_line(line, &packet[..n], &mut text);
    io::write_all(STDOUT, &text[..end]);
}

// Makes a poll with the offer `one` and prints its line. There is no second packet.
fn polled(index: usize, device: Device, io: &mut [u8], one: &[u8], turn: Turn) -> Device {
    let mut packet = [0u8; 64];
    let p = poll(device, io, &mut packet, one, &[], turn);
    let r = p.report;
    let line = line_of(index, p.device, r.answer, usize::from(r.taken), r.stalls);
    print(line, &packet, r.sent);
    p.device
}

// Sets a status and prints its line.
fn stated(index: usize, device: Device, io: &[u8], given: FirmwareStatus) -> Device {
    let s = set_status(device, io, given);
    print(line_of(index, s.device, s.answer, 0, Stalls::Kept), io, 0);
    s.device
}

// A wrapper with tag 1, no data and a command block of six zeros, which asks whether the unit is ready.
fn wrapper() -> [u8; 31] {
    let mut w = [0u8; 31];
    w[..4].copy_from_slice(b"USBC");
    w[4] = 1;
    w[14] = 6;
    w
}

// The host sends the wrapper, the firmware says passed, and the host takes the status and then stays silent.
fn play(device: Device, io: &mut [u8], wrapper: &[u8]) {
    let silent = Turn {
        first: 1,
        second: 1,
        write: 0,
    };
    let offered = Turn { first: 0, ..silent };
    let passed = FirmwareStatus {
        status: 0,
        figure: 0,
    };
    let device = polled(1, device, io, wrapper, offered);
    let device = stated(2, device, io, passed);
    let device = polled(3, device, io, &[], silent);
    polled(4, device, io, &[], silent);
}

// Creates the device, prints the line of that, and plays the rest of the listing.
fn main() {
    let made = create(Fixed {
        packetsize: 64,
        maxlun: 0,
        size: 64,
    });
    let (d, answer) = match made {
        Ok(device) => (device, Answer::Done),
        Err(why) => (none(), why),
    };
    let mut io = [0u8; 64];
    print(line_of(0, d, answer, 0, Stalls::Kept), &io, 0);
    let sent = wrapper();
    play(d, &mut io, &sent);
}
