// One poll of a record of bytes: first the checks, and then the whole ring.
#![tactic(auto)]

ghost use Rattle.std.specs.Prelude.{◌≡◌, true, cond, ◌<◌, ◌^◌, length, None};
ghost use Rattle.answers.specs.Answers as answers;
ghost use Rattle.buffer.specs.Buffer.{buffer};
ghost use Rattle.buffer.specs.Inner.Buffer.{Sound};
ghost use Rattle.device.specs.Device.{numbers_of};
ghost use Rattle.device.specs.Broken.{Whole};
ghost use Rattle.bbb.specs.Poll.{given, Fits};
ghost use Rattle.bbb.specs.Inner.Phases.{is_valid_found, InFront, just_read, is_counted_anew};
ghost use Rattle.wrapper.specs.Wrapper.{wrapper_of};
ghost use Rattle.recordbytes.specs.Layout.{record_size};
ghost use Rattle.recordbytes.specs.Record.{is_known, device_at, store_put_in, store_status, store_wrapper};
ghost use Rattle.border.specs.Word as spec;
ghost use Rattle.ringbytes.specs.Poll.{poll_outcome, poll_on};
ghost use Rattle.ringbytes.specs.Inner.Poll.{StorableChange, store_change};

use answers::{answer_number, carried};
use bbb::open::{Opened, open};
use bbb::{Change, Report, Turn, counted_anew, fits, go_on, is_valid};
use border::word::{stalls_number, upper_half, word};
use device::{Numbers, whole};
use recordbytes::{known, numbers_at, store};
use wrapper::counters::PutIn;
use wrapper::{head_of, in_wrapper};

// Stores 0 as the count of what was put in, where it starts anew.
fn count_anew(record: &mut [u8], o: Opened)
    requires { length «record».old ≡ record_size }
    ensures { «record».new ≡ cond (is_counted_anew o.found o.cleared) (store_put_in (record { 0 = 0 }) «record».old) «record».old }
{
    let found = o.found;
    if counted_anew(found, o.cleared) {
        store::put_in(record, PutIn(0));
    }
}

// Stores the wrapper that opening found, if it found a valid one. Its bytes stand in the IO buffer, right before the read mark.
fn keep_wrapper(record: &mut [u8], o: Opened, io: &[u8])
    requires { (length «record».old ≡ record_size) × Sound (buffer io.now o.marks) × InFront o }
    ensures { «record».new ≡ cond (is_valid_found o.found) (store_wrapper (wrapper_of (just_read io.now o.marks)) «record».old) «record».old }
{
    if is_valid(o.found) {
        let end = o.marks.read;
        let message = &io[end - in_wrapper::SIZE..end];
        store::wrapper(
            record,
            head_of(message),
            &message[in_wrapper::BLOCK..in_wrapper::SIZE],
        );
    }
}

// Clears the status where 0 was entered.
fn clear(record: &mut [u8], cleared: bool)
    requires { length «record».old ≡ record_size }
    ensures { «record».new ≡ cond cleared (store_status None «record».old) «record».old }
{
    if cleared {
        store::status(record, None);
    }
}

// Stores everything that `c` changed in the record but the wrapper.
fn keep(record: &mut [u8], c: Change)
    requires { (length «record».old ≡ record_size) × StorableChange c }
    ensures { «record».new ≡ store_change c «record».old }
{
    let state = c.state;
    let marks = c.marks;
    let left = c.left;
    clear(record, c.cleared);
    store::state(record, state);
    store::marks(record, marks);
    store::left(record, left);
}

// Puts the parts of a report into one number.
fn result(report: Report) -> u64
    requires { report.sent < 2 ^ 32 }
    ensures { result ≡ spec.word (answers.answer_of report.answer).number (answers.answer_of report.answer).carried (spec.stalls_number report.stalls) report.taken (spec.upper_half (answers.answer_of report.answer) report.sent) }
{
    let answer = report.answer;
    let stalls = report.stalls;
    word(
        answer_number(answer),
        carried(answer),
        stalls_number(stalls),
        report.taken,
        upper_half(answer, store::narrow(report.sent)),
    )
}

// Makes the poll of a record that is whole, where what was offered fits. `n` are the numbers in `record`.
fn go_round(
    record: &mut [u8],
    n: Numbers,
    io: &mut [u8],
    packet: &mut [u8],
    one: &[u8],
    two: &[u8],
    turn: Turn,
) -> u64
    requires { (is_known «record».old ≡ true) × (n ≡ numbers_of (device_at «record».old)) × Whole n (length io.old) × Fits n.fixed.packetsize packet.old one.now two.now }
    ensures { poll_outcome result «record».new io.new packet.new ≡ poll_on «record».old io.old (given packet.old one.now two.now turn) }
{
    let o = open(n, io, one, turn.first);
    count_anew(record, o);
    keep_wrapper(record, o, io);
    let c = go_on(n, o, io, packet, one, two, turn);
    let report = c.report;
    keep(record, c);
    result(report)
}

// Tests for 10, then for 11, and then makes the poll.
pub fn poll(
    record: &mut [u8],
    io: &mut [u8],
    packet: &mut [u8],
    one: &[u8],
    two: &[u8],
    turn: Turn,
) -> u64
    ensures { poll_outcome result «record».new io.new packet.new ≡ poll_on «record».old io.old (given packet.old one.now two.now turn) }
{
    if !known(record) {
        return 10;
    }
    let n = numbers_at(record);
    if !whole(n, io.len()) {
        return 10;
    }
    if !fits(n.fixed.packetsize, packet.len(), one.len(), two.len()) {
        return 11;
    }
    go_round(record, n, io, packet, one, two, turn)
}
