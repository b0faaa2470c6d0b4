// The firmware reads and writes the data of a transfer, over a record of bytes. Each call takes any bytes of any length. It tests first
// whether they are a record, and the call by value tests whether that is broken. A refusal with 10 leaves everything as it was. It is a number
// and no error of an enum, because C reads the result.
#![tactic(auto)]

ghost use Rattle.std.specs.Prelude.{◌≡◌, false, cond, length};
ghost use Rattle.answers.specs.Answers.{answer_of};
ghost use Rattle.recordbytes.specs.Layout.{record_size};
ghost use Rattle.recordbytes.specs.Record.{store_marks, store_put_in};
ghost use Rattle.border.specs.Word.{word, upper_half, answer_word};
ghost use Rattle.databytes.specs.Data.{data_outcome, read_data_on, write_data_on, write_data_all_on};
ghost use Rattle.databytes.specs.Inner.Data.{StorableMove, is10};

use answers::answer_number;
use border::word::{upper_half, word};
use calls::Moved;
use recordbytes::{device_at, known, store};

// Stores the marks in the record, and puts answer and count into one number. A broken record stays as it is: only the marks of a whole
// record are known to fit into their places.
fn moved(record: &mut [u8], m: Moved) -> u64
    requires { (length «record».old ≡ record_size) × (is10 m ≡ false → StorableMove m) }
    ensures { (result ≡ cond (is10 m) (answer_word 10) (word (answer_of m.report.answer).number 0 0 0 (upper_half (answer_of m.report.answer) m.report.count))) × («record».new ≡ cond (is10 m) «record».old (store_marks m.device.marks «record».old)) }
{
    let report = m.report;
    let answer = report.answer;
    let number = answer_number(answer);
    if number == 10 {
        return 10;
    }
    let d = m.device;
    let marks = d.marks;
    store::marks(record, marks);
    word(
        number,
        0,
        0,
        0,
        upper_half(answer, store::narrow(report.count)),
    )
}

// Stores what a write leaves: the count of what was put in, which every record has room for, and then the marks.
fn written(record: &mut [u8], m: Moved) -> u64
    requires { (length «record».old ≡ record_size) × (is10 m ≡ false → StorableMove m) }
    ensures { (result ≡ cond (is10 m) (answer_word 10) (word (answer_of m.report.answer).number 0 0 0 (upper_half (answer_of m.report.answer) m.report.count))) × («record».new ≡ cond (is10 m) (store_put_in m.device.putin «record».old) (store_marks m.device.marks (store_put_in m.device.putin «record».old))) }
{
    let d = m.device;
    let putin = d.putin;
    store::put_in(record, putin);
    moved(record, m)
}

// Reads unread bytes of `io` into `dst`.
pub fn read_data(record: &mut [u8], io: &[u8], dst: &mut [u8]) -> u64
    ensures { data_outcome result «record».new dst.new ≡ read_data_on «record».old io.now dst.old }
{
    if !known(record) {
        return 10;
    }
    let m = calls::read_data(device_at(record), dst, io);
    moved(record, m)
}

// Writes bytes of `src` into `io`, as many as fit and at most as many as are left.
pub fn write_data(record: &mut [u8], io: &mut [u8], src: &[u8]) -> u64
    ensures { data_outcome result «record».new io.new ≡ write_data_on «record».old io.old src.now }
{
    if !known(record) {
        return 10;
    }
    let m = calls::write_data(device_at(record), io, src);
    written(record, m)
}

// Writes all of `src` into `io`, or none of it.
pub fn try_write_data_all(record: &mut [u8], io: &mut [u8], src: &[u8]) -> u64
    ensures { data_outcome result «record».new io.new ≡ write_data_all_on «record».old io.old src.now }
{
    if !known(record) {
        return 10;
    }
    let m = calls::try_write_data_all(device_at(record), io, src);
    written(record, m)
}
