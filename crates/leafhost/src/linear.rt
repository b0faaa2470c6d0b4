// These are the buffer's calls; the result is 01's answer number. `marks` are three numbers: the read mark, the write mark, and the count
// of the last call that was not refused with 10, or with answer 1 the bytes missing. If they are not three, they are a broken record: the answer is 10, and nothing changes.
#![tactic(auto, using(crate::proofs::BufferWays::ways))]

ghost use Rattle.std.specs.Prelude.{◌≡◌, ◌≢◌, length, IfSome, IfNone};
ghost use Rattle.buffer.specs.Calls.{available_call, clean_call, shift_call, write_call, write_all_call, fill_call, read_call};
ghost use Rattle.leafhost.specs.Buffer.{hosted, buffer_outcome, marked_by, host_into};
ghost use Rattle.leafhost.specs.Inner.Buffer.{marks_of, answer_number};

use buffer::{Answer, Marks, Refusal};

// Gives 01's number of the `answer`, and stores the marks and the count in the caller's `marks`.
fn report(marks: &mut [usize], answer: Answer) -> u32
    requires { length marks.old ≡ 3 }
    ensures { (result ≡ answer_number answer) × (marks.new ≡ marks_of answer marks.old) }
{
    let (number, after, count) = match answer {
        Ok(t) => (0, t.marks, t.count),
        Err(Refusal::Overflow(o)) => (1, o.marks, o.missing),
        Err(Refusal::Broken) => return 10,
    };
    marks[0] = after.read;
    marks[1] = after.write;
    marks[2] = count;
    number
}

// Takes the marks from the first two of the caller's `marks`, if these are three.
// Each call asks for them on its own: a closure for the call that borrowed `io` would leave the bytes of `io` open.
fn marked(marks: &[usize]) -> Option<Marks>
    ensures three { IfSome result (λ m. (length marks.now ≡ 3) × (m ≡ marked_by marks.now)) }
    ensures other { IfNone result (length marks.now ≢ 3) }
{
    match marks {
        [read, write, _] => Some(Marks {
            read: *read,
            write: *write,
        }),
        _ => None,
    }
}

// Counts the unread bytes of `io`.
#[unsafe(no_mangle)]
pub extern "C" fn buffer_available(io: &[u8], marks: &mut [usize]) -> u32
    ensures { buffer_outcome result io.now marks.new ≡ hosted available_call io.now marks.old }
{
    let Some(m) = marked(marks) else { return 10 };
    report(marks, buffer::available(io, m))
}

// Empties the buffer `io`: both marks become 0.
#[unsafe(no_mangle)]
pub extern "C" fn buffer_clean(io: &[u8], marks: &mut [usize]) -> u32
    ensures { buffer_outcome result io.now marks.new ≡ hosted clean_call io.now marks.old }
{
    let Some(m) = marked(marks) else { return 10 };
    report(marks, buffer::clean(io, m))
}

// Moves the unread bytes of `io` to the front.
#[unsafe(no_mangle)]
pub extern "C" fn buffer_shift(io: &mut [u8], marks: &mut [usize]) -> u32
    ensures { buffer_outcome result io.new marks.new ≡ hosted shift_call io.old marks.old }
{
    let Some(m) = marked(marks) else { return 10 };
    report(marks, buffer::shift(io, m))
}

// Appends what fits of `src` to the unread bytes of `io`.
#[unsafe(no_mangle)]
pub extern "C" fn buffer_write(io: &mut [u8], marks: &mut [usize], src: &[u8]) -> u32
    ensures { buffer_outcome result io.new marks.new ≡ hosted (write_call src.now) io.old marks.old }
{
    let Some(m) = marked(marks) else { return 10 };
    report(marks, buffer::write(io, m, src))
}

// Appends all of `src` to the unread bytes of `io`, or nothing. Room is asked for `want` bytes, and for all of `src`.
#[unsafe(no_mangle)]
pub extern "C" fn buffer_write_all(
    io: &mut [u8],
    marks: &mut [usize],
    want: usize,
    src: &[u8],
) -> u32
    ensures { buffer_outcome result io.new marks.new ≡ hosted (write_all_call want src.now) io.old marks.old }
{
    let Some(m) = marked(marks) else { return 10 };
    report(marks, buffer::write_all(io, m, want, src))
}

// Appends the byte `v` to the unread bytes of `io`, as often as it fits and at most `n` times.
#[unsafe(no_mangle)]
pub extern "C" fn buffer_fill_up_to(io: &mut [u8], marks: &mut [usize], v: u8, n: usize) -> u32
    ensures { buffer_outcome result io.new marks.new ≡ hosted (fill_call v n) io.old marks.old }
{
    let Some(m) = marked(marks) else { return 10 };
    report(marks, buffer::fill_up_to(io, m, v, n))
}

// Gives the first unread bytes of `io`, as many as `dst` holds, to the front of `dst`. After that they count as read.
#[unsafe(no_mangle)]
pub extern "C" fn buffer_read(io: &[u8], marks: &mut [usize], dst: &mut [u8]) -> u32
    ensures { (buffer_outcome result io.now marks.new ≡ hosted (read_call (length dst.old)) io.now marks.old)
        × (dst.new ≡ host_into dst.old io.now marks.old) }
{
    let Some(m) = marked(marks) else { return 10 };
    report(marks, buffer::read(io, m, dst))
}
