// These are the buffer's calls for marks that are known to be sound: read mark ≤ write mark ≤ length. Each call promises sound
// marks again, so that a caller has to test only once.
// `io` and its marks stay two parameters: reads are lent `&[u8]` and writes `&mut [u8]`, and between two calls the marks stand in the record.
ghost use Rattle.std.specs.Prelude.{◌≡◌, ◌+◌, ◌-◌, ◌≤◌, max, length};
ghost use Rattle.buffer.specs.Buffer.{buffer, at, moved, with_room, fitting, written, filled, ready, ready_bytes, read_off};
ghost use Rattle.buffer.specs.Inner.Buffer.{Sound, Leaves, WritesAll};
ghost use Rattle.fields.specs.Overlay.{overlay};

use crate::Marks;
use crate::span::{fill, move_front, put};

impl Marks {
    // Counts the unread bytes.
    pub fn unread(self) -> usize
        requires { self.read ≤ self.write }
        ensures { result ≡ self.write - self.read }
    {
        self.write - self.read
    }
}

// `count` is how many bytes a call took or gave, and `marks` are the marks after it.
#[derive(Clone, Copy)]
pub struct Taken {
    pub count: usize,
    pub marks: Marks,
}

// The room, after the move, is below what was asked for: `missing` bytes of room are missing, at least 1. `marks` are the marks after the
// call: a refusal keeps the move.
#[derive(Clone, Copy)]
pub struct Overflow {
    pub missing: usize,
    pub marks: Marks,
}

// Gives the marks of an empty buffer.
pub fn clean() -> Marks
    ensures { result ≡ at 0 0 }
{
    Marks { read: 0, write: 0 }
}

// Moves the unread bytes of `io` to the front.
pub fn shift(io: &mut [u8], m: Marks) -> Marks
    requires { Sound (buffer io.old m) }
    ensures { Leaves (buffer io.new result) (moved (buffer io.old m)) }
{
    let n = m.unread();
    move_front(io, m.read, n);
    Marks { read: 0, write: n }
}

// Moves the unread bytes to the front if there is room for fewer than `n` bytes after the write mark.
pub fn make_room(io: &mut [u8], m: Marks, n: usize) -> Marks
    requires { Sound (buffer io.old m) }
    ensures { Leaves (buffer io.new result) (with_room n (buffer io.old m)) }
{
    if io.len() - m.write < n {
        return shift(io, m);
    }
    m
}

// Appends what fits of `src` to the unread bytes.
pub fn write(io: &mut [u8], m: Marks, src: &[u8]) -> Taken
    requires { Sound (buffer io.old m) }
    ensures { (result.count ≡ fitting (length src.now) (buffer io.old m))
        × Leaves (buffer io.new result.marks) (written src.now (buffer io.old m)) }
{
    let t = make_room(io, m, src.len());
    let at = t.write;
    let n = (io.len() - at).min(src.len());
    put(io, at, &src[..n]);
    Taken {
        count: n,
        marks: Marks {
            read: t.read,
            write: at + n,
        },
    }
}

// Appends all of `src` to the unread bytes, or nothing. Room is asked for `want` bytes, and for all of `src`.
pub fn write_all(io: &mut [u8], m: Marks, want: usize, src: &[u8]) -> Result<Marks, Overflow>
    requires { Sound (buffer io.old m) }
    ensures { WritesAll want src.now (buffer io.old m) result io.new }
{
    let need = want.max(src.len());
    let t = make_room(io, m, need);
    let at = t.write;
    let room = io.len() - at;
    if room < need {
        return Err(Overflow {
            missing: need - room,
            marks: t,
        });
    }
    put(io, at, src);
    Ok(Marks {
        read: t.read,
        write: at + src.len(),
    })
}

// Appends the byte `v` to the unread bytes, as often as it fits and at most `n` times.
pub fn fill_up_to(io: &mut [u8], m: Marks, v: u8, n: usize) -> Taken
    requires { Sound (buffer io.old m) }
    ensures { (result.count ≡ fitting n (buffer io.old m))
        × Leaves (buffer io.new result.marks) (filled v n (buffer io.old m)) }
{
    let t = make_room(io, m, n);
    let at = t.write;
    let k = (io.len() - at).min(n);
    fill(io, at, v, k);
    Taken {
        count: k,
        marks: Marks {
            read: t.read,
            write: at + k,
        },
    }
}

// Gives the first unread bytes, at most `most`, to the front of `dst`. After that they count as read.
pub fn read(io: &[u8], m: Marks, most: usize, dst: &mut [u8]) -> Taken
    requires { Sound (buffer io.now m) × (most ≤ length dst.old) }
    ensures { (result.count ≡ ready most (buffer io.now m))
        × Leaves (buffer io.now result.marks) (read_off most (buffer io.now m))
        × (dst.new ≡ overlay dst.old 0 (ready_bytes most (buffer io.now m))) }
{
    let from = m.read;
    let n = m.unread().min(most);
    let end = from + n;
    put(dst, 0, &io[from..end]);
    Taken {
        count: n,
        marks: Marks {
            read: end,
            write: m.write,
        },
    }
}
