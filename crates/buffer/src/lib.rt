// This is the linear buffer of document 01, after buffer.rs: the bytes are lent, and a read mark and a write mark go by value. The calls
// here take any marks: if these are out of order or past the bytes, the call is refused as Broken and nothing changes. `marked` has the same
// calls for a caller that has already tested its marks.
#![tactic(auto)]

pub mod marked;
pub mod span;

ghost use Rattle.std.specs.Prelude.{◌≡◌, false, length, OnOk, IfErr};
ghost use Rattle.buffer.specs.declared.Refusal.TheVariants.{Overflow, Broken};
ghost use Rattle.buffer.specs.Buffer.{buffer, is_sound};
ghost use Rattle.buffer.specs.Inner.Buffer.{Sound};
ghost use Rattle.buffer.specs.Calls.{answer_of, available_call, clean_call, shift_call, write_call, write_all_call, fill_call, read_call, read_into};

use crate::marked::{Overflow, Taken};

// `read` is the index of the next byte to read, and `write` that of the next byte to write.
#[derive(Clone, Copy)]
pub struct Marks {
    pub read: usize,
    pub write: usize,
}

// A call is refused for one of these reasons.
#[derive(Clone, Copy)]
pub enum Refusal {
    // There is too little room for all that was to be written.
    Overflow(Overflow),
    // The marks are out of order or past the bytes.
    Broken,
}

impl From<Overflow> for Refusal {
    ghost from_gives = { λ o r. r ≡ Overflow o };

    fn from(o: Overflow) -> Refusal {
        Refusal::Overflow(o)
    }
}

// Every call of the buffer gives one of these answers.
pub type Answer = Result<Taken, Refusal>;

// Tests whether the marks `m` are in order and within `len` bytes.
pub fn sound(len: usize, m: Marks) -> bool
    ensures { result ≡ is_sound len m }
{
    m.read <= m.write && m.write <= len
}

// Every call begins with this: marks that are not sound in `io` are refused.
fn tested(io: &[u8], m: Marks) -> Result<(), Refusal>
    ensures sound { OnOk result (Sound (buffer io.now m)) }
    ensures broken { IfErr result (λ r. (r ≡ Broken) × (is_sound (length io.now) m ≡ false)) }
{
    if sound(io.len(), m) {
        Ok(())
    } else {
        Err(Refusal::Broken)
    }
}

// Counts the unread bytes of `io`.
pub fn available(io: &[u8], m: Marks) -> Answer
    ensures { answer_of m result io.now ≡ available_call (buffer io.now m) }
{
    tested(io, m)?;
    Ok(Taken {
        count: m.unread(),
        marks: m,
    })
}

// Empties the buffer: nothing is unread any more, and the bytes of `io` stay.
pub fn clean(io: &[u8], m: Marks) -> Answer
    ensures { answer_of m result io.now ≡ clean_call (buffer io.now m) }
{
    tested(io, m)?;
    Ok(Taken {
        count: 0,
        marks: marked::clean(),
    })
}

// Moves the unread bytes of `io` to the front.
pub fn shift(io: &mut [u8], m: Marks) -> Answer
    ensures { answer_of m result io.new ≡ shift_call (buffer io.old m) }
{
    tested(io, m)?;
    let marks = marked::shift(io, m);
    Ok(Taken { count: 0, marks })
}

// Appends what fits of `src` to the unread bytes.
pub fn write(io: &mut [u8], m: Marks, src: &[u8]) -> Answer
    ensures { answer_of m result io.new ≡ write_call src.now (buffer io.old m) }
{
    tested(io, m)?;
    Ok(marked::write(io, m, src))
}

// Appends all of `src` to the unread bytes, or nothing. Room is asked for `want` bytes, and for all of `src`. With an empty `src` only the
// room is asked for: a packet read does this if its endpoint turns out to be busy.
pub fn write_all(io: &mut [u8], m: Marks, want: usize, src: &[u8]) -> Answer
    ensures { answer_of m result io.new ≡ write_all_call want src.now (buffer io.old m) }
{
    tested(io, m)?;
    let marks = marked::write_all(io, m, want, src)?;
    Ok(Taken {
        count: src.len(),
        marks,
    })
}

// Appends the byte `v` to the unread bytes, as often as it fits and at most `n` times.
pub fn fill_up_to(io: &mut [u8], m: Marks, v: u8, n: usize) -> Answer
    ensures { answer_of m result io.new ≡ fill_call v n (buffer io.old m) }
{
    tested(io, m)?;
    Ok(marked::fill_up_to(io, m, v, n))
}

// Gives the first unread bytes, as many as `dst` holds, to the front of `dst`. After that they count as read.
pub fn read(io: &[u8], m: Marks, dst: &mut [u8]) -> Answer
    ensures { (answer_of m result io.now ≡ read_call (length dst.old) (buffer io.now m))
        × (dst.new ≡ read_into dst.old (buffer io.now m)) }
{
    tested(io, m)?;
    Ok(marked::read(io, m, dst.len(), dst))
}
