// A result of several parts in one number of 64 bits; specs/Word.antt says which bits each part has.
ghost use Rattle.std.specs.Prelude.{◌≡◌};
ghost use Rattle.answers.specs.Answers.{answer_of};
ghost use Rattle.border.specs.Word as spec;

use answers::{Answer, Stalls, answer_number, missing};
use recordbytes::store;

// This number says what is asked of both endpoints.
pub fn stalls_number(stalls: Stalls) -> u8
    ensures { result ≡ spec.stalls_number stalls }
{
    stalls as u8
}

// Bits 32 to 63 of a result: the `count`, or how many bytes of room are missing.
pub fn upper_half(answer: Answer, count: u32) -> u32
    ensures { result ≡ spec.upper_half (answer_of answer) count }
{
    if answer_number(answer) == 1 {
        return store::narrow(missing(answer).min(4294967295));
    }
    count
}

// The five parts are put into one number.
pub fn word(answer: u8, carried: u8, stalls: u8, flag: u8, count: u32) -> u64
    ensures { result ≡ spec.word answer carried stalls flag count }
{
    answer as u64
        + 256 * (carried as u64)
        + 65536 * (stalls as u64)
        + 16777216 * (flag as u64)
        + 4294967296 * (count as u64)
}
