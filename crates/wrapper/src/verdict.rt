// The verdict of BOT on one received message is added by document 01, and completed by request 3 of document 02; the Rust does not have it.
ghost use Rattle.std.specs.Prelude.{◌≡◌, length};
ghost use Rattle.wrapper.specs.Verdict.{is_clear, is_meaningful, verdict_of, verdict_number};

use crate::{block_fits, in_wrapper, signed};
use fields::{bits_of, byte};

// A message gets one of these three verdicts.
#[derive(Clone, Copy)]
pub enum Verdict {
    Invalid = 0,
    ValidOnly = 1,
    Meaningful = 2,
}

// Tests whether `message`, which has 31 bytes, has no reserved bit set: in the flags all but the direction are, and all beside the LUN.
fn clear(message: &[u8]) -> bool
    requires { length message.now ≡ 31 }
    ensures { result ≡ is_clear message.now }
{
    bits_of(message, in_wrapper::FLAGS, 0, 7) == 0 && bits_of(message, in_wrapper::LUN, 4, 4) == 0
}

// Tests whether `message`, which has 31 bytes, has no reserved bit set, a LUN of at most `maxlun` and a block length of 1 to 16.
fn meaningful(message: &[u8], maxlun: u8) -> bool
    requires { length message.now ≡ 31 }
    ensures { result ≡ is_meaningful maxlun message.now }
{
    clear(message)
        && bits_of(message, in_wrapper::LUN, 0, 4) <= maxlun
        && block_fits(byte(message, in_wrapper::BLOCK_LENGTH))
}

// Gives BOT's verdict on `message`, for a device with the LUNs 0 to `maxlun`.
pub fn verdict_on(message: &[u8], maxlun: u8) -> Verdict
    ensures { result ≡ verdict_of maxlun message.now }
{
    if !signed(message) {
        Verdict::Invalid
    } else if meaningful(message, maxlun) {
        Verdict::Meaningful
    } else {
        Verdict::ValidOnly
    }
}

// Gives the verdict as a number, for callers in C and Rust: 0 invalid, 1 valid only, 2 meaningful.
pub fn verdict_number(message: &[u8], maxlun: u8) -> u32
    ensures { result ≡ verdict_number (verdict_of maxlun message.now) }
{
    verdict_on(message, maxlun) as u32
}
