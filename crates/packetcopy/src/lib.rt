// A packet of one of the four packet sizes is copied. The compiler knows each size, and so it moves the bytes without a loop.
#![tactic(auto)]

ghost use Rattle.std.specs.Prelude.{◌≡◌, cond, ◌+◌, ◌≤◌, length, take, drop};
ghost use Rattle.fields.specs.Overlay.{overlay};
ghost use Rattle.device.specs.Create.{is_packet_size};

use buffer::span::copy;

// Copies `p` bytes if `p` is a packet size, and says whether it is one: the bytes of `src` from index `from` on go to `dst`, from index
// `at` on. The test costs nothing here, because each size is copied by code of its own.
pub fn put_packet(dst: &mut [u8], at: usize, src: &[u8], from: usize, p: usize) -> bool
    requires { (from + p ≤ length src.now) × (at + p ≤ length dst.old) }
    ensures { (result ≡ is_packet_size p) × (dst.new ≡ cond (is_packet_size p) (overlay dst.old at (take p (drop from src.now))) dst.old) }
{
    // One match over all four: the compiler counts p's bits and jumps by a table, 7 instructions a poll more.
    if p < 32 {
        match p {
            8 => copy::<8, 1>(dst, at, src, from),
            16 => copy::<16, 1>(dst, at, src, from),
            _ => return false,
        }
    } else {
        match p {
            32 => copy::<16, 2>(dst, at, src, from),
            64 => copy::<16, 4>(dst, at, src, from),
            _ => return false,
        }
    }
    true
}
