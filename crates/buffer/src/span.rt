// These functions store bytes into a slice. Each leaves an `overlay`: some bytes are replaced, and all others are as they were.
// A copy goes in chunks of constant size: the compiler knows how many bytes a chunk has and moves it by a few wide loads and stores, where
// a loop over single bytes pays for each of its turns. docs/READOUT.md has figures. A chunk goes through a local array, so all of it is read
// before any of it is stored, and the compiler need not know whether the two places overlap.
ghost use Rattle.std.specs.Prelude.{◌≡◌, ◌+◌, ◌*◌, ◌≤◌, length, take, drop, replicate};
ghost use Rattle.fields.specs.Overlay.{overlay};

use fields::{bytes_at, put_bytes};

// Copies `K` chunks of `N` bytes: those of `src` from index `from` on go to `dst`, from index `at` on. Where `N` is above 16, a Cortex-M3
// calls `__aeabi_memmove` for a chunk; 16 bytes go in its registers. So 64 bytes are four chunks.
pub fn copy<const N: usize, const K: usize>(dst: &mut [u8], at: usize, src: &[u8], from: usize)
    requires { (from + K * N ≤ length src.now) × (at + K * N ≤ length dst.old) }
    ensures { dst.new ≡ overlay dst.old at (take (K * N) (drop from src.now)) }
{
    for i in 0..K {
        put_bytes::<N>(dst, at + i * N, bytes_at(src, from + i * N));
    }
}

// Copies `src`, of 64 bytes or more, to `dst`, from index `at` on. If the chunks do not come out even, a last one ends where `src` ends:
// it copies some bytes again.
fn put_long(dst: &mut [u8], at: usize, src: &[u8])
    requires { (64 ≤ length src.now) × (at + length src.now ≤ length dst.old) }
    ensures { dst.new ≡ overlay dst.old at src.now }
{
    let n = src.len();
    for i in 0..n / 64 {
        copy::<16, 4>(dst, at + 64 * i, src, 64 * i);
    }
    if n % 64 != 0 {
        let last = n - 64;
        copy::<16, 4>(dst, at + last, src, last);
    }
}

// Copies `src` to `dst`, from index `at` on, by `K` chunks of `N` bytes at each end of it. The two ends may overlap.
fn put_ends<const N: usize, const K: usize>(dst: &mut [u8], at: usize, src: &[u8])
    requires { (K * N ≤ length src.now) × (length src.now ≤ K * N + K * N) × (at + length src.now ≤ length dst.old) }
    ensures { dst.new ≡ overlay dst.old at src.now }
{
    let rest = src.len() - K * N;
    copy::<N, K>(dst, at, src, 0);
    copy::<N, K>(dst, at + rest, src, rest);
}

// Copies `src` to `dst`, from index `at` on.
pub fn put(dst: &mut [u8], at: usize, src: &[u8])
    requires { at + length src.now ≤ length dst.old }
    ensures { dst.new ≡ overlay dst.old at src.now }
{
    match src.len() {
        64.. => put_long(dst, at, src),
        32.. => put_ends::<16, 2>(dst, at, src),
        16.. => put_ends::<16, 1>(dst, at, src),
        8.. => put_ends::<8, 1>(dst, at, src),
        n => {
            // By index: `copy_from_slice` looks at the pointers' distance, which tools/pointers.awk refuses.
            for i in 0..n {
                dst[at + i] = src[i];
            }
        }
    }
}

// Copies the `n` bytes of `io` from index `from` on to its front. The copy goes upwards, so it reads each byte before it stores over it.
pub fn move_front(io: &mut [u8], from: usize, n: usize)
    requires { from + n ≤ length io.old }
    ensures { io.new ≡ overlay io.old 0 (take n (drop from io.old)) }
{
    // In chunks and by index: `copy_within` hands on pointers, which tools/pointers.awk refuses.
    for i in 0..n / 16 {
        let chunk: [u8; 16] = bytes_at(io, from + 16 * i);
        put_bytes(io, 16 * i, chunk);
    }
    for k in n / 16 * 16..n {
        io[k] = io[from + k];
    }
}

// Stores `v` into the `n` bytes of `io` from index `at` on.
pub fn fill(io: &mut [u8], at: usize, v: u8, n: usize)
    requires { at + n ≤ length io.old }
    ensures { io.new ≡ overlay io.old at (replicate n v) }
{
    // By index: std's `fill` stores the last byte apart from the others, some instructions more.
    for i in 0..n {
        io[at + i] = v;
    }
}
