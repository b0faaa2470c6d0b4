// These functions read and write the fields of the public standards' tables: bytes and numbers in byte slices, in both orders of their
// bytes, and bits of one byte.
#![tactic(auto)]

ghost use Rattle.std.specs.Prelude.{◌≡◌, ◌+◌, ◌≤◌, ◌<◌, length};
ghost use Rattle.fields.specs.Field.{little_endian, big_endian, one_byte, bytes_at, get, put, bits, get_bits, put_bits};
ghost use Rattle.fields.specs.Overlay.{overlay};

// Reads the byte of `m` at index `at`.
pub fn byte(m: &[u8], at: usize) -> u8
    requires { at < length m.now }
    ensures { result ≡ get (one_byte at) m.now }
{
    m[at]
}

// Copies the `N` bytes of `m` from index `at` on.
pub fn bytes_at<const N: usize>(m: &[u8], at: usize) -> [u8; N]
    requires { at + N ≤ length m.now }
    ensures { result ≡ bytes_at (little_endian at N) m.now }
{
    let mut bytes = [0; N];
    // By index: std's conversions hand on pointers, which tools/pointers.awk refuses; with `array::from_fn` the proof didn't close.
    for i in 0..N {
        bytes[i] = m[at + i];
    }
    bytes
}

// Each width and order has a function: a trait for the widths would have an impl for each, and would be no plainer.

// Reads the number in the 2 bytes of `m` from index `at` on, the least significant byte first.
pub fn le16(m: &[u8], at: usize) -> u16
    requires { at + 2 ≤ length m.now }
    ensures { result ≡ get (little_endian at 2) m.now }
{
    u16::from_le_bytes(bytes_at(m, at))
}

// Reads the number in the 4 bytes of `m` from index `at` on, the least significant byte first.
pub fn le32(m: &[u8], at: usize) -> u32
    requires { at + 4 ≤ length m.now }
    ensures { result ≡ get (little_endian at 4) m.now }
{
    u32::from_le_bytes(bytes_at(m, at))
}

// Reads the number in the 2 bytes of `m` from index `at` on, the most significant byte first.
pub fn be16(m: &[u8], at: usize) -> u16
    requires { at + 2 ≤ length m.now }
    ensures { result ≡ get (big_endian at 2) m.now }
{
    u16::from_be_bytes(bytes_at(m, at))
}

// Reads the number in the 4 bytes of `m` from index `at` on, the most significant byte first.
pub fn be32(m: &[u8], at: usize) -> u32
    requires { at + 4 ≤ length m.now }
    ensures { result ≡ get (big_endian at 4) m.now }
{
    u32::from_be_bytes(bytes_at(m, at))
}

// Reads the number in the 8 bytes of `m` from index `at` on, the most significant byte first.
pub fn be64(m: &[u8], at: usize) -> u64
    requires { at + 8 ≤ length m.now }
    ensures { result ≡ get (big_endian at 8) m.now }
{
    u64::from_be_bytes(bytes_at(m, at))
}

// Writes `n` to the byte of `m` at index `at`.
pub fn put_byte(m: &mut [u8], at: usize, n: u8)
    requires { at < length m.old }
    ensures { m.new ≡ put (one_byte at) n m.old }
{
    m[at] = n;
}

// Writes `bytes` to the `N` bytes of `m` from index `at` on.
pub fn put_bytes<const N: usize>(m: &mut [u8], at: usize, bytes: [u8; N])
    requires { at + N ≤ length m.old }
    ensures { m.new ≡ overlay m.old at bytes.entry }
{
    // By index: `copy_from_slice` looks at the pointers' distance, which tools/pointers.awk refuses.
    for i in 0..N {
        m[at + i] = bytes[i];
    }
}

// Writes `n` to the 4 bytes of `m` from index `at` on, the least significant byte first.
pub fn put_le32(m: &mut [u8], at: usize, n: u32)
    requires { at + 4 ≤ length m.old }
    ensures { m.new ≡ put (little_endian at 4) n m.old }
{
    put_bytes(m, at, n.to_le_bytes());
}

// Reads `width` bits of the byte of `m` at index `at`, from the bit `low` upwards.
pub fn bits_of(m: &[u8], at: usize, low: u8, width: u8) -> u8
    requires { (at < length m.now) × (low < 8) × (width < 8) }
    ensures { result ≡ get_bits (bits at low width) m.now }
{
    (m[at] >> low) % (1u8 << width)
}

// Writes `n` to `width` bits of the byte of `m` at index `at`, from the bit `low` upwards. Of `n` as many low bits count as the field has,
// and the other bits of the byte stay.
pub fn put_bits(m: &mut [u8], at: usize, low: u8, width: u8, n: u8)
    requires { (at < length m.old) × (low < 8) × (width < 8) × (low + width ≤ 8) }
    ensures { m.new ≡ put_bits (bits at low width) n m.old }
{
    let b = m[at];
    let above = ((b >> low) >> width) << width;
    let within = n % (1u8 << width);
    let below = b % (1u8 << low);
    m[at] = ((above + within) << low) + below;
}
