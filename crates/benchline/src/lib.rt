// A line of `bench` as text: decimal numbers, stalls and bytes in lower-case hex, with a space between two fields. Every function that
// puts text into the buffer `text` returns the index at which the text ends. A struct of buffer and index is no plainer: each method would
// promise besides that the struct still holds the same buffer. There is no `String`, since `put_line` cannot fail and an allocation can.
#![tactic(auto)]

ghost use Rattle.std.specs.Prelude.{◌≡◌, ◌+◌, ◌≤◌, ◌<◌, length};
ghost use Rattle.benchline.specs.Line.{digit, decimal, number_text, numbers_text, stalls_text, fields_text, hex, bytes_text, end_text, line_of};
ghost use Rattle.benchline.specs.Inner.Line.{numbers_length, room_for, Puts};

use answers::Stalls;

// Everything that a line tells apart from its bytes.
#[derive(Clone, Copy)]
pub struct Line {
    pub index: usize,
    pub answer: u8,
    pub state: u8,
    pub left: u32,
    pub unread: usize,
    pub count: usize,
    pub stalls: Stalls,
    pub missing: usize,
}

// Puts `n` in decimal at the index `at`.
fn put_decimal(text: &mut [u8], at: usize, n: u64) -> usize
    requires { at + length (decimal n) ≤ length text.old }
    ensures { Puts at (decimal n) text.old text.new result }
{
    if n < 10 {
        text[at] = b'0' + n as u8;
        return at + 1;
    }
    let end = put_decimal(text, at, n / 10);
    text[end] = b'0' + (n % 10) as u8;
    end + 1
}

// Puts `n` in decimal at the index `at`, and a space after it.
fn put_number(text: &mut [u8], at: usize, n: u64) -> usize
    requires { at + length (number_text n) ≤ length text.old }
    ensures { Puts at (number_text n) text.old text.new result }
{
    let end = put_decimal(text, at, n);
    text[end] = b' ';
    end + 1
}

// Puts the numbers of the line `l` at the front.
fn put_numbers(text: &mut [u8], l: Line) -> usize
    requires { numbers_length l ≤ length text.old }
    ensures { Puts 0 (numbers_text l) text.old text.new result }
{
    let answer = put_number(text, 0, l.index as u64);
    let state = put_number(text, answer, l.answer as u64);
    let left = put_number(text, state, l.state as u64);
    let unread = put_number(text, left, l.left as u64);
    let count = put_number(text, unread, l.unread as u64);
    put_number(text, count, l.count as u64)
}

// Puts `bytes` at the index `at`, as they are.
#[tactic(auto, unfolding(fields::specs::Overlay::overlay))]
fn put_text(text: &mut [u8], at: usize, bytes: &[u8]) -> usize
    requires { at + length bytes.now ≤ length text.old }
    ensures { Puts at bytes.now text.old text.new result }
{
    let end = at + bytes.len();
    text[at..end].copy_from_slice(bytes);
    end
}

// The letters for `stalls`.
fn letters_of(stalls: Stalls) -> &'static [u8]
    ensures { result.now ≡ stalls_text stalls }
{
    match stalls {
        Stalls::Kept => b"-",
        Stalls::Stalled => b"S",
        Stalls::Unstalled => b"U",
        Stalls::UnstalledStalled => b"US",
    }
}

// Puts everything that a line has before its bytes at the front.
fn put_fields(text: &mut [u8], l: Line) -> usize
    requires { length (fields_text l) ≤ length text.old }
    ensures { Puts 0 (fields_text l) text.old text.new result }
{
    let at = put_numbers(text, l);
    let end = put_text(text, at, letters_of(l.stalls));
    text[end] = b' ';
    end + 1
}

// The digit in hex for `n`.
#[tactic(auto, using(std::proofs::lemmas::Bool::Decides::nat_tests), unfolding(crate::specs::Line::digit))]
fn digit(n: u8) -> u8
    requires { n < 16 }
    ensures { result ≡ digit n }
{
    if n < 10 { b'0' + n } else { b'a' + (n - 10) }
}

// Puts two digits for each byte of `bytes` at the index `at`.
fn put_hex(text: &mut [u8], at: usize, bytes: &[u8]) -> usize
    requires { at + length (hex bytes.now) ≤ length text.old }
    ensures { Puts at (hex bytes.now) text.old text.new result }
{
    for (i, &b) in bytes.iter().enumerate() {
        text[at + 2 * i] = digit(b / 16);
        text[at + 2 * i + 1] = digit(b % 16);
    }
    at + 2 * bytes.len()
}

// Puts `bytes` in hex at the index `at`, or `-` where there are none.
fn put_bytes(text: &mut [u8], at: usize, bytes: &[u8]) -> usize
    requires { at + length (bytes_text bytes.now) ≤ length text.old }
    ensures { Puts at (bytes_text bytes.now) text.old text.new result }
{
    if bytes.is_empty() {
        put_text(text, at, b"-")
    } else {
        put_hex(text, at, bytes)
    }
}

// Puts the end of a line at the index `at`: a space, `missing` in decimal, and the end itself.
fn put_end(text: &mut [u8], at: usize, missing: usize) -> usize
    requires { at + length (end_text missing) ≤ length text.old }
    ensures { Puts at (end_text missing) text.old text.new result }
{
    text[at] = b' ';
    let end = put_decimal(text, at + 1, missing as u64);
    text[end] = b'\n';
    end + 1
}

// Puts the whole line at the front of `text`, and returns its length.
pub fn put_line(l: Line, bytes: &[u8], text: &mut [u8]) -> usize
    requires { room_for (length bytes.now) ≤ length text.old }
    ensures { Puts 0 (line_of l bytes.now) text.old text.new result }
{
    let at = put_fields(text, l);
    let end = put_bytes(text, at, bytes);
    put_end(text, end, l.missing)
}
