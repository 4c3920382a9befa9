// Bytes and numbers put into a buffer. The buffer and the place in it stay two values, since `Put`, by which the theorem of crate `text` is
// proved, speaks of both.
#![tactic(auto)]

ghost use Rattle.std.specs.Prelude.{[], ◌++◌, ◌≡◌, ◌+◌, ◌*◌, ◌%◌, ◌≤◌, ◌<◌, length};
ghost use Rattle.defs.specs.Computing.Text.{digits, decimal, long_decimal, spaced};
ghost use Rattle.words.specs.Put.{Put};
ghost use Rattle.print.specs.Spelled.{Spelled};

use defs::Refusal;

// The bytes of a number of 16 bits, at most.
const DIGITS: usize = 5;

// The bytes of a number of 32 bits, at most.
const LONG_DIGITS: usize = 10;

// The bytes of a line `job refused` or `strip`, or of a message about a text, at most.
pub const MESSAGE_ROOM: usize = 128;

// The bytes, from place `at` of the output. Answers the place after them.
pub fn put(out: &mut [u8], at: usize, bytes: &[u8]) -> usize
    requires { at + length bytes.now ≤ length out.old }
    ensures { Put out.old out.new at bytes.now result }
{
    let end = at + bytes.len();
    out[at..end].copy_from_slice(bytes);
    end
}

// The last digit.
pub fn digit(n: u32) -> u8
    ensures { result ≡ 48 + n % 10 }
{
    b'0' + (n % 10) as u8
}

// The last digits of n, as many as there are bytes, without leading zeros, at the end of the bytes. Answers where they begin.
fn spell(n: u32, text: &mut [u8]) -> usize
    ensures { Spelled (length text.old) n text.new result }
{
    let mut rest = n;
    for i in (0..text.len()).rev() {
        text[i] = digit(rest);
        if rest < 10 {
            return i;
        }
        rest /= 10;
    }
    0
}

// The last K digits of n, without leading zeros.
fn put_digits<const K: usize>(out: &mut [u8], at: usize, n: u32) -> usize
    requires { at + K ≤ length out.old }
    ensures { Put out.old out.new at (digits K n []) result }
{
    let mut bytes = [0u8; K];
    let text = &mut bytes[..];
    let from = spell(n, text);
    put(out, at, &text[from..])
}

#[tactic(auto, unfolding(defs::specs::Computing::Text::decimal))]
pub fn put_decimal(out: &mut [u8], at: usize, n: u16) -> usize
    requires { at + 5 ≤ length out.old }
    ensures { Put out.old out.new at (decimal n) result }
{
    put_digits::<DIGITS>(out, at, u32::from(n))
}

#[tactic(auto, unfolding(defs::specs::Computing::Text::long_decimal))]
pub fn put_long(out: &mut [u8], at: usize, n: u32) -> usize
    requires { at + 10 ≤ length out.old }
    ensures { Put out.old out.new at (long_decimal n) result }
{
    put_digits::<LONG_DIGITS>(out, at, n)
}

// Each number after a space.
pub fn put_spaced(out: &mut [u8], at: usize, numbers: &[u16]) -> usize
    requires { at + 6 * length numbers.now ≤ length out.old }
    ensures { Put out.old out.new at (spaced numbers.now) result }
{
    let mut to = at;
    for n in numbers {
        out[to] = b' ';
        to = put_decimal(out, to + 1, *n);
    }
    to
}

// A word, and each number after a space.
pub fn put_words(out: &mut [u8], at: usize, word: &[u8], numbers: &[u16]) -> usize
    requires { at + length word.now + 6 * length numbers.now ≤ length out.old }
    ensures bytes { Put out.old out.new at (word.now ++ spaced numbers.now) result }
    ensures room { result ≤ at + length word.now + 6 * length numbers.now }
{
    let a = put(out, at, word);
    put_spaced(out, a, numbers)
}

pub fn end_line(out: &mut [u8], at: usize) -> usize
    requires { at < length out.old }
    ensures { result ≤ at + 1 }
{
    out[at] = b'\n';
    at + 1
}

// `job refused`, the number and the ordinal.
pub fn put_refusal(out: &mut [u8], r: Refusal) -> usize
    requires { 128 ≤ length out.old }
    ensures { result ≤ 23 }
{
    put_words(out, 0, b"job refused", &[r.number, r.ordinal])
}
