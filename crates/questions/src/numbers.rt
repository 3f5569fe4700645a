// The numbers of a question and of an answer: decimal ones of 64 bits, and the 32 bits of a float in hex. Each is one walk.
// Assumes nothing.
ghost use Rattle.std.specs.Prelude.{◌≡◌, ◌++◌, ◌+◌, ◌<◌, ◌≤◌, length, take};
ghost use Rattle.lists.specs.Wrote.{Wrote};
ghost use Rattle.questions.specs.Hex.{hex_pairs};
ghost use Rattle.questions.specs.Numbers.{digit_value, more_digits, more_bits, read_digits, four_bytes, decimal};

use crate::hex::{hex_value, put_byte, put_pairs};

// What a digit is worth; any other byte is worth nothing.
#[tactic(auto, unfolding(crate::specs::Numbers::digit_value))]
fn digit_value(b: u8) -> u64
    ensures { (result ≡ digit_value b) × (result < 10) }
{
    match b {
        b'0'..=b'9' => u64::from(b - b'0'),
        _ => 0,
    }
}

// One digit more; a number that does not fit is the greatest.
#[tactic(auto, unfolding(crate::specs::Numbers::more_digits))]
fn more_digits(v: u64, b: u8) -> u64
    ensures { result ≡ more_digits v b }
{
    v.saturating_mul(10).saturating_add(digit_value(b))
}

// The number that a word is, or the greatest where that is greater.
pub fn number_of(s: &[u8]) -> u64
    ensures { result ≡ read_digits more_digits 0 s.now }
{
    let mut v = 0;
    for b in s {
        v = more_digits(v, *b);
    }
    v
}

// One hex digit more; of more than eight the last eight count.
#[tactic(auto, unfolding(crate::specs::Numbers::more_bits))]
fn more_bits(v: u32, b: u8) -> u32
    ensures { result ≡ more_bits v b }
{
    16 * (v % 268435456) + u32::from(hex_value(b))
}

// The number that a word of hex is.
pub fn bits_of(s: &[u8]) -> u32
    ensures { result ≡ read_digits more_bits 0 s.now }
{
    let mut v = 0;
    for b in s {
        v = more_bits(v, *b);
    }
    v
}

// The eight digits of a number, written from a place on; answers where they end.
pub fn put_bits(x: u32, dst: &mut [u8], to: usize) -> usize
    requires { to + 8 ≤ length dst.old }
    ensures { Wrote (take to dst.old ++ hex_pairs (four_bytes x)) dst.old result dst.new }
{
    let b = [
        (x / 16777216) as u8,
        (x / 65536 % 256) as u8,
        (x / 256 % 256) as u8,
        (x % 256) as u8,
    ];
    put_pairs(&b, dst, to)
}

// A number in decimal, written from a place on; answers where it ends. It calls itself once for each digit.
pub fn put_number(x: u32, dst: &mut [u8], to: usize) -> usize
    requires { to + length (decimal x) ≤ length dst.old }
    ensures { Wrote (take to dst.old ++ decimal x) dst.old result dst.new }
{
    if x < 10 {
        return put_byte(48 + x as u8, dst, to);
    }
    let at = put_number(x / 10, dst, to);
    put_byte(48 + (x % 10) as u8, dst, at)
}
