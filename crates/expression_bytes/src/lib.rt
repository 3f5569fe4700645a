// Leaves on the bytes of an expression: what stands at a place, and how far it goes. They ask of their caller at most that the place is in the text.
// Assumes nothing.
#![tactic(auto)]

ghost use Rattle.std.specs.Prelude.{◌≡◌, ◌+◌, ◌≤◌, eqb, length, drop};
ghost use Rattle.rules.specs.Bytes.{lead};
ghost use Rattle.expression.specs.Reading.{id_byte};
ghost use Rattle.expression_bytes.specs.Front.{head_is, spelt};

use slices::lead::{byte_run, lead_by, rest};

// The byte b stands at `at`.
pub fn stands(text: &[u8], at: usize, b: u8) -> bool
    ensures { result ≡ head_is b (drop at text.now) }
{
    at < text.len() && text[at] == b
}

#[tactic(auto, unfolding(expression::specs::Reading::id_byte, rules::specs::Bytes::within))]
fn id_byte(b: u8) -> bool
    ensures { result ≡ id_byte b }
{
    // One test after the other, letters first: in one pattern it takes longer.
    if b'A' <= b && b <= b'Z' {
        return true;
    }
    if b'a' <= b && b <= b'z' {
        return true;
    }
    if b'0' <= b && b <= b'9' {
        return true;
    }
    if b == b'-' {
        return true;
    }
    b == b'.'
}

// How many bytes of an identifier stand at `at`.
pub fn ids(text: &[u8], at: usize) -> usize
    ensures { result ≡ lead id_byte (drop at text.now) }
{
    lead_by(text, at, |b| id_byte(b))
}

// The place behind the blanks at `at`.
pub fn blanks(text: &[u8], at: usize) -> usize
    requires { at ≤ length text.now }
    ensures { result ≡ at + lead (eqb 32) (drop at text.now) }
{
    at + byte_run(text, at, 32)
}

// How many bytes of a word stand at `at`.
pub fn letters(text: &[u8], at: usize, word: &[u8]) -> usize
    requires { at ≤ length text.now }
    ensures { result ≡ spelt word.now (drop at text.now) }
{
    // An index walk: as a chain of iterators it takes longer.
    let left = rest(text, at);
    for n in 0..word.len() {
        if !stands(left, n, word[n]) {
            return n;
        }
    }
    word.len()
}
