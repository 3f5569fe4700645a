// Where the next mark stands, and the words of a line. Each is one walk. Assumes nothing.
ghost use Rattle.std.specs.Prelude.{◌≤◌, length};
ghost use Rattle.questions.specs.Words.{Marked, WordAt};

use slices::ends::ByteSpan;
use slices::lead::lead_by;

// Where the next byte b stands from a place on, or the end: with b 10 the end of a line, with b 32 the end of a word.
pub fn mark_at(s: &[u8], at: usize, b: u8) -> usize
    requires { at ≤ length s.now }
    ensures { Marked b s.now at result }
{
    at + lead_by(s, at, |x| x != b)
}

// Word k of a line, from 0 on; an empty one where there are not so many.
pub fn word_at(s: &[u8], k: usize) -> ByteSpan
    ensures { WordAt k s.now result }
{
    let mut at = 0;
    for _ in 0..k {
        let end = mark_at(s, at, b' ');
        if s.len() <= end {
            return ByteSpan { start: end, end };
        }
        at = end + 1;
    }
    let end = mark_at(s, at, b' ');
    ByteSpan { start: at, end }
}
