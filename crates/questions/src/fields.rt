// The words of a question as what they stand for: texts and numbers. Assumes nothing.
ghost use Rattle.std.specs.Prelude.{◌≡◌, ◌+◌, ◌-◌, ◌≤◌, min, length};
ghost use Rattle.rules.specs.Sizes.{text_most};
ghost use Rattle.lists.specs.Wrote.{InFront};
ghost use Rattle.questions.specs.Fields.{text_of, number_of};

use crate::hex::unhex;
use crate::numbers::number_of;
use crate::words::word_at;

// Where what is read of a word ends: behind so many bytes, or with the word.
fn read_end(start: usize, end: usize, most: usize) -> usize
    requires { start ≤ end }
    ensures { result ≡ start + min (end - start) most }
{
    if most < end - start {
        start + most
    } else {
        end
    }
}

// The text that word k stands for, or as much of it as there is room for; answers its length.
pub fn text_at(line: &[u8], k: usize, text: &mut [u8]) -> usize
    requires { length text.old ≤ text_most }
    ensures { InFront (text_of (length text.old) k line.now) result text.new }
{
    let w = word_at(line, k);
    let a = w.start;
    let e = read_end(a, w.end, 2 * text.len());
    unhex(&line[a..e], text)
}

// The number that word k is.
pub fn number_at(line: &[u8], k: usize) -> u64
    ensures { result ≡ number_of k line.now }
{
    let w = word_at(line, k);
    let a = w.start;
    let e = w.end;
    number_of(&line[a..e])
}
