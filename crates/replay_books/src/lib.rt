// The book that the questions fill: one record more at its end, in a lent array. A record that does not fit, or a text that is refused,
// leaves the book as it was. Assumes nothing.
#![tactic(auto)]

ghost use Rattle.std.specs.Prelude.{◌≡◌, ◌++◌, ◌+◌, ◌-◌, ◌≤◌, ◌<◌, length, take};
ghost use Rattle.lists.specs.Wrote.{InFront};
ghost use Rattle.rules.specs.Book.{compiled};
ghost use Rattle.records.specs.Written.{put_at};
ghost use Rattle.questions.specs.Fields.{text_of};
ghost use Rattle.replay_books.specs.Shelf.{head_out, opening, Grown};

use compile::compile;
use detection_edition::EDITION_KIND;
use questions::fields::text_at;
use records::numbers::{write_u16, write_u32};
use rules::EDITION_FIRST;

// The head of a record of this kind, whose body has so many bytes.
fn put_head(book: &mut [u8], at: usize, len: usize, kind: u16)
    requires { (at + 6 ≤ length book.old) × (len < 4294967296) }
    ensures { book.new ≡ put_at at (head_out len kind) book.old }
{
    write_u32(book, at, len as u32);
    write_u16(book, at + 4, kind);
}

// The name that word k of a question stands for; answers where its record ends.
pub fn put_name(line: &[u8], k: usize, book: &mut [u8], at: usize) -> usize
    requires { (at ≤ length book.old) × (length book.old ≤ 65536) }
    ensures within { (at ≤ result) × (result ≤ length book.new) }
    ensures book { Grown at 1 (text_of (length book.old - (at + 6)) k line.now) book.old result book.new }
{
    if book.len() - at < 6 {
        return at;
    }
    let body = at + 6;
    let len = text_at(line, k, &mut book[body..]);
    put_head(book, at, len, 1);
    body + len
}

// What a book begins with: of a later edition the record that says it; answers where that ends.
pub fn put_edition(book: &mut [u8], at: usize, edition: u32) -> usize
    requires { (at ≤ length book.old) × (length book.old ≤ 65536) }
    ensures within { (at ≤ result) × (result ≤ length book.new) }
    ensures book { InFront (take at book.old ++ opening edition (length book.old - at)) result book.new }
{
    if edition == EDITION_FIRST {
        return at;
    }
    if book.len() - at < 8 {
        return at;
    }
    let body = at + 6;
    put_head(book, at, 2, EDITION_KIND);
    write_u16(book, body, (edition % 65536) as u16);
    body + 2
}

// A text's table under an edition, behind the name before it; answers where its record ends.
pub fn put_text(
    text: &[u8],
    kind: u16,
    book: &mut [u8],
    at: usize,
    area: &mut [u8],
    words: &mut [u32],
    edition: u32,
) -> usize
    requires { (at ≤ length book.old) × (length book.old ≤ 65536) }
    ensures within { (at ≤ result) × (result ≤ length book.new) }
    ensures book { Grown at kind (compiled edition text.now) book.old result book.new }
{
    if book.len() - at < 6 {
        return at;
    }
    let body = at + 6;
    let Ok(len) = compile(text, edition, area, words, &mut book[body..]) else {
        return at;
    };
    if book.len() - body < len {
        return at;
    }
    put_head(book, at, len, kind);
    body + len
}
