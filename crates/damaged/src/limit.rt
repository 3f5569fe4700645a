// Books of 1,024 and of 1,025 stored texts: one licence, its original and its alternates, each with an empty table. The first is the most
// that a book may hold, the second one more. What must be written of them is computed from the definitions (proofs/LimitCases.antt).
// Assumes nothing.
ghost use Rattle.std.specs.Prelude.{◌+◌, ◌≤◌, length};

use detection_check::check_book;
use questions::hex::put_byte;
use questions::numbers::put_number;

// Room for a name of one byte and 1,025 empty tables, with their heads.
fn book_area() -> [u8; 14357] {
    [0; 14357]
}

// An empty table of this kind, into zeroes: its length is 8.
fn put_empty(book: &mut [u8], at: usize, kind: u8)
    requires { at + 14 ≤ length book.old }
{
    book[at] = 8;
    book[at + 4] = kind;
}

// An answer as two numbers: the refusal, and how many texts.
fn tell(refusal: u32, texts: u32) {
    let mut line = [0; 24];
    let a = put_number(refusal, &mut line, 0);
    let b = put_byte(32, &mut line, a);
    let e = put_number(texts, &mut line, b);
    let n = put_byte(10, &mut line, e);
    io::write_all(crate::STDOUT, &line[..n]);
}

// The book of so many texts, and its answer.
fn texts_of_one_licence(texts: usize)
    requires { texts ≤ 1025 }
{
    let mut book = book_area();
    book[0] = 1;
    book[4] = 1;
    book[6] = b'A';
    put_empty(&mut book, 7, 2);
    for i in 1..texts {
        put_empty(&mut book, 7 + 14 * i, 3);
    }
    let n = 7 + 14 * texts;
    match check_book(&book[..n]) {
        Ok(texts) => tell(0, texts),
        Err(refusal) => tell(u32::from(refusal), 0),
    }
}

pub fn limit_of_texts() {
    texts_of_one_licence(1024);
    texts_of_one_licence(1025);
}
