// A reader that is lent a book's bytes, holds its place and yields the record there. Its methods are thin and leave the work to
// `record_at`. detection_texts moves one from record to record; `read`, whose parameters are plain, is for who looks at one place.
// Assumes nothing.
ghost use Rattle.std.specs.Prelude.{◌≡◌};
ghost use Rattle.rules.specs.Book.{record_at};
ghost use Rattle.records.specs.Places.{at_of};

use crate::pieces::{Broken, Record, record_at};

#[derive(Clone, Copy)]
pub struct Reader<'a> {
    pub book: &'a [u8],
    pub at: usize,
}

impl<'a> Reader<'a> {
    pub fn new(book: &'a [u8], at: usize) -> Reader<'a>
        ensures { (result.book ≡ book.entry) × (result.at ≡ at) }
    {
        Reader { book, at }
    }

    // The record at the reader's place.
    pub fn next(self) -> Result<Option<Record>, Broken>
        ensures { at_of result ≡ record_at self.entry.book.now self.entry.at }
    {
        record_at(self.book, self.at)
    }

    // The same reader at another place: at `next_place` of what it found, it goes on to the record after that.
    pub fn moved(self, at: usize) -> Reader<'a>
        ensures { (result.book ≡ self.entry.book) × (result.at ≡ at) }
    {
        Reader {
            book: self.book,
            at,
        }
    }
}

// The record that a reader finds at a place of a book.
pub fn read(book: &[u8], at: usize) -> Result<Option<Record>, Broken>
    ensures { at_of result ≡ record_at book.now at }
{
    Reader::new(book, at).next()
}
