// The edition that a book's bytes say: that of a whole first record of kind 6, and the first where there is none. The original has one edition
// only, so no file of it is followed here. Assumes nothing.
#![tactic(auto)]

ghost use Rattle.std.specs.Prelude.{◌≡◌};
ghost use Rattle.rules.specs.Book.{sound_edition, said_by, edition};

use records::numbers::read_u16;
use records::pieces::Broken;
use records::reader::read;
use rules::{EDITION_FIRST, EDITION_MOST};

// The kind of the record, and its body's length.
pub const EDITION_KIND: u16 = 6;

const EDITION_WIDTH: usize = 2;

// Two bytes, which say an edition above the first.
pub fn edition_sound(body: &[u8]) -> bool
    ensures { result ≡ sound_edition body.now }
{
    if body.len() != EDITION_WIDTH {
        return false;
    }
    let said = read_u16(body, 0) as u32;
    EDITION_FIRST < said && said <= EDITION_MOST
}

// What a first record says.
#[tactic(auto, using(crate::proofs::EditionLaws::edition_width), unfolding(rules::specs::Book::said_by))]
fn said_by(kind: u16, body: &[u8]) -> u32
    ensures { result ≡ said_by kind body.now }
{
    if kind == EDITION_KIND && edition_sound(body) {
        read_u16(body, 0) as u32
    } else {
        EDITION_FIRST
    }
}

// Of any bytes, sound or not.
pub fn edition_of(book: &[u8]) -> u32
    ensures { result ≡ edition book.now }
{
    match read(book, 0) {
        Ok(Some(first)) => said_by(first.kind, &book[first.start..first.start + first.len]),
        Ok(None) => EDITION_FIRST,
        Err(Broken) => EDITION_FIRST,
    }
}
