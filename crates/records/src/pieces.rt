// The piece at a place of a byte string: a head, which holds the length of the body that follows it. A book's record and a table's
// entry are two forms of it. Every place is answered, also one past the end. Assumes nothing.
ghost use Rattle.std.specs.Prelude.{◌≡◌, ◌+◌, ◌<◌, ◌≤◌, ◌^◌, drop};
ghost use Rattle.rules.specs.Book.{front, record_at, entry_form, next_place};
ghost use Rattle.rules.specs.declared.Refusal.TheVariants.{BookUnsound};
ghost use Rattle.records.specs.Places.{form_of, framed, at_of, entry_framed};

use crate::numbers::{read_u16, read_u32};
use rules::Refusal;

// A whole piece: its body's start and length.
#[derive(Clone, Copy)]
pub struct Piece {
    pub start: usize,
    pub len: usize,
}

// A record: its kind, its body's start and length.
#[derive(Clone, Copy)]
pub struct Record {
    pub kind: u16,
    pub start: usize,
    pub len: usize,
}

// A table's entry: its count, its bytes' start and length.
#[derive(Clone, Copy)]
pub struct Entry {
    pub count: u32,
    pub start: usize,
    pub len: usize,
}

// A piece breaks off: what its head says is not all there.
#[derive(Clone, Copy, Debug, PartialEq, Eq)]
pub struct Broken;

// No book holds such a piece.
impl From<Broken> for Refusal {
    ghost from_gives = { λ _ r. r ≡ BookUnsound };

    fn from(_broken: Broken) -> Refusal {
        Refusal::BookUnsound
    }
}

// The piece of s at `at`, or None at its end, with a head of `head` bytes and the length at `place` in it. A length is compared with what
// is left behind the head and never added to a place before that, so no sum wraps.
fn piece_at(s: &[u8], at: usize, head: usize, place: usize) -> Result<Option<Piece>, Broken>
    requires { place + 4 ≤ head }
    ensures { result ≡ framed (at + head) (front (form_of head place) (drop at s.now)) }
{
    if s.len() <= at {
        return Ok(None);
    }
    let left = s.len() - at;
    if left < head {
        return Err(Broken);
    }
    let len = read_u32(s, at + place) as usize;
    if left - head < len {
        return Err(Broken);
    }
    let start = at + head;
    Ok(Some(Piece { start, len }))
}

// `record_at` and `entry_at` are written out: made one, what differs, the head's form and the number in it, would be all its parameters.
pub fn record_at(book: &[u8], at: usize) -> Result<Option<Record>, Broken>
    ensures { at_of result ≡ record_at book.now at }
{
    let Some(piece) = piece_at(book, at, 6, 0)? else {
        return Ok(None);
    };
    Ok(Some(Record {
        kind: read_u16(book, at + 4),
        start: piece.start,
        len: piece.len,
    }))
}

pub fn entry_at(body: &[u8], at: usize) -> Result<Option<Entry>, Broken>
    ensures { result ≡ entry_framed at (front entry_form (drop at body.now)) }
{
    let Some(piece) = piece_at(body, at, 8, 4)? else {
        return Ok(None);
    };
    Ok(Some(Entry {
        count: read_u32(body, at),
        start: piece.start,
        len: piece.len,
    }))
}

// The place after what a reader found: the next record's, or the same place where there is none.
#[tactic(auto, unfolding(rules::specs::Book::next_place))]
pub fn next_place(found: Result<Option<Record>, Broken>, at: usize) -> usize
    requires { next_place at (at_of found) < 2 ^ 64 }
    ensures { result ≡ next_place at (at_of found) }
{
    match found {
        Ok(Some(record)) => record.start + record.len,
        Ok(None) => at,
        Err(Broken) => at,
    }
}
