// The stored texts of a sound book, in book order and by number: where each stands, under which name, of which kind.
// From detection.rs of spdx 0.13.6 (Copyright 2018 Amazon.com, Inc. or its affiliates. All Rights Reserved.
// SPDX-License-Identifier: Apache-2.0), changed: the store is a book of records. Assumes nothing.
ghost use Rattle.std.specs.Prelude.{◌≡◌, true, ◌+◌, ◌<◌, ◌^◌, length};
ghost use Rattle.rules.specs.Sizes.{stored_most};
ghost use Rattle.rules.specs.Book.{stored, sound, record_at};
ghost use Rattle.rules.specs.Book.At.{whole};
ghost use Rattle.detection_texts.specs.Texts.{Before, Found, first_place, after_text, passed_by};

use detection_check::{NAME_KIND, stored_kind};
use records::pieces::{Broken, Record};
use records::reader::Reader;
use rules::Kind;

// Before stored text `number`: the next record's place, and the name that it stands under, book[name..past].
#[derive(Clone, Copy)]
pub struct Place {
    pub number: u32,
    pub at: usize,
    pub name: usize,
    pub past: usize,
}

// A stored text: its number and its kind, its name book[name..past] and its table book[body..end].
#[derive(Clone, Copy)]
pub struct Text {
    pub number: u32,
    pub kind: Kind,
    pub name: usize,
    pub past: usize,
    pub body: usize,
    pub end: usize,
}

pub fn first_place() -> Place
    ensures { result ≡ first_place }
{
    Place {
        number: 0,
        at: 0,
        name: 0,
        past: 0,
    }
}

// Before the text after t.
pub fn after_text(t: Text) -> Place
    requires { t.number < stored_most }
    ensures { result ≡ after_text t }
{
    Place {
        number: t.number + 1,
        at: t.end,
        name: t.name,
        past: t.past,
    }
}

// Past a record that is no stored text: a name is the name of those that follow.
#[tactic(auto, unfolding(crate::specs::Texts::passed_by))]
fn passed(p: Place, found: Record) -> Place
    requires { found.start + found.len < 2 ^ 64 }
    ensures { result ≡ passed_by p found.kind found.start (found.start + found.len) }
{
    let end = found.start + found.len;
    if found.kind == NAME_KIND {
        return Place {
            number: p.number,
            at: end,
            name: found.start,
            past: end,
        };
    }
    Place { at: end, ..p }
}

// The record at the reader's place. A text of the book is still to come, so the records neither end there nor break off.
fn record_ahead(reader: Reader, place: Place) -> Record
    requires at { reader.at ≡ place.at }
    requires ahead { Before reader.book.now place × (place.number < length (stored reader.book.now)) }
    ensures { record_at reader.entry.book.now place.at ≡ whole result.kind result.start result.len }
{
    match reader.next() {
        Ok(Some(found)) => found,
        Ok(None) => unreachable!(),
        Err(Broken) => unreachable!(),
    }
}

// The stored text after a place: a reader goes from record to record until it stands at one. The walk reads what it passes once, and goes
// on at `after_text` of what it found.
pub fn next_text(book: &[u8], place: Place) -> Text
    requires { Before book.now place × (place.number < length (stored book.now)) }
    ensures { Found book.now place.number result }
{
    let mut here = place;
    let mut reader = Reader::new(book, here.at);
    loop {
        let found = record_ahead(reader, here);
        if let Some(kind) = stored_kind(found.kind) {
            return Text {
                number: here.number,
                kind,
                name: here.name,
                past: here.past,
                body: found.start,
                end: found.start + found.len,
            };
        }
        here = passed(here, found);
        reader = reader.moved(here.at);
    }
}

// Stored text k. One walk from the book's start.
pub fn stored_at(book: &[u8], k: u32) -> Text
    requires { (sound book.now ≡ true) × (k < length (stored book.now)) }
    ensures { Found book.now k result }
{
    let mut text = next_text(book, first_place());
    for _ in 0..k {
        text = next_text(book, after_text(text));
    }
    text
}
