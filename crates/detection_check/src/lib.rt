// The job `check`: one walk over the book, record by record, which keeps the kind before, the name above and the number of texts.
// From detection.rs of spdx 0.13.6 (Copyright 2018 Amazon.com, Inc. or its affiliates. All Rights Reserved.
// SPDX-License-Identifier: Apache-2.0), changed: the store is a book of records. Assumes nothing.
#![tactic(auto)]

ghost use Rattle.std.specs.Prelude.{◌≡◌, not, cond, ◌+◌, ◌≤◌, ◌<◌, eqb, length, take, drop, is_some, IfSome};
ghost use Rattle.rules.specs.Sizes.{stored_most};
ghost use Rattle.rules.specs.Book.{stored_kind as is_stored, follows as may_follow, sound_body};
ghost use Rattle.rules.specs.Jobs.{CheckDone};
ghost use Rattle.rules.specs.Told.{kind_number, checked_told};
ghost use Rattle.detection_check.specs.Walks.{refused, found, Within, record_sound, verdict_before, Stepped};

use detection_bodies::{name_sound, table_sound};
use detection_edition::{EDITION_KIND, edition_of, edition_sound};
use records::pieces::Record;
use records::reader::read;
use rules::{BOOK_MOST, EDITION_WIDE, Kind, Refusal, STORED_MOST};
use slices_order::above;

// The kind of a record that names a licence.
pub const NAME_KIND: u16 = 1;

// Before the record at `at`: the kind of the record before (0 at the start; a number, see `follows`), the name that it stands under,
// book[name..past], how many stored texts came before, and whether words may be UTF-8.
#[derive(Clone, Copy)]
pub struct Walk {
    pub at: usize,
    pub kind: u16,
    pub name: usize,
    pub past: usize,
    pub texts: u32,
    pub wide: bool,
}

// Original, alternate and header.
#[tactic(auto, using(crate::proofs::KindLaws::other_kind), unfolding(rules::specs::Book::stored_kind, rules::specs::Bytes::within))]
pub fn stored_kind(kind: u16) -> Option<Kind>
    ensures stored { is_some result ≡ is_stored kind }
    ensures number { IfSome result (λ k. kind_number k ≡ kind) }
{
    match kind {
        2 => Some(Kind::Original),
        3 => Some(Kind::Alternate),
        4 => Some(Kind::Header),
        _ => None,
    }
}

// Kind b may stand after kind a. Kinds are numbers here: a book may hold any, and the order goes by ranges of them.
#[tactic(auto, unfolding(rules::specs::Book::follows, rules::specs::Bytes::within))]
fn follows(a: u16, b: u16) -> bool
    ensures { result ≡ may_follow a b }
{
    match b {
        EDITION_KIND => a == 0,
        NAME_KIND => a != NAME_KIND,
        2 => a == NAME_KIND,
        3..=5 => 2 <= a && a <= b,
        _ => false,
    }
}

#[tactic(auto, using(crate::proofs::KindLaws::other_kind), unfolding(rules::specs::Book::sound_body, rules::specs::Book::stored_kind, rules::specs::Bytes::within))]
fn body_sound(wide: bool, kind: u16, body: &[u8]) -> bool
    ensures { result ≡ sound_body wide (record { kind = kind; body = body.now }) }
{
    match kind {
        2..=4 => table_sound(wide, body),
        EDITION_KIND => edition_sound(body),
        _ => name_sound(body),
    }
}

// A record after one of kind `before`, under `name`.
#[tactic(auto, unfolding(crate::specs::Walks::record_sound))]
fn record_sound(wide: bool, before: u16, name: &[u8], kind: u16, body: &[u8]) -> bool
    ensures { result ≡ record_sound wide before name.now (record { kind = kind; body = body.now }) }
{
    follows(before, kind)
        && body_sound(wide, kind, body)
        && (kind != NAME_KIND || above(name, body))
}

fn texts_after(texts: u32, kind: u16) -> u32
    requires { texts ≤ stored_most }
    ensures { result ≡ cond (is_stored kind) (texts + 1) texts }
{
    if stored_kind(kind).is_some() {
        texts + 1
    } else {
        texts
    }
}

impl Walk {
    // Past the record at the walk's place.
    fn past(self, book: &[u8], next: Record) -> Result<Walk, Refusal>
        requires { Within book.now self × (self.at < next.start + next.len) × (next.start + next.len ≤ length book.now) }
        ensures { Stepped book.now self (verdict_before book.now self (record { kind = next.kind; body = take next.len (drop next.start book.now) }) (next.start + next.len)) result }
    {
        let start = next.start;
        let end = start + next.len;
        let kind = next.kind;
        if !record_sound(
            self.wide,
            self.kind,
            &book[self.name..self.past],
            kind,
            &book[start..end],
        ) {
            return Err(Refusal::BookUnsound);
        }
        let texts = texts_after(self.texts, kind);
        if STORED_MOST < texts {
            return Err(Refusal::BookUnsound);
        }
        let on = Walk {
            at: end,
            kind,
            texts,
            ..self
        };
        if kind == NAME_KIND {
            return Ok(Walk {
                name: start,
                past: end,
                ..on
            });
        }
        Ok(on)
    }

    // At the end of the book: every licence has its original.
    fn finished(self) -> Result<u32, Refusal>
        ensures { checked_told result ≡ cond (not (eqb self.kind 1)) (found self.texts) refused }
    {
        if self.kind == NAME_KIND {
            return Err(Refusal::BookUnsound);
        }
        Ok(self.texts)
    }
}

// Refusal 4, or the number of stored texts, for any bytes at all. Linear in the book.
pub fn check_book(book: &[u8]) -> Result<u32, Refusal>
    ensures { CheckDone book.now (checked_told result) }
{
    if BOOK_MOST < book.len() {
        return Err(Refusal::BookUnsound);
    }
    let mut walk = Walk {
        at: 0,
        kind: 0,
        name: 0,
        past: 0,
        texts: 0,
        wide: edition_of(book) == EDITION_WIDE,
    };
    while let Some(next) = read(book, walk.at)? {
        walk = walk.past(book, next)?;
    }
    walk.finished()
}
