// Two lent books read as one row of stored texts: those of the first, then those of the second, which count on. Either may be empty.
// From detection.rs of spdx 0.13.6 (Copyright 2018 Amazon.com, Inc. or its affiliates. All Rights Reserved.
// SPDX-License-Identifier: Apache-2.0), changed: the store is two books of records. Assumes nothing.
#![tactic(auto)]

ghost use Rattle.std.specs.Prelude.{◌≡◌, ◌+◌, ◌*◌, ◌<◌};
ghost use Rattle.rules.specs.Sizes.{stored_most};
ghost use Rattle.detection_shelf.specs.Shelves.{shelf, CountsOf, BeforeOn, Stands, body_in, first_spot, after_on};

use detection_part::cut;
use detection_texts::texts::{Place, Text, after_text, first_place, next_text, stored_at};

// How many texts the first book stores, and how many both do.
#[derive(Clone, Copy)]
pub struct Counts {
    pub first: u32,
    pub all: u32,
}

// A stored text: of which book (a bool, as `Named` tells it to C), its number over both, and what it is in its book, by its number there.
#[derive(Clone, Copy)]
pub struct Shelved {
    pub second: bool,
    pub number: u32,
    pub text: Text,
}

// Before stored text `number`: in which book, and where.
#[derive(Clone, Copy)]
pub struct Spot {
    pub second: bool,
    pub number: u32,
    pub place: Place,
}

pub fn first_spot() -> Spot
    ensures { result ≡ first_spot }
{
    Spot {
        second: false,
        number: 0,
        place: first_place(),
    }
}

// Before the text after t.
pub fn after_on(t: Shelved) -> Spot
    requires { (t.text.number < stored_most) × (t.number < 2 * stored_most) }
    ensures { result ≡ after_on t }
{
    Spot {
        second: t.second,
        number: t.number + 1,
        place: after_text(t.text),
    }
}

// The stored text after a spot: past the last of the first book, the first of the second.
pub fn next_on(first: &[u8], second: &[u8], counts: Counts, spot: Spot) -> Shelved
    requires counts_of { CountsOf (shelf first.now second.now) counts }
    requires before_on { BeforeOn (shelf first.now second.now) spot × (spot.number < counts.all) }
    ensures { Stands (shelf first.now second.now) result × (result.number ≡ spot.number) }
{
    let place = spot.place;
    let number = spot.number;
    if spot.second {
        let text = next_text(second, place);
        return Shelved {
            second: true,
            number,
            text,
        };
    }
    if place.number < counts.first {
        let text = next_text(first, place);
        return Shelved {
            second: false,
            number,
            text,
        };
    }
    let text = next_text(second, first_place());
    Shelved {
        second: true,
        number,
        text,
    }
}

// Stored text k, of the first book or, lowered by its texts, of the second.
pub fn stored_on(first: &[u8], second: &[u8], counts: Counts, k: u32) -> Shelved
    requires counts_of { CountsOf (shelf first.now second.now) counts }
    requires k_lt_all { k < counts.all }
    ensures { Stands (shelf first.now second.now) result × (result.number ≡ k) }
{
    if k < counts.first {
        let text = stored_at(first, k);
        return Shelved {
            second: false,
            number: k,
            text,
        };
    }
    let text = stored_at(second, k - counts.first);
    Shelved {
        second: true,
        number: k,
        text,
    }
}

// The body of a stored text's table, in its book.
pub fn body_of<'a>(first: &'a [u8], second: &'a [u8], t: Shelved) -> &'a [u8]
    requires { Stands (shelf first.now second.now) t }
    ensures { result.now ≡ body_in (shelf first.now second.now) t }
{
    let text = t.text;
    let start = text.body;
    let end = text.end;
    if t.second {
        cut(second, start, end - start)
    } else {
        cut(first, start, end - start)
    }
}
