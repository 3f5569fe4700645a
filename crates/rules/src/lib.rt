// The types that the definitions in specs/ and the code share: a scan's settings, what a scoring, a search and bounds yield, and the six answers.
// From detection/scan.rs of spdx 0.13.6 (Copyright 2018 Amazon.com, Inc. or its affiliates. All Rights Reserved.
// SPDX-License-Identifier: Apache-2.0), changed. Assumes nothing.
#![tactic(auto)]

ghost use Rattle.std.specs.Prelude.{◌≤◌};
ghost use Rattle.rules.specs.Sizes.{name_most};

// The rules' numbers, as specs/Sizes.antt has them. A text: its bytes and its lines.
pub const TEXT_MOST: usize = 1048576;

pub const LINES_MOST: usize = 65536;

// A book: its bytes, its stored texts, a table's total, a name's bytes.
pub const BOOK_MOST: usize = 16777216;

pub const STORED_MOST: u32 = 1024;

pub const TOTAL_MOST: u64 = 8388608;

pub const NAME_MOST: usize = 64;

// The editions that a book and compile may have: from the first, in which line pass 4 takes the digit 4, to this one.
pub const EDITION_FIRST: u32 = 1;

pub const EDITION_MOST: u32 = 3;

// The edition that takes UTF-8 up to U+00FF; any other takes ASCII alone.
pub const EDITION_WIDE: u32 = 3;

// The work areas: bytes and words for each byte of the text, and what both have to spare.
pub const BYTES_EACH: usize = 8;

pub const WORDS_EACH: usize = 12;

pub const AREA_SPARE: usize = 64;

// A record of a scan: its numbers in the results area.
pub const RECORD_WIDTH: usize = 6;

// Why a job refuses. The number that an answer for C carries is `refusal_number`; 16 is none.
#[derive(Clone, Copy, Debug, PartialEq, Eq)]
pub enum Refusal {
    TextLong,
    TextBytes,
    LinesMany,
    BookUnsound,
    BookEmpty,
    Limit,
    StepZero,
    View,
    Number,
    AreaSmall,
    OutputShort,
    Budget,
    NoExpression,
    TooDeep,
    EditionsDiffer,
    Overdrawn,
}

impl From<Refusal> for u32 {
    ghost use Rattle.std.specs.Prelude.{◌≡◌};
    ghost use Rattle.rules.specs.Told.{refusal_number};

    ghost from_gives = { λ r n. n ≡ refusal_number r };

    fn from(refusal: Refusal) -> u32 {
        match refusal {
            Refusal::TextLong => 1,
            Refusal::TextBytes => 2,
            Refusal::LinesMany => 3,
            Refusal::BookUnsound => 4,
            Refusal::BookEmpty => 5,
            Refusal::Limit => 6,
            Refusal::StepZero => 7,
            Refusal::View => 8,
            Refusal::Number => 9,
            Refusal::AreaSmall => 10,
            Refusal::OutputShort => 11,
            Refusal::Budget => 12,
            Refusal::NoExpression => 13,
            Refusal::TooDeep => 14,
            Refusal::EditionsDiffer => 15,
            Refusal::Overdrawn => 17,
        }
    }
}

// What a stored text is: the kinds of a book's records that hold tables, in the order in which ties go.
#[derive(Clone, Copy, Debug, PartialEq, Eq, PartialOrd, Ord)]
pub enum Kind {
    Original,
    Alternate,
    Header,
}

impl From<Kind> for u32 {
    ghost use Rattle.std.specs.Prelude.{◌≡◌};
    ghost use Rattle.rules.specs.Told.{kind_number};

    ghost from_gives = { λ k n. n ≡ kind_number k };

    fn from(kind: Kind) -> u32 {
        match kind {
            Kind::Original => 2,
            Kind::Alternate => 3,
            Kind::Header => 4,
        }
    }
}

// The lengths of the two lent work areas, in bytes and in u32.
#[derive(Clone, Copy)]
pub struct Areas {
    pub bytes: usize,
    pub words: usize,
}

// The two limits of a scan. They travel together, by value.
#[derive(Clone, Copy)]
pub struct Limits {
    pub threshold: f32,
    pub shallow: f32,
}

// How to scan: elimination, with optimize or not and at most so many passes; or top-down, with its step.
#[derive(Clone, Copy)]
pub enum Mode {
    Elimination(bool, u16),
    TopDown(u64),
}

// What a scoring yields: the score, m and t.
#[derive(Clone, Copy)]
pub struct Value {
    pub score: f32,
    pub m: u32,
    pub t: u32,
}

// The lines from `start` up to `end`, which is not among them.
#[derive(Clone, Copy)]
pub struct View {
    pub start: usize,
    pub end: usize,
}

// An index that a search scored, and what it found there.
#[derive(Clone, Copy)]
pub struct Index {
    pub at: usize,
    pub value: Value,
}

// A range of lines, from `first` up to `after`, and what it scores.
#[derive(Clone, Copy)]
pub struct Bounds {
    pub first: usize,
    pub after: usize,
    pub value: Value,
}

// What the job `bounds` finds: first line, line after last, what these lines score, and the count of scorings.
#[derive(Clone, Copy)]
pub struct Located {
    pub first: u32,
    pub after: u32,
    pub value: Value,
    pub count: u64,
}

// The answer to `check a book`. A refusal is the rules' number in every answer, and 0 is none.
#[derive(Clone, Copy)]
pub struct Checked {
    pub refusal: u32,
    pub texts: u32,
}

// The answer to `compile a text`: the length of its table body.
#[derive(Clone, Copy)]
pub struct Compiled {
    pub refusal: u32,
    pub len: usize,
}

// The answer to `score a view`: the score, m and t.
#[derive(Clone, Copy)]
pub struct Scored {
    pub refusal: u32,
    pub score: f32,
    pub m: u32,
    pub t: u32,
}

// The answer to `find bounds`: first line, line after last, what these lines score, and the count of scorings.
#[derive(Clone, Copy)]
pub struct Bounded {
    pub refusal: u32,
    pub first: u32,
    pub after: u32,
    pub score: f32,
    pub m: u32,
    pub t: u32,
    pub count: u64,
}

// Where a name stands: in the first or the second of the lent books, from which byte on, and how many bytes. No name: none, at the first's start.
#[derive(Clone, Copy)]
pub struct Named {
    pub second: bool,
    pub at: usize,
    pub len: usize,
}

// The answer to `scan`: the licence's name, zero-filled, and its length; the kind that won, 0 where none is named;
// the overall score with its m and t, the count of scorings and the number of records; and where the name stands in the lent books.
#[derive(Clone, Copy)]
pub struct Scanned {
    pub refusal: u32,
    pub name: [u8; NAME_MOST],
    pub len: u32,
    pub kind: u32,
    pub score: f32,
    pub m: u32,
    pub t: u32,
    pub count: u64,
    pub records: u32,
    pub part: Named,
}

// The answer to `name a stored text`: its kind, and where its licence's name stands.
#[derive(Clone, Copy)]
pub struct NamedText {
    pub refusal: u32,
    pub kind: u32,
    pub part: Named,
}

// A licence that is named: the kind of the text that names it, and where its name stands, which has at most 64 bytes.
#[derive(Clone, Copy)]
pub struct Licence {
    pub kind: Kind,
    pub part: Named,
    ghost short: { part.len ≤ name_most },
}

// What the job `scan` finds: the licence that is named, if one is, with its name zero-filled; the overall value, the count of scorings and the number of
// records; and whether the budget was out, so that this is only what it paid.
#[derive(Clone, Copy)]
pub struct Findings {
    pub licence: Option<Licence>,
    pub name: [u8; NAME_MOST],
    pub value: Value,
    pub count: u64,
    pub records: u32,
    pub over_budget: bool,
}
