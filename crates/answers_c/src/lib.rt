// The answers of the jobs as C has them: structs of plain numbers, and of a scan one length for the name and its part; and a scan's mode, which comes from C as
// numbers. Assumes nothing.
#![tactic(auto)]

ghost use Rattle.std.specs.Prelude.{◌≡◌, cond, ◌≤◌};
ghost use Rattle.rules.specs.Sizes.{name_most};
ghost use Rattle.rules.specs.Jobs.{scored_as};
ghost use Rattle.rules.specs.Told.{licence_kind, licence_part, checked_told, compiled_told, scored_told, bounded_told, scanned_told, named_told};
ghost use Rattle.rules.specs.declared.Mode.TheVariants.{Elimination, TopDown};
ghost use Rattle.answers_c.specs.Answers.{checked_of, compiled_of, scored_of, bounded_of, scanned_of, named_of, located_as, scanned_as, nothing};

use rules::{Findings, Licence, Located, Mode, NAME_MOST, Named, Refusal, Value};

// What a refusal's answer has beside its number: a score of 0.0 and nothing shared of nothing, no lines, and no name, the empty part at the first book's start.
const NO_VALUE: Value = Value {
    score: 0.0,
    m: 0,
    t: 0,
};

const NO_LINES: Located = Located {
    first: 0,
    after: 0,
    value: NO_VALUE,
    count: 0,
};

const NO_PART: Named = Named {
    second: false,
    at: 0,
    len: 0,
};

// The number of the refusal, 0 for none; and N.
#[repr(C)]
#[derive(Clone, Copy)]
pub struct BookChecked {
    pub refusal: u32,
    pub texts: u32,
}

impl From<Result<u32, Refusal>> for BookChecked {
    ghost from_gives = { λ r c. checked_of c ≡ checked_told r };

    fn from(checked: Result<u32, Refusal>) -> BookChecked {
        match checked {
            Ok(texts) => BookChecked { refusal: 0, texts },
            Err(refused) => BookChecked {
                refusal: u32::from(refused),
                texts: 0,
            },
        }
    }
}

// The refusal, and the length of the table body that stands at the front of the output.
#[repr(C)]
#[derive(Clone, Copy)]
pub struct TextCompiled {
    pub refusal: u32,
    pub len: usize,
}

impl From<Result<usize, Refusal>> for TextCompiled {
    ghost from_gives = { λ r c. compiled_of c ≡ compiled_told r };

    fn from(compiled: Result<usize, Refusal>) -> TextCompiled {
        match compiled {
            Ok(len) => TextCompiled { refusal: 0, len },
            Err(refused) => TextCompiled {
                refusal: u32::from(refused),
                len: 0,
            },
        }
    }
}

// The score, and the numbers behind it: m word pairs shared, t word pairs of both together; the score is 2m/t.
#[repr(C)]
#[derive(Clone, Copy)]
pub struct ViewScored {
    pub refusal: u32,
    pub score: f32,
    pub m: u32,
    pub t: u32,
}

impl ViewScored {
    fn of(refusal: u32, value: Value) -> ViewScored
        ensures { scored_of result ≡ scored_as refusal value }
    {
        ViewScored {
            refusal,
            score: value.score,
            m: value.m,
            t: value.t,
        }
    }
}

impl From<Result<Value, Refusal>> for ViewScored {
    ghost from_gives = { λ r c. scored_of c ≡ scored_told r };

    fn from(scored: Result<Value, Refusal>) -> ViewScored {
        match scored {
            Ok(value) => ViewScored::of(0, value),
            Err(refused) => ViewScored::of(u32::from(refused), NO_VALUE),
        }
    }
}

// The range, and the score, m and t of its lines.
#[repr(C)]
#[derive(Clone, Copy)]
pub struct BoundsFound {
    pub refusal: u32,
    pub first: u32,
    pub after: u32,
    pub score: f32,
    pub m: u32,
    pub t: u32,
    pub count: u64,
}

impl BoundsFound {
    fn of(refusal: u32, located: Located) -> BoundsFound
        ensures { bounded_of result ≡ located_as refusal located }
    {
        BoundsFound {
            refusal,
            first: located.first,
            after: located.after,
            score: located.value.score,
            m: located.value.m,
            t: located.value.t,
            count: located.count,
        }
    }
}

impl From<Result<Located, Refusal>> for BoundsFound {
    ghost from_gives = { λ r c. bounded_of c ≡ bounded_told r };

    fn from(bounded: Result<Located, Refusal>) -> BoundsFound {
        match bounded {
            Ok(located) => BoundsFound::of(0, located),
            Err(refused) => BoundsFound::of(u32::from(refused), NO_LINES),
        }
    }
}

// The answer of every scan: the overall score with its m and t; the name that won, zero-filled, and its length; its kind, 0 where none is named; and
// where the same bytes stand, in the second book or the first, from `at` on.
#[repr(C)]
#[derive(Clone, Copy)]
pub struct NoteScanned {
    pub refusal: u32,
    pub records: u32,
    pub count: u64,
    pub score: f32,
    pub m: u32,
    pub t: u32,
    pub kind: u32,
    pub len: u32,
    pub name: [u8; NAME_MOST],
    pub second: bool,
    pub at: usize,
}

fn nothing_found() -> Findings
    ensures { result ≡ nothing }
{
    Findings {
        licence: None,
        name: [0; NAME_MOST],
        value: NO_VALUE,
        count: 0,
        records: 0,
        over_budget: false,
    }
}

// The kind of the licence that is named, and where its name stands: of none, 0 and no part.
fn kind_and_part(licence: Option<Licence>) -> (u32, Named)
    ensures kind { result.0 ≡ licence_kind licence }
    ensures part { result.1 ≡ licence_part licence }
    ensures short { result.1.len ≤ name_most }
{
    match licence {
        Some(named) => (u32::from(named.kind), named.part),
        None => (0, NO_PART),
    }
}

impl NoteScanned {
    // The part is as long as the name, so one length says both.
    fn of(refusal: u32, found: Findings) -> NoteScanned
        ensures { scanned_of result ≡ scanned_as refusal found }
    {
        let (kind, part) = kind_and_part(found.licence);
        let name = found.name;
        NoteScanned {
            refusal,
            records: found.records,
            count: found.count,
            score: found.value.score,
            m: found.value.m,
            t: found.value.t,
            kind,
            len: part.len as u32,
            name,
            second: part.second,
            at: part.at,
        }
    }
}

impl From<Result<Findings, Refusal>> for NoteScanned {
    ghost from_gives = { λ r c. scanned_of c ≡ scanned_told r };

    fn from(scanned: Result<Findings, Refusal>) -> NoteScanned {
        match scanned {
            Ok(found) if found.over_budget => NoteScanned::of(u32::from(Refusal::Budget), found),
            Ok(found) => NoteScanned::of(0, found),
            Err(refused) => NoteScanned::of(u32::from(refused), nothing_found()),
        }
    }
}

// The kind of a stored text, and where its licence's name stands: `len` bytes of the second book or the first, from `at` on.
#[repr(C)]
#[derive(Clone, Copy)]
pub struct TextNamed {
    pub refusal: u32,
    pub kind: u32,
    pub len: u32,
    pub second: bool,
    pub at: usize,
}

// A name has at most 64 bytes, so its length needs no more than a scan's does.
impl From<Result<Licence, Refusal>> for TextNamed {
    ghost from_gives = { λ r c. named_of c ≡ named_told r };

    fn from(named: Result<Licence, Refusal>) -> TextNamed {
        match named {
            Ok(licence) => TextNamed {
                refusal: 0,
                kind: u32::from(licence.kind),
                len: licence.part.len as u32,
                second: licence.part.second,
                at: licence.part.at,
            },
            Err(refused) => TextNamed {
                refusal: u32::from(refused),
                kind: 0,
                len: 0,
                second: false,
                at: 0,
            },
        }
    }
}

// An enum does not cross: top-down with its step, else elimination with optimize and passes. What the mode does not have is not looked at.
pub fn mode_from_c(down: bool, optimize: bool, passes: u16, step: u64) -> Mode
    ensures { result ≡ cond down (TopDown step) (Elimination optimize passes) }
{
    if down {
        return Mode::TopDown(step);
    }
    Mode::Elimination(optimize, passes)
}
