// The library's face, which the crate chultarvi_c exports to C: the six jobs with plain types, the scan as two calls, since an enum does not cross, the scan that
// is charged to an allowance, and the two calls on expressions. include/chultarvi.h describes them. Assumes of a C caller that what it lends to be written, slices and the allowance, overlaps
// nothing else of the same call, and that the allowance is not null.
#![tactic(auto)]

ghost use Rattle.std.specs.Prelude.{◌≡◌, cond, [], ◌∷◌, None, Some, option_copied};
ghost use Rattle.rules.specs.Search.{view};
ghost use Rattle.rules.specs.Book.{edition};
ghost use Rattle.rules.specs.declared.Mode.TheVariants.{Elimination, TopDown};
ghost use Rattle.detection_shelf.specs.Shelves.{shelf, books_of};
ghost use Rattle.answers_c.specs.Answers.{compiled_of, scored_of, bounded_of, scanned_of, named_of};
ghost use Rattle.rules.specs.Jobs.{ScoreDone, BoundsDone, NameDone, ScanDone, check, CompileDone};
ghost use Rattle.allowance.specs.Allowed.{AllowedDone};
ghost use Rattle.expression.specs.Jobs.{WriteDone, satisfy as satisfied};

use allowance::Allowance;
use allowance_job::scan_allowed;
use answers_c::{
    BookChecked, BoundsFound, NoteScanned, TextCompiled, TextNamed, ViewScored, mode_from_c,
};
use bounds_job::{bounds_both, bounds_of};
use compile::compile;
use detection_check::check_book;
use detection_edition::edition_of;
use expression::{Satisfied, Spelled};
use expression_job::{satisfy, write_expression};
use name_job::{name_both, name_of};
use rules::{Limits, Mode, View};
use scan_job::{scan, scan_both};
use score_job::{score_both, score_view};

pub fn chultarvi_check_book(book: &[u8]) -> BookChecked
    ensures { (result.refusal ≡ (check book.now).refusal) × (result.texts ≡ (check book.now).texts) }
{
    BookChecked::from(check_book(book))
}

// The edition of any bytes: of a sound book, its own.
pub fn chultarvi_edition(book: &[u8]) -> u32
    ensures { result ≡ edition book.now }
{
    edition_of(book)
}

// A wide edition, so that a caller's 65,538 is refused and not cut to 2.
pub fn chultarvi_compile(
    text: &[u8],
    edition: u32,
    area: &mut [u8],
    words: &mut [u32],
    out: &mut [u8],
) -> TextCompiled
    ensures { CompileDone edition text.now area.old area.new words.old words.new out.old out.new (compiled_of result) }
{
    TextCompiled::from(compile(text, edition, area, words, out))
}

// The view [start, end) of the text's lines against the stored text `number`.
pub fn chultarvi_score(
    text: &[u8],
    book: &[u8],
    start: usize,
    end: usize,
    number: u32,
    area: &mut [u8],
    words: &mut [u32],
) -> ViewScored
    ensures { ScoreDone text.now (book.now ∷ []) (view start end) number area.old area.new words.old words.new (scored_of result) }
{
    let v = View { start, end };
    ViewScored::from(score_view(text, book, v, number, area, words))
}

pub fn chultarvi_bounds(
    text: &[u8],
    book: &[u8],
    start: usize,
    end: usize,
    number: u32,
    area: &mut [u8],
    words: &mut [u32],
) -> BoundsFound
    ensures { BoundsDone text.now (book.now ∷ []) (view start end) number area.old area.new words.old words.new (bounded_of result) }
{
    let v = View { start, end };
    BoundsFound::from(bounds_of(text, book, v, number, area, words))
}

pub fn chultarvi_eliminate(
    text: &[u8],
    book: &[u8],
    threshold: f32,
    shallow: f32,
    optimize: bool,
    passes: u16,
    budget: u64,
    area: &mut [u8],
    words: &mut [u32],
    results: &mut [u32],
) -> NoteScanned
    ensures { ScanDone text.now (book.now ∷ []) (record { threshold = threshold; shallow = shallow }) (Elimination optimize passes) budget area.old area.new words.old words.new results.old results.new (scanned_of result) }
{
    let limits = Limits { threshold, shallow };
    let mode = Mode::Elimination(optimize, passes);
    NoteScanned::from(scan(text, book, limits, mode, budget, area, words, results))
}

pub fn chultarvi_top_down(
    text: &[u8],
    book: &[u8],
    threshold: f32,
    shallow: f32,
    step: u64,
    budget: u64,
    area: &mut [u8],
    words: &mut [u32],
    results: &mut [u32],
) -> NoteScanned
    ensures { ScanDone text.now (book.now ∷ []) (record { threshold = threshold; shallow = shallow }) (TopDown step) budget area.old area.new words.old words.new results.old results.new (scanned_of result) }
{
    let limits = Limits { threshold, shallow };
    let mode = Mode::TopDown(step);
    NoteScanned::from(scan(text, book, limits, mode, budget, area, words, results))
}

// The kind of the stored text `number`, and where its licence's name stands.
pub fn chultarvi_name_stored(book: &[u8], number: u32) -> TextNamed
    ensures { NameDone (book.now ∷ []) number (named_of result) }
{
    TextNamed::from(name_of(book, number))
}

// The same five over two books, whose texts count on from the first into the second.
pub fn chultarvi_score_both<'a>(
    text: &[u8],
    book: &'a [u8],
    second: &'a [u8],
    start: usize,
    end: usize,
    number: u32,
    area: &mut [u8],
    words: &mut [u32],
) -> ViewScored
    ensures { ScoreDone text.now (book.now ∷ second.now ∷ []) (view start end) number area.old area.new words.old words.new (scored_of result) }
{
    let v = View { start, end };
    ViewScored::from(score_both(text, book, second, v, number, area, words))
}

pub fn chultarvi_bounds_both<'a>(
    text: &[u8],
    book: &'a [u8],
    second: &'a [u8],
    start: usize,
    end: usize,
    number: u32,
    area: &mut [u8],
    words: &mut [u32],
) -> BoundsFound
    ensures { BoundsDone text.now (book.now ∷ second.now ∷ []) (view start end) number area.old area.new words.old words.new (bounded_of result) }
{
    let v = View { start, end };
    BoundsFound::from(bounds_both(text, book, second, v, number, area, words))
}

pub fn chultarvi_name_stored_both(book: &[u8], second: &[u8], number: u32) -> TextNamed
    ensures { NameDone (book.now ∷ second.now ∷ []) number (named_of result) }
{
    TextNamed::from(name_both(book, second, number))
}

pub fn chultarvi_eliminate_both<'a>(
    text: &[u8],
    book: &'a [u8],
    second: &'a [u8],
    threshold: f32,
    shallow: f32,
    optimize: bool,
    passes: u16,
    budget: u64,
    area: &mut [u8],
    words: &mut [u32],
    results: &mut [u32],
) -> NoteScanned
    ensures { ScanDone text.now (book.now ∷ second.now ∷ []) (record { threshold = threshold; shallow = shallow }) (Elimination optimize passes) budget area.old area.new words.old words.new results.old results.new (scanned_of result) }
{
    let limits = Limits { threshold, shallow };
    let mode = Mode::Elimination(optimize, passes);
    NoteScanned::from(scan_both(
        text, book, second, limits, mode, budget, area, words, results,
    ))
}

pub fn chultarvi_top_down_both<'a>(
    text: &[u8],
    book: &'a [u8],
    second: &'a [u8],
    threshold: f32,
    shallow: f32,
    step: u64,
    budget: u64,
    area: &mut [u8],
    words: &mut [u32],
    results: &mut [u32],
) -> NoteScanned
    ensures { ScanDone text.now (book.now ∷ second.now ∷ []) (record { threshold = threshold; shallow = shallow }) (TopDown step) budget area.old area.new words.old words.new results.old results.new (scanned_of result) }
{
    let limits = Limits { threshold, shallow };
    let mode = Mode::TopDown(step);
    NoteScanned::from(scan_both(
        text, book, second, limits, mode, budget, area, words, results,
    ))
}

// A second book that is not lent is none, whatever stands there.
fn lent_second<'a>(second: &'a [u8], two: bool) -> Option<&'a [u8]>
    ensures { option_copied result ≡ cond two (Some second.now) None }
{
    if two {
        return Some(second);
    }
    None
}

// One scan for both modes and for one book or two, charged to the allowance in place.
#[tactic(auto, using(crate::proofs::BesideLaws::lent_books))]
pub fn chultarvi_scan_allowed<'a>(
    text: &[u8],
    book: &'a [u8],
    second: &'a [u8],
    two: bool,
    down: bool,
    threshold: f32,
    shallow: f32,
    optimize: bool,
    passes: u16,
    step: u64,
    allowance: &mut Allowance,
    area: &mut [u8],
    words: &mut [u32],
    results: &mut [u32],
) -> NoteScanned
    ensures { AllowedDone text.now (books_of (shelf book.now second.now) two) (record { threshold = threshold; shallow = shallow }) (cond down (TopDown step) (Elimination optimize passes)) allowance.old allowance.new area.old area.new words.old words.new results.old results.new (scanned_of result) }
{
    let limits = Limits { threshold, shallow };
    let mode = mode_from_c(down, optimize, passes, step);
    let lent = lent_second(second, two);
    NoteScanned::from(scan_allowed(
        text, book, lent, limits, mode, allowance, area, words, results,
    ))
}

// Whether a list of accepted parts, one a line, satisfies a licence expression.
pub fn chultarvi_satisfy(text: &[u8], list: &[u8]) -> Satisfied
    ensures { result ≡ satisfied text.now list.now }
{
    Satisfied::from(satisfy(text, list))
}

// A licence expression written back with single spaces and only the parentheses that it needs.
pub fn chultarvi_write_expression(text: &[u8], out: &mut [u8]) -> Spelled
    ensures { WriteDone text.now out.old out.new result }
{
    Spelled::from(write_expression(text, out))
}
