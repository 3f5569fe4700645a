// The library's face for C: each function of the crate chultarvi under its C name, with the same clauses; a crate that exports to C is no library of other crates.
// include/chultarvi.h describes them. Assumes of a C caller that what it lends to be written, slices and the allowance, overlaps nothing else of the same call,
// and that the allowance is not null.
#![tactic(auto)]

ghost use Rattle.std.specs.Prelude.{◌≡◌, cond, [], ◌∷◌};
ghost use Rattle.rules.specs.Search.{view};
ghost use Rattle.rules.specs.Book.{edition};
ghost use Rattle.rules.specs.declared.Mode.TheVariants.{Elimination, TopDown};
ghost use Rattle.detection_shelf.specs.Shelves.{shelf, books_of};
ghost use Rattle.answers_c.specs.Answers.{compiled_of, scored_of, bounded_of, scanned_of, named_of};
ghost use Rattle.rules.specs.Jobs.{ScoreDone, BoundsDone, NameDone, ScanDone, check, CompileDone};
ghost use Rattle.allowance.specs.Allowed.{AllowedDone};
ghost use Rattle.expression.specs.Jobs.{WriteDone, satisfy as satisfied};

use allowance::Allowance;
use answers_c::{BookChecked, BoundsFound, NoteScanned, TextCompiled, TextNamed, ViewScored};
use expression::{Satisfied, Spelled};

#[unsafe(no_mangle)]
pub extern "C" fn chultarvi_check_book(book: &[u8]) -> BookChecked
    ensures { (result.refusal ≡ (check book.now).refusal) × (result.texts ≡ (check book.now).texts) }
{
    chultarvi::chultarvi_check_book(book)
}

// The edition of any bytes: of a sound book, its own.
#[unsafe(no_mangle)]
pub extern "C" fn chultarvi_edition(book: &[u8]) -> u32
    ensures { result ≡ edition book.now }
{
    chultarvi::chultarvi_edition(book)
}

// A wide edition, so that a caller's 65,538 is refused and not cut to 2.
#[unsafe(no_mangle)]
pub extern "C" fn chultarvi_compile(
    text: &[u8],
    edition: u32,
    area: &mut [u8],
    words: &mut [u32],
    out: &mut [u8],
) -> TextCompiled
    ensures { CompileDone edition text.now area.old area.new words.old words.new out.old out.new (compiled_of result) }
{
    chultarvi::chultarvi_compile(text, edition, area, words, out)
}

// The view [start, end) of the text's lines against the stored text `number`.
#[unsafe(no_mangle)]
pub extern "C" fn chultarvi_score(
    text: &[u8],
    book: &[u8],
    start: usize,
    end: usize,
    number: u32,
    area: &mut [u8],
    words: &mut [u32],
) -> ViewScored
    ensures { ScoreDone text.now (book.now ∷ []) (view start end) number area.old area.new words.old words.new (scored_of result) }
{
    chultarvi::chultarvi_score(text, book, start, end, number, area, words)
}

#[unsafe(no_mangle)]
pub extern "C" fn chultarvi_bounds(
    text: &[u8],
    book: &[u8],
    start: usize,
    end: usize,
    number: u32,
    area: &mut [u8],
    words: &mut [u32],
) -> BoundsFound
    ensures { BoundsDone text.now (book.now ∷ []) (view start end) number area.old area.new words.old words.new (bounded_of result) }
{
    chultarvi::chultarvi_bounds(text, book, start, end, number, area, words)
}

#[unsafe(no_mangle)]
pub extern "C" fn chultarvi_eliminate(
    text: &[u8],
    book: &[u8],
    threshold: f32,
    shallow: f32,
    optimize: bool,
    passes: u16,
    budget: u64,
    area: &mut [u8],
    words: &mut [u32],
    results: &mut [u32],
) -> NoteScanned
    ensures { ScanDone text.now (book.now ∷ []) (record { threshold = threshold; shallow = shallow }) (Elimination optimize passes) budget area.old area.new words.old words.new results.old results.new (scanned_of result) }
{
    chultarvi::chultarvi_eliminate(
        text, book, threshold, shallow, optimize, passes, budget, area, words, results,
    )
}

#[unsafe(no_mangle)]
pub extern "C" fn chultarvi_top_down(
    text: &[u8],
    book: &[u8],
    threshold: f32,
    shallow: f32,
    step: u64,
    budget: u64,
    area: &mut [u8],
    words: &mut [u32],
    results: &mut [u32],
) -> NoteScanned
    ensures { ScanDone text.now (book.now ∷ []) (record { threshold = threshold; shallow = shallow }) (TopDown step) budget area.old area.new words.old words.new results.old results.new (scanned_of result) }
{
    chultarvi::chultarvi_top_down(
        text, book, threshold, shallow, step, budget, area, words, results,
    )
}

// The kind of the stored text `number`, and where its licence's name stands.
#[unsafe(no_mangle)]
pub extern "C" fn chultarvi_name_stored(book: &[u8], number: u32) -> TextNamed
    ensures { NameDone (book.now ∷ []) number (named_of result) }
{
    chultarvi::chultarvi_name_stored(book, number)
}

// The same five over two books, whose texts count on from the first into the second.
#[unsafe(no_mangle)]
pub extern "C" fn chultarvi_score_both<'a>(
    text: &[u8],
    book: &'a [u8],
    second: &'a [u8],
    start: usize,
    end: usize,
    number: u32,
    area: &mut [u8],
    words: &mut [u32],
) -> ViewScored
    ensures { ScoreDone text.now (book.now ∷ second.now ∷ []) (view start end) number area.old area.new words.old words.new (scored_of result) }
{
    chultarvi::chultarvi_score_both(text, book, second, start, end, number, area, words)
}

#[unsafe(no_mangle)]
pub extern "C" fn chultarvi_bounds_both<'a>(
    text: &[u8],
    book: &'a [u8],
    second: &'a [u8],
    start: usize,
    end: usize,
    number: u32,
    area: &mut [u8],
    words: &mut [u32],
) -> BoundsFound
    ensures { BoundsDone text.now (book.now ∷ second.now ∷ []) (view start end) number area.old area.new words.old words.new (bounded_of result) }
{
    chultarvi::chultarvi_bounds_both(text, book, second, start, end, number, area, words)
}

#[unsafe(no_mangle)]
pub extern "C" fn chultarvi_name_stored_both(book: &[u8], second: &[u8], number: u32) -> TextNamed
    ensures { NameDone (book.now ∷ second.now ∷ []) number (named_of result) }
{
    chultarvi::chultarvi_name_stored_both(book, second, number)
}

#[unsafe(no_mangle)]
pub extern "C" fn chultarvi_eliminate_both<'a>(
    text: &[u8],
    book: &'a [u8],
    second: &'a [u8],
    threshold: f32,
    shallow: f32,
    optimize: bool,
    passes: u16,
    budget: u64,
    area: &mut [u8],
    words: &mut [u32],
    results: &mut [u32],
) -> NoteScanned
    ensures { ScanDone text.now (book.now ∷ second.now ∷ []) (record { threshold = threshold; shallow = shallow }) (Elimination optimize passes) budget area.old area.new words.old words.new results.old results.new (scanned_of result) }
{
    chultarvi::chultarvi_eliminate_both(
        text, book, second, threshold, shallow, optimize, passes, budget, area, words, results,
    )
}

#[unsafe(no_mangle)]
pub extern "C" fn chultarvi_top_down_both<'a>(
    text: &[u8],
    book: &'a [u8],
    second: &'a [u8],
    threshold: f32,
    shallow: f32,
    step: u64,
    budget: u64,
    area: &mut [u8],
    words: &mut [u32],
    results: &mut [u32],
) -> NoteScanned
    ensures { ScanDone text.now (book.now ∷ second.now ∷ []) (record { threshold = threshold; shallow = shallow }) (TopDown step) budget area.old area.new words.old words.new results.old results.new (scanned_of result) }
{
    chultarvi::chultarvi_top_down_both(
        text, book, second, threshold, shallow, step, budget, area, words, results,
    )
}

// One scan for both modes and for one book or two, charged to the allowance in place.
#[unsafe(no_mangle)]
pub extern "C" fn chultarvi_scan_allowed<'a>(
    text: &[u8],
    book: &'a [u8],
    second: &'a [u8],
    two: bool,
    down: bool,
    threshold: f32,
    shallow: f32,
    optimize: bool,
    passes: u16,
    step: u64,
    allowance: &mut Allowance,
    area: &mut [u8],
    words: &mut [u32],
    results: &mut [u32],
) -> NoteScanned
    ensures { AllowedDone text.now (books_of (shelf book.now second.now) two) (record { threshold = threshold; shallow = shallow }) (cond down (TopDown step) (Elimination optimize passes)) allowance.old allowance.new area.old area.new words.old words.new results.old results.new (scanned_of result) }
{
    chultarvi::chultarvi_scan_allowed(
        text, book, second, two, down, threshold, shallow, optimize, passes, step, allowance, area,
        words, results,
    )
}

// Whether a list of accepted parts, one a line, satisfies a licence expression.
#[unsafe(no_mangle)]
pub extern "C" fn chultarvi_satisfy(text: &[u8], list: &[u8]) -> Satisfied
    ensures { result ≡ satisfied text.now list.now }
{
    chultarvi::chultarvi_satisfy(text, list)
}

// A licence expression written back with single spaces and only the parentheses that it needs.
#[unsafe(no_mangle)]
pub extern "C" fn chultarvi_write_expression(text: &[u8], out: &mut [u8]) -> Spelled
    ensures { WriteDone text.now out.old out.new result }
{
    chultarvi::chultarvi_write_expression(text, out)
}
