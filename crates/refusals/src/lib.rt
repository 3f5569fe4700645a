// What a job refuses before any work, the first that applies in the rules' order: of lent books, of compile, of score and bounds, and of scan.
// Added to spdx 0.13.6 (detection/scan.rs, Copyright 2018 Amazon.com, Inc. or its affiliates. All Rights Reserved.
// SPDX-License-Identifier: Apache-2.0), which refuses nothing. Assumes nothing.
#![tactic(auto)]

ghost use Rattle.std.specs.Prelude.{◌≡◌, [], option_copied, unwrap_or};
ghost use Rattle.rules.specs.Book.{differ};
ghost use Rattle.rules.specs.Jobs.{CheckDone};
ghost use Rattle.rules.specs.Refusal.{refusal, before_compile};
ghost use Rattle.rules.specs.Told.{checked_told, number_told};
ghost use Rattle.refusals.specs.Lent.{books_lent};
ghost use Rattle.refusals.specs.Admits.{AdmitsShelf, AdmitsBooks, AdmitsView, AdmitsScan};

use detection_check::check_book;
use detection_edition::edition_of;
use detection_shelf::Counts;
use preproc_test::test_text;
use refusals_rows::{refuse_compile, refuse_scan, refuse_view};
use rules::{Areas, Limits, Mode, Refusal, View};

// What is let through: L, and N with the first book's.
#[derive(Clone, Copy)]
pub struct Admitted {
    pub lines: usize,
    pub texts: Counts,
}

// The second book's bytes: of one that is not lent, none.
pub fn second_bytes<'a>(second: Option<&'a [u8]>) -> &'a [u8]
    ensures { result.now ≡ unwrap_or (option_copied second.entry) [] }
{
    second.unwrap_or(&[])
}

// The check of the second book, where there is one: one that is not lent is not looked at, and stores no text.
fn check_second(second: Option<&[u8]>) -> Result<u32, Refusal>
    ensures { CheckDone (unwrap_or (option_copied second.entry) []) (checked_told result) }
{
    match second {
        Some(book) => check_book(book),
        None => Ok(0),
    }
}

// Whether a second book is lent, of another edition than the first: one book alone never differs.
fn editions_differ(book: &[u8], second: Option<&[u8]>) -> bool
    ensures { result ≡ differ (books_lent book.now (option_copied second.entry)) }
{
    second.is_some_and(|other| edition_of(other) != edition_of(book))
}

// Refusals 4, 5 and 15, by the rows of the lent books, one or two: one walk over each.
pub fn admit_books(book: &[u8], second: Option<&[u8]>) -> Result<Counts, Refusal>
    ensures { AdmitsShelf book.now (option_copied second.entry) result }
{
    let first = check_book(book)?;
    let other = check_second(second)?;
    let all = first + other;
    if all == 0 {
        return Err(Refusal::BookEmpty);
    }
    if editions_differ(book, second) {
        return Err(Refusal::EditionsDiffer);
    }
    Ok(Counts { first, all })
}

// Refusals 1 to 5 and 15: one walk over the text, which is read by what the first book's first record says, and the books where the text is taken.
fn admit_text_books(text: &[u8], book: &[u8], second: Option<&[u8]>) -> Result<Admitted, Refusal>
    ensures { AdmitsBooks text.now book.now (option_copied second.entry) result }
{
    let lines = test_text(edition_of(book), text)?;
    let texts = admit_books(book, second)?;
    Ok(Admitted { lines, texts })
}

// Before compile under an edition, with work areas of these lengths: refusals 1 to 4 and 10.
pub fn admit_compile(text: &[u8], edition: u32, areas: Areas) -> Result<(), Refusal>
    ensures { number_told result ≡ refusal (before_compile edition text.now areas) }
{
    test_text(edition, text)?;
    refuse_compile(text.len(), edition, areas)
}

// Before the score or the bounds of a view against the stored text k, with work areas of these lengths.
pub fn admit_view(
    text: &[u8],
    book: &[u8],
    second: Option<&[u8]>,
    v: View,
    k: u32,
    areas: Areas,
) -> Result<Admitted, Refusal>
    ensures { AdmitsView text.now book.now (option_copied second.entry) v k areas result }
{
    let both = admit_text_books(text, book, second)?;
    refuse_view(text.len(), both.lines, both.texts.all, v, k, areas)?;
    Ok(both)
}

// Before a scan, with results of so many words.
pub fn admit_scan(
    text: &[u8],
    book: &[u8],
    second: Option<&[u8]>,
    lim: Limits,
    mode: Mode,
    areas: Areas,
    results: usize,
) -> Result<Admitted, Refusal>
    ensures { AdmitsScan text.now book.now (option_copied second.entry) lim mode areas results result }
{
    let both = admit_text_books(text, book, second)?;
    refuse_scan(text.len(), both.lines, lim, mode, areas, results)?;
    Ok(both)
}
