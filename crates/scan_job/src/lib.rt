// The job `scan`: the refusals, the note's lines, the scan of its mode, and the answer.
// From detection/scan.rs of spdx 0.13.6 (Copyright 2018 Amazon.com, Inc. or its affiliates. All Rights Reserved.
// SPDX-License-Identifier: Apache-2.0), changed: `Scanner::scan`, with refusals and a budget. Assumes nothing.
#![tactic(auto)]

ghost use Rattle.std.specs.Prelude.{◌≡◌, false, ◌≤◌, length, [], ◌∷◌, Ok, option_copied};
ghost use Rattle.rules.specs.Sizes.{text_most};
ghost use Rattle.rules.specs.Scan.{events};
ghost use Rattle.detection_shelf.specs.Shelves.{shelf, texts, CountsOf};
ghost use Rattle.refusals.specs.Lent.{books_lent};
ghost use Rattle.refusals.specs.Admits.{ScanThrough};
ghost use Rattle.rules.specs.Refusal.{step_zero};
ghost use Rattle.rules.specs.Jobs.{lent, ScanDone};
ghost use Rattle.rules.specs.Told.{scanned_told};
ghost use Rattle.preproc_table.specs.Entries.{lines_at};
ghost use Rattle.scan_ranges.specs.Run.{Scanning, paid_numbers};
ghost use Rattle.scan_elimination.specs.Ended.{Eliminated};
ghost use Rattle.scan_answer.specs.Answers.{Scans};

use detection_edition::edition_of;
use detection_shelf::Counts;
use license_charge::Scorings;
use license_notes::{clear, lay};
use refusals::{admit_scan, second_bytes};
use rules::{Areas, Findings, Limits, Mode, Refusal};
use scan_answer::answer;
use scan_elimination::{Outcome, elimination};
use scan_ranges::Scope;
use scan_top_down::top_down;
use slices::class::class_table;

// The scan of a note whose lines stand in the areas, by its mode. Top-down has no overall best.
fn scan_mode<'a>(
    note: &[u8],
    class: &[u8; 256],
    area: &mut [u8],
    words: &mut [u32],
    scope: Scope,
    mode: Mode,
    book: &'a [u8],
    second: &'a [u8],
    results: &mut [u32],
    budget: Scorings,
) -> Outcome
    requires scanning { Scanning scope class.now area.old words.old (shelf book.now second.now) }
    requires mode_value { step_zero mode ≡ false }
    requires lines_in_bounds { length (paid_numbers note.now budget.count (events scope.limits mode (texts (shelf book.now second.now)) (lines_at area.old words.old scope.lines))) ≤ length results.old }
    requires note_len_bound { length note.now ≤ text_most }
    ensures { Eliminated note.now (events scope.limits mode (texts (shelf book.now second.now)) (lines_at area.old words.old scope.lines)) budget.count (shelf book.now second.now) results.old results.new result }
{
    match mode {
        Mode::Elimination(optimize, p) => {
            elimination(
                note, class, area, words, scope, optimize, p, book, second, results, budget,
            )
        }
        Mode::TopDown(step) => {
            let run = top_down(
                note, class, area, words, scope, step, book, second, results, budget,
            );
            Outcome { best: None, run }
        }
    }
}

// The work, of what is let through, under the first book's edition; `counts` has N. The areas hold what it leaves.
pub fn scan_laid<'a>(
    text: &[u8],
    book: &'a [u8],
    second: &'a [u8],
    limits: Limits,
    mode: Mode,
    counts: Counts,
    budget: u64,
    area: &mut [u8],
    words: &mut [u32],
    results: &mut [u32],
) -> Findings
    requires scan_through { ScanThrough text.now (shelf book.now second.now) limits mode (lent area.old words.old) (length results.old) }
    requires counts_of { CountsOf (shelf book.now second.now) counts }
    ensures { Scans text.now (shelf book.now second.now) limits mode budget results.old results.new (scanned_told (Ok result)) }
{
    let class = class_table(edition_of(book));
    let n = text.len();
    let lines = lay(&class, text, area, words);
    let scope = Scope {
        n,
        lines,
        texts: counts,
        limits,
    };
    let outcome = scan_mode(
        text,
        &class,
        area,
        words,
        scope,
        mode,
        book,
        second,
        results,
        Scorings::of(budget),
    );
    answer(book, second, limits, outcome, budget)
}

// Over lent books, one or two: refusals 1 to 7, 10, 12 and 15, or the scan. The work areas are zero after 0 and 12, and as they were after any other; the
// results change only where a record is paid.
pub fn scan_lent<'a>(
    text: &[u8],
    book: &'a [u8],
    second: Option<&'a [u8]>,
    limits: Limits,
    mode: Mode,
    budget: u64,
    area: &mut [u8],
    words: &mut [u32],
    results: &mut [u32],
) -> Result<Findings, Refusal>
    ensures { ScanDone text.now (books_lent book.now (option_copied second.entry)) limits mode budget area.old area.new words.old words.new results.old results.new (scanned_told result) }
{
    let areas = Areas {
        bytes: area.len(),
        words: words.len(),
    };
    let admitted = admit_scan(text, book, second, limits, mode, areas, results.len())?;
    let beside = second_bytes(second);
    let found = scan_laid(
        text,
        book,
        beside,
        limits,
        mode,
        admitted.texts,
        budget,
        area,
        words,
        results,
    );
    clear(area, words);
    Ok(found)
}

// Two books, whose texts count on from the first into the second. The name's bytes are `detection_part::name_part` of both and the answer's part.
pub fn scan_both<'a>(
    text: &[u8],
    book: &'a [u8],
    second: &'a [u8],
    limits: Limits,
    mode: Mode,
    budget: u64,
    area: &mut [u8],
    words: &mut [u32],
    results: &mut [u32],
) -> Result<Findings, Refusal>
    ensures { ScanDone text.now (book.now ∷ second.now ∷ []) limits mode budget area.old area.new words.old words.new results.old results.new (scanned_told result) }
{
    scan_lent(
        text,
        book,
        Some(second),
        limits,
        mode,
        budget,
        area,
        words,
        results,
    )
}

// One book, refused by its own rows; below them nothing stands beside it. The part is of this book.
pub fn scan(
    text: &[u8],
    book: &[u8],
    limits: Limits,
    mode: Mode,
    budget: u64,
    area: &mut [u8],
    words: &mut [u32],
    results: &mut [u32],
) -> Result<Findings, Refusal>
    ensures { ScanDone text.now (book.now ∷ []) limits mode budget area.old area.new words.old words.new results.old results.new (scanned_told result) }
{
    scan_lent(text, book, None, limits, mode, budget, area, words, results)
}
