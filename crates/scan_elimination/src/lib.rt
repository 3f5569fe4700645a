// Elimination: the best stored text of the whole note; then, pass by pass, its bounds, a record, the lines in range made blank, the best again.
// From detection/scan.rs of spdx 0.13.6 (Copyright 2018 Amazon.com, Inc. or its affiliates. All Rights Reserved.
// SPDX-License-Identifier: Apache-2.0), changed: the mode `Elimination`, with every scoring charged. Assumes nothing.
#![tactic(auto)]

ghost use Rattle.std.specs.Prelude.{◌≤◌, length, Some};
ghost use Rattle.rules.specs.Sizes.{text_most};
ghost use Rattle.rules.specs.Scan as rules;
ghost use Rattle.preproc_table.specs.Entries.{lines_at};
ghost use Rattle.detect_best.specs.Beats.{best_in};
ghost use Rattle.detection_shelf.specs.Shelves.{shelf, texts, Stands};
ghost use Rattle.scan_ranges.specs.Run.{Scanning, BestWithout, paid_numbers, Ran};
ghost use Rattle.scan_elimination.specs.Ended.{Eliminated};

use detect::best_text;
use detect_best::Best;
use license_charge::{Charged, Scorings};
use preproc_table::blank_lines;
use rules::Bounds;
use scan_limits::{below, stops};
use scan_places::{first_mark, put_record};
use scan_ranges::{Run, Scope, text_bounds, whole_view};

// The lines in range are made blank; the best text of the whole note, as it then stands.
fn best_without<'a>(
    class: &[u8; 256],
    area: &mut [u8],
    words: &mut [u32],
    scope: Scope,
    book: &'a [u8],
    second: &'a [u8],
    range: Bounds,
    budget: Scorings,
) -> Option<Charged<Option<Best>>>
    requires scanning { Scanning scope class.now area.old words.old (shelf book.now second.now) }
    requires first_le_after { (range.first ≤ range.after) × (range.after ≤ scope.lines) }
    ensures { BestWithout scope class.now area.old words.old area.new words.new (shelf book.now second.now) range budget.count result }
{
    let n = scope.n;
    let lines = scope.lines;
    let texts = scope.texts;
    blank_lines(words, range.first, range.after);
    best_text(
        class,
        area,
        words,
        n,
        lines,
        whole_view(lines),
        book,
        second,
        texts,
        budget,
    )
}

// Up to p passes, from the best text of the note as it stands.
pub fn each_pass<'a>(
    note: &[u8],
    class: &[u8; 256],
    area: &mut [u8],
    words: &mut [u32],
    scope: Scope,
    book: &'a [u8],
    second: &'a [u8],
    p: u16,
    first: Best,
    results: &mut [u32],
    budget: Scorings,
) -> Run
    requires scanning { Scanning scope class.now area.old words.old (shelf book.now second.now) }
    requires stands { Stands (shelf book.now second.now) first.text }
    requires first_in_bounds { length (paid_numbers note.now budget.count (rules.each_pass scope.limits (texts (shelf book.now second.now)) p (lines_at area.old words.old scope.lines) (best_in (shelf book.now second.now) (Some first)))) ≤ length results.old }
    requires note_len_bound { length note.now ≤ text_most }
    ensures { Ran note.now (rules.each_pass scope.limits (texts (shelf book.now second.now)) p (lines_at area.old words.old scope.lines) (best_in (shelf book.now second.now) (Some first))) budget.count results.old results.new result }
{
    let v = whole_view(scope.lines);
    let mut best = first;
    let mut left = budget;
    for k in 0..u32::from(p) {
        let text = best.text;
        let Some(c) = text_bounds(class, area, words, scope, v, book, second, text, left) else {
            return Run::out_at(k);
        };
        let range = c.value;
        if below(scope.limits, range) {
            return Run::ended(k, c.left);
        }
        put_record(note, first_mark(), results, k, text.number, range);
        let Some(b) = best_without(class, area, words, scope, book, second, range, c.left) else {
            return Run::out_at(k + 1);
        };
        let Some(next) = b.value else {
            return Run::ended(k + 1, b.left);
        };
        best = next;
        left = b.left;
    }
    Run::ended(u32::from(p), left)
}

// The best text of a note, and how the passes over it ended.
#[derive(Clone, Copy)]
pub struct Outcome {
    pub best: Option<Best>,
    pub run: Run,
}

// With `optimize`, up to p passes follow the best text of the note.
pub fn elimination<'a>(
    note: &[u8],
    class: &[u8; 256],
    area: &mut [u8],
    words: &mut [u32],
    scope: Scope,
    optimize: bool,
    p: u16,
    book: &'a [u8],
    second: &'a [u8],
    results: &mut [u32],
    budget: Scorings,
) -> Outcome
    requires scanning { Scanning scope class.now area.old words.old (shelf book.now second.now) }
    requires lines_in_bounds { length (paid_numbers note.now budget.count (rules.elimination scope.limits optimize p (texts (shelf book.now second.now)) (lines_at area.old words.old scope.lines))) ≤ length results.old }
    requires note_len_bound { length note.now ≤ text_most }
    ensures { Eliminated note.now (rules.elimination scope.limits optimize p (texts (shelf book.now second.now)) (lines_at area.old words.old scope.lines)) budget.count (shelf book.now second.now) results.old results.new result }
{
    let n = scope.n;
    let lines = scope.lines;
    let texts = scope.texts;
    let v = whole_view(lines);
    let Some(c) = best_text(class, area, words, n, lines, v, book, second, texts, budget) else {
        return Outcome {
            best: None,
            run: Run::out_at(0),
        };
    };
    let Some(best) = c.value else {
        return Outcome {
            best: None,
            run: Run::ended(0, c.left),
        };
    };
    if stops(scope.limits, best) {
        return Outcome {
            best: c.value,
            run: Run::ended(0, c.left),
        };
    }
    if !optimize {
        return Outcome {
            best: c.value,
            run: Run::ended(0, c.left),
        };
    }
    let run = each_pass(
        note, class, area, words, scope, book, second, p, best, results, c.left,
    );
    Outcome { best: c.value, run }
}
