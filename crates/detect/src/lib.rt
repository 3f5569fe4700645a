// The best stored text of a view: all of two books in order, a running best, every scoring charged; each only as far as it can beat the best so far.
// From detection/detect.rs of spdx 0.13.6 (Copyright 2018 Amazon.com, Inc. or its affiliates. All Rights Reserved.
// SPDX-License-Identifier: Apache-2.0), changed: the sort in `analyze` is a running best. Assumes nothing.
#![tactic(auto)]

ghost use Rattle.std.specs.Prelude.{◌≤◌};
ghost use Rattle.slices.specs.Classes.{Classes};
ghost use Rattle.detection_shelf.specs.Shelves.{shelf, CountsOf};
ghost use Rattle.license_notes.specs.Laid.{Laid};
ghost use Rattle.license_views.specs.Tabled.{Tabled, table_over};
ghost use Rattle.detect.specs.Bests.{BestOf, BestAbove, BestDone};

use detect_best::{Best, to_beat, wins};
use detection_shelf::{Counts, after_on, body_of, first_spot, next_on};
use license_charge::{Charged, Scorings, charge};
use license_views::{Viewed, view_table};
use rules::View;

// The best of the books' texts for the table of a view, as far as it is not below the floor: each is scored once, in order. None of the books' is
// the best where they store none.
pub fn best_of<'a>(
    area: &[u8],
    words: &[u32],
    n: usize,
    t: Viewed,
    book: &'a [u8],
    second: &'a [u8],
    texts: Counts,
    floor: f32,
    budget: Scorings,
) -> Option<Charged<Option<Best>>>
    requires tabled { Tabled n area.now words.now t }
    requires counts_of { CountsOf (shelf book.now second.now) texts }
    ensures { BestOf (shelf book.now second.now) (table_over area.now t) floor budget.count result }
{
    let mut best = None;
    let mut left = budget;
    let mut spot = first_spot();
    // A while: the spot that it counts by holds a place in a book as well.
    while spot.number < texts.all {
        if left.is_spent() {
            return None;
        }
        let text = next_on(book, second, texts, spot);
        let body = body_of(book, second, text);
        let kind = u32::from(text.text.kind);
        let least = to_beat(floor, best, kind);
        let c = charge(area, words, n, t, body, least, left);
        left = c.left;
        let value = c.value;
        let next = Best { text, value };
        spot = after_on(text);
        if wins(best, next) {
            best = Some(next);
        }
    }
    Some(Charged { value: best, left })
}

// The best stored text of a view, as far as it is not below the floor: its table is made once.
pub fn best_above<'a>(
    class: &[u8; 256],
    area: &mut [u8],
    words: &mut [u32],
    n: usize,
    lines: usize,
    v: View,
    book: &'a [u8],
    second: &'a [u8],
    texts: Counts,
    floor: f32,
    budget: Scorings,
) -> Option<Charged<Option<Best>>>
    requires classes { Classes class.now × Laid n lines area.old words.old }
    requires start_le_end { (v.start ≤ v.end) × (v.end ≤ lines) }
    requires counts_of { CountsOf (shelf book.now second.now) texts }
    ensures { BestAbove n lines area.old words.old area.new words.new v (shelf book.now second.now) floor budget.count result }
{
    let t = view_table(class, area, words, n, lines, v);
    best_of(area, words, n, t, book, second, texts, floor, budget)
}

// The best stored text of a view: no score is below 0.0.
pub fn best_text<'a>(
    class: &[u8; 256],
    area: &mut [u8],
    words: &mut [u32],
    n: usize,
    lines: usize,
    v: View,
    book: &'a [u8],
    second: &'a [u8],
    texts: Counts,
    budget: Scorings,
) -> Option<Charged<Option<Best>>>
    requires classes { Classes class.now × Laid n lines area.old words.old }
    requires start_le_end { (v.start ≤ v.end) × (v.end ≤ lines) }
    requires counts_of { CountsOf (shelf book.now second.now) texts }
    ensures { BestDone n lines area.old words.old area.new words.new v (shelf book.now second.now) budget.count result }
{
    best_above(
        class, area, words, n, lines, v, book, second, texts, 0.0, budget,
    )
}
