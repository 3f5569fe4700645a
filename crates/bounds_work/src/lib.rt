// The work of the job `bounds`: where in a view of a note a stored text stands.
// From detection/license.rs of spdx 0.13.6 (Copyright 2018 Amazon.com, Inc. or its affiliates. All Rights Reserved.
// SPDX-License-Identifier: Apache-2.0), changed: `optimize_bounds`. Assumes what holds of all that is let through (`ViewThrough`).
#![tactic(auto)]

ghost use Rattle.std.specs.Prelude.{◌≡◌, Ok};
ghost use Rattle.rules.specs.Lines.{lines};
ghost use Rattle.rules.specs.Book.{edition};
ghost use Rattle.rules.specs.Jobs.{lent, bounds_found};
ghost use Rattle.rules.specs.Told.{bounded_told};
ghost use Rattle.detection_shelf.specs.Shelves.{shelf, texts, CountsOf};
ghost use Rattle.refusals.specs.Admits.{ViewThrough};

use bounds_answer::answer;
use detection_edition::edition_of;
use detection_shelf::{Counts, body_of, stored_on};
use license_bounds::find_bounds;
use license_charge::Scorings;
use license_notes::lay;
use rules::{Located, View};
use slices::class::class_table;

// What pays every search of a note that is let through: 24 rounds take 65,536 lines down to four, a round takes two scorings and the end at most four, so
// one search takes at most 52; bounds take two. `bounds-most` proves it, so that the job never runs out.
const BOUNDS_MOST: u64 = 104;

// The work, of what is let through, under the first book's edition: the areas hold what it leaves.
pub fn bounds_laid<'a>(
    text: &[u8],
    book: &'a [u8],
    second: &'a [u8],
    counts: Counts,
    v: View,
    k: u32,
    area: &mut [u8],
    words: &mut [u32],
) -> Located
    requires view_through { ViewThrough text.now (shelf book.now second.now) v k (lent area.old words.old) }
    requires counts_of { CountsOf (shelf book.now second.now) counts }
    ensures { bounded_told (Ok result) ≡ bounds_found (lines (edition book.now) text.now) (texts (shelf book.now second.now)) v k }
{
    let class = class_table(edition_of(book));
    let n = text.len();
    let lines = lay(&class, text, area, words);
    let found = stored_on(book, second, counts, k);
    let body = body_of(book, second, found);
    let ranged = find_bounds(
        &class,
        area,
        words,
        n,
        lines,
        v,
        body,
        Scorings::of(BOUNDS_MOST),
    );
    answer(ranged, BOUNDS_MOST)
}
