// The work of the job `score`: a view's table against the table of a stored text.
// From detection/license.rs of spdx 0.13.6 (Copyright 2018 Amazon.com, Inc. or its affiliates. All Rights Reserved.
// SPDX-License-Identifier: Apache-2.0), changed: `match_score` of a view. Assumes what holds of all that is let through (`ViewThrough`).
#![tactic(auto)]

ghost use Rattle.std.specs.Prelude.{◌≡◌, get_or};
ghost use Rattle.rules.specs.Lines.{lines};
ghost use Rattle.rules.specs.Search.{no_text, score_view};
ghost use Rattle.rules.specs.Book.{edition};
ghost use Rattle.rules.specs.Jobs.{lent};
ghost use Rattle.detection_shelf.specs.Shelves.{shelf, texts, CountsOf};
ghost use Rattle.refusals.specs.Admits.{ViewThrough};

use detection_edition::edition_of;
use detection_shelf::{Counts, body_of, stored_on};
use license_charge::{Scorings, charge_exact};
use license_notes::lay;
use license_views::view_table;
use rules::{Value, View};
use slices::class::class_table;

// The work, of what is let through, under the first book's edition: the areas hold what it leaves.
pub fn score_laid<'a>(
    text: &[u8],
    book: &'a [u8],
    second: &'a [u8],
    counts: Counts,
    v: View,
    k: u32,
    area: &mut [u8],
    words: &mut [u32],
) -> Value
    requires view_through { ViewThrough text.now (shelf book.now second.now) v k (lent area.old words.old) }
    requires counts_of { CountsOf (shelf book.now second.now) counts }
    ensures { result ≡ (score_view (lines (edition book.now) text.now) (get_or (texts (shelf book.now second.now)) k no_text) v).value }
{
    let class = class_table(edition_of(book));
    let n = text.len();
    let lines = lay(&class, text, area, words);
    let t = view_table(&class, area, words, n, lines, v);
    let found = stored_on(book, second, counts, k);
    let body = body_of(book, second, found);
    let charged = charge_exact(area, words, n, t, body, Scorings::of(1));
    charged.value
}
