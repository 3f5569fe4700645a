// Top-down: from line c on, the latest view that reaches the threshold is bounded and recorded, and c goes on behind its last line.
// From detection/scan.rs of spdx 0.13.6 (Copyright 2018 Amazon.com, Inc. or its affiliates. All Rights Reserved.
// SPDX-License-Identifier: Apache-2.0), changed: the mode `TopDown`, with every scoring charged. Assumes nothing.
#![tactic(auto)]

ghost use Rattle.std.specs.Prelude.{◌≤◌, ◌<◌, length};
ghost use Rattle.rules.specs.Sizes.{text_most};
ghost use Rattle.rules.specs.Scan as rules;
ghost use Rattle.preproc_table.specs.Entries.{lines_at};
ghost use Rattle.detection_shelf.specs.Shelves.{shelf, texts};
ghost use Rattle.scan_ranges.specs.Run.{Scanning, paid_numbers, Ran};
ghost use Rattle.scan_view.specs.Down.{latest_in, LatestStands};
ghost use Rattle.scan_top_down.specs.Contains.{Contains};

use detection_shelf::Shelved;
use license_charge::{Charged, Scorings};
use rules::Bounds;
use scan_limits::below;
use scan_places::{Mark, past_gap, put_record};
use scan_ranges::{Run, Scope, text_bounds};
use scan_view::Latest;
use scan_views::walk_starts;

// What a round finds: a text and its range.
#[derive(Clone, Copy)]
pub struct Contained {
    pub text: Shelved,
    pub range: Bounds,
}

// The bounds of the pair against its text; below the threshold it is nothing.
fn settle<'a>(
    class: &[u8; 256],
    area: &mut [u8],
    words: &mut [u32],
    scope: Scope,
    book: &'a [u8],
    second: &'a [u8],
    latest: Option<Latest>,
    budget: Scorings,
) -> Option<Charged<Option<Contained>>>
    requires scanning { Scanning scope class.now area.old words.old (shelf book.now second.now) }
    requires latest_stands { LatestStands (shelf book.now second.now) scope.lines latest }
    ensures { Contains scope area.old words.old area.new words.new (shelf book.now second.now) (λ ss ls. rules.settled scope.limits ls (latest_in (shelf book.now second.now) latest)) budget.count result }
{
    let Some(pair) = latest else {
        return Some(Charged {
            value: None,
            left: budget,
        });
    };
    let text = pair.text;
    let c = text_bounds(
        class, area, words, scope, pair.view, book, second, text, budget,
    )?;
    let left = c.left;
    let range = c.value;
    if below(scope.limits, range) {
        return Some(Charged { value: None, left });
    }
    let value = Some(Contained { text, range });
    Some(Charged { value, left })
}

// The range that is found from line c on.
fn find_contained<'a>(
    class: &[u8; 256],
    area: &mut [u8],
    words: &mut [u32],
    scope: Scope,
    c: usize,
    step: u64,
    book: &'a [u8],
    second: &'a [u8],
    budget: Scorings,
) -> Option<Charged<Option<Contained>>>
    requires scanning { Scanning scope class.now area.old words.old (shelf book.now second.now) }
    requires c_le_lines { (c ≤ scope.lines) × (0 < step) }
    ensures { Contains scope area.old words.old area.new words.new (shelf book.now second.now) (λ ss ls. rules.contained scope.limits step ss ls c) budget.count result }
{
    let found = walk_starts(class, area, words, scope, c, step, book, second, budget)?;
    settle(
        class,
        area,
        words,
        scope,
        book,
        second,
        found.value,
        found.left,
    )
}

// Round by round: c strictly rises, since a range ends at c or behind it. The byte where line c starts is carried along, so that all records together
// take one walk over the note.
pub fn top_down<'a>(
    note: &[u8],
    class: &[u8; 256],
    area: &mut [u8],
    words: &mut [u32],
    scope: Scope,
    step: u64,
    book: &'a [u8],
    second: &'a [u8],
    results: &mut [u32],
    budget: Scorings,
) -> Run
    requires scanning { Scanning scope class.now area.old words.old (shelf book.now second.now) }
    requires step_nonzero { 0 < step }
    requires lines_in_bounds { length (paid_numbers note.now budget.count (rules.top_down scope.limits step (texts (shelf book.now second.now)) (lines_at area.old words.old scope.lines))) ≤ length results.old }
    requires note_len_bound { length note.now ≤ text_most }
    ensures { Ran note.now (rules.top_down scope.limits step (texts (shelf book.now second.now)) (lines_at area.old words.old scope.lines)) budget.count results.old results.new result }
{
    let lines = scope.lines;
    let mut left = budget;
    let mut c: usize = 0;
    let mut at: usize = 0;
    let mut k: u32 = 0;
    // A while: c goes on behind each range.
    while c < lines {
        let Some(round) = find_contained(class, area, words, scope, c, step, book, second, left)
        else {
            return Run::out_at(k);
        };
        left = round.left;
        let Some(found) = round.value else {
            return Run::ended(k, left);
        };
        let range = found.range;
        let from = Mark { line: c, at };
        let end = put_record(note, from, results, k, found.text.number, range);
        at = past_gap(note, range, end);
        k += 1;
        c = range.after + 1;
    }
    Run::ended(k, left)
}
