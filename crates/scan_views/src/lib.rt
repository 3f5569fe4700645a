// Top-down's views: from a line on, the starts by steps, from each the ends by steps; and the latest that reaches the threshold.
// From detection/scan.rs of spdx 0.13.6 (Copyright 2018 Amazon.com, Inc. or its affiliates. All Rights Reserved.
// SPDX-License-Identifier: Apache-2.0), changed: `topdown_find_contained_license`, with every scoring charged. Assumes nothing.
#![tactic(auto)]

ghost use Rattle.std.specs.Prelude.{map, suc, ◌≤◌, ◌<◌};
ghost use Rattle.std.proofs.Math.Option.{none};
ghost use Rattle.rules.specs.Search.{view};
ghost use Rattle.rules.specs.Scan.{steps, views_of, latest as latest_of};
ghost use Rattle.detection_shelf.specs.Shelves.{shelf};
ghost use Rattle.scan_ranges.specs.Run.{Scanning};
ghost use Rattle.scan_view.specs.Down.{walk, latest_in, LatestStands, Walks, Pairs};

use license_charge::{Charged, Scorings};
use rules::View;
use scan_ranges::Scope;
use scan_steps::next_step;
use scan_view::{Latest, Walked, see_view};

// The views from one start: the ends start, start + step, .. up to the last line.
fn walk_ends<'a>(
    class: &[u8; 256],
    area: &mut [u8],
    words: &mut [u32],
    scope: Scope,
    start: usize,
    step: u64,
    book: &'a [u8],
    second: &'a [u8],
    from: Option<Latest>,
    budget: Scorings,
) -> Option<Charged<Walked>>
    requires scanning { Scanning scope class.now area.old words.old (shelf book.now second.now) }
    requires start_le_lines { (start ≤ scope.lines) × (0 < step) }
    requires latest_stands { LatestStands (shelf book.now second.now) scope.lines from }
    ensures { Walks scope area.old words.old area.new words.new (shelf book.now second.now) (λ ss ls. walk scope.limits ss ls (latest_in (shelf book.now second.now) from) (map (λ e. view start e) (steps step start (suc scope.lines)))) budget.count result }
{
    let past = scope.lines + 1;
    let mut latest = from;
    let mut left = budget;
    let mut end = start;
    // A while: the last step is cut short, and no sum may wrap.
    while end < past {
        let v = View { start, end };
        let seen = see_view(class, area, words, scope, v, book, second, latest, left)?;
        if seen.value.ended {
            return Some(seen);
        }
        latest = seen.value.latest;
        left = seen.left;
        end = next_step(end, step, past);
    }
    let value = Walked {
        latest,
        ended: false,
    };
    Some(Charged { value, left })
}

// All views from line c on: the starts c, c + step, .. below the last line.
pub fn walk_starts<'a>(
    class: &[u8; 256],
    area: &mut [u8],
    words: &mut [u32],
    scope: Scope,
    c: usize,
    step: u64,
    book: &'a [u8],
    second: &'a [u8],
    budget: Scorings,
) -> Option<Charged<Option<Latest>>>
    requires scanning { Scanning scope class.now area.old words.old (shelf book.now second.now) }
    requires c_le_lines { (c ≤ scope.lines) × (0 < step) }
    ensures { Pairs scope area.old words.old area.new words.new (shelf book.now second.now) (λ ss ls. latest_of scope.limits ss ls none (views_of step scope.lines (steps step c scope.lines))) budget.count result }
{
    let lines = scope.lines;
    let mut latest = None;
    let mut left = budget;
    let mut start = c;
    // A while: the last step is cut short, and no sum may wrap.
    while start < lines {
        let walked = walk_ends(
            class, area, words, scope, start, step, book, second, latest, left,
        )?;
        latest = walked.value.latest;
        left = walked.left;
        if walked.value.ended {
            return Some(Charged {
                value: latest,
                left,
            });
        }
        start = next_step(start, step, lines);
    }
    Some(Charged {
        value: latest,
        left,
    })
}
