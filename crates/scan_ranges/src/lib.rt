// What both scans work on, how they end, and what they do with a stored text that they have found: its bounds.
// From detection/scan.rs of spdx 0.13.6 (Copyright 2018 Amazon.com, Inc. or its affiliates. All Rights Reserved.
// SPDX-License-Identifier: Apache-2.0), changed: its matches are counted. Assumes nothing.
#![tactic(auto)]

ghost use Rattle.std.specs.Prelude.{◌≡◌, ◌≤◌};
ghost use Rattle.std.proofs.Math.Option.{none, some};
ghost use Rattle.rules.specs.Search.{view};
ghost use Rattle.detection_shelf.specs.Shelves.{shelf, Stands};
ghost use Rattle.scan_ranges.specs.Run.{Scanning, RangeDone, run_of};

use detection_shelf::{Counts, Shelved, body_of};
use license_bounds::find_bounds;
use license_charge::{Charged, Scorings};
use rules::{Bounds, Limits, View};

// What a scan works on: the note's bytes and lines, how many texts the books store, and the limits.
#[derive(Clone, Copy)]
pub struct Scope {
    pub n: usize,
    pub lines: usize,
    pub texts: Counts,
    pub limits: Limits,
}

// How a scan ended: how many ranges are recorded, and the scorings left, or none of this where the budget was out.
#[derive(Clone, Copy)]
pub struct Run {
    pub records: u32,
    pub left: Option<Scorings>,
}

impl Run {
    // The budget is out, with k ranges recorded.
    #[tactic(auto, unfolding(crate::specs::Run::run_of))]
    pub fn out_at(k: u32) -> Run
        ensures { result ≡ run_of k none }
    {
        Run {
            records: k,
            left: None,
        }
    }

    // All is paid, with k ranges recorded.
    #[tactic(auto, unfolding(crate::specs::Run::run_of))]
    pub fn ended(k: u32, left: Scorings) -> Run
        ensures { result ≡ run_of k (some left.count) }
    {
        Run {
            records: k,
            left: Some(left),
        }
    }
}

pub fn whole_view(lines: usize) -> View
    ensures { result ≡ view 0 lines }
{
    View {
        start: 0,
        end: lines,
    }
}

// The bounds of a view against a stored text of the books.
pub fn text_bounds<'a>(
    class: &[u8; 256],
    area: &mut [u8],
    words: &mut [u32],
    scope: Scope,
    v: View,
    book: &'a [u8],
    second: &'a [u8],
    text: Shelved,
    budget: Scorings,
) -> Option<Charged<Bounds>>
    requires scanning { Scanning scope class.now area.old words.old (shelf book.now second.now) }
    requires start_le_end { (v.start ≤ v.end) × (v.end ≤ scope.lines) }
    requires stands { Stands (shelf book.now second.now) text }
    ensures { RangeDone scope class.now area.old words.old area.new words.new v (shelf book.now second.now) text budget.count result }
{
    let n = scope.n;
    let lines = scope.lines;
    let body = body_of(book, second, text);
    find_bounds(class, area, words, n, lines, v, body, budget)
}
