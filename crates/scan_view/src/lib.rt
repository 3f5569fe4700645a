// Top-down's walk at one view: the best text of it, and what the latest view that reached the threshold then is.
// From detection/scan.rs of spdx 0.13.6 (Copyright 2018 Amazon.com, Inc. or its affiliates. All Rights Reserved.
// SPDX-License-Identifier: Apache-2.0), changed: the inner loop's body of `topdown_find_contained_license`, with every scoring charged. Assumes nothing.
#![tactic(auto)]

ghost use Rattle.std.specs.Prelude.{◌≡◌, [], ◌∷◌, ◌≤◌};
ghost use Rattle.detection_shelf.specs.Shelves.{shelf};
ghost use Rattle.scan_ranges.specs.Run.{Scanning};
ghost use Rattle.scan_view.specs.Down.{walk, latest_in, LatestStands, Walks, lower_in};

use detect::best_above;
use detection_shelf::Shelved;
use license_charge::{Charged, Scorings};
use rules::View;
use scan_ranges::Scope;

// The latest view that reached the threshold, and its best text.
#[derive(Clone, Copy)]
pub struct Latest {
    pub view: View,
    pub text: Shelved,
}

// How far a walk over views is: the latest pair, if there is one yet, and whether a score below the threshold has ended it.
#[derive(Clone, Copy)]
pub struct Walked {
    pub latest: Option<Latest>,
    pub ended: bool,
}

// A score below the threshold ends the walk once there is a pair.
#[tactic(auto, unfolding(crate::specs::Down::lower_in))]
fn below_threshold(latest: Option<Latest>) -> Walked
    ensures { result ≡ lower_in latest }
{
    Walked {
        latest,
        ended: latest.is_some(),
    }
}

// One view more: below the threshold, which text is the best does not matter.
pub fn see_view<'a>(
    class: &[u8; 256],
    area: &mut [u8],
    words: &mut [u32],
    scope: Scope,
    v: View,
    book: &'a [u8],
    second: &'a [u8],
    latest: Option<Latest>,
    budget: Scorings,
) -> Option<Charged<Walked>>
    requires scanning { Scanning scope class.now area.old words.old (shelf book.now second.now) }
    requires start_le_end { (v.start ≤ v.end) × (v.end ≤ scope.lines) }
    requires latest_stands { LatestStands (shelf book.now second.now) scope.lines latest }
    ensures { Walks scope area.old words.old area.new words.new (shelf book.now second.now) (λ ss ls. walk scope.limits ss ls (latest_in (shelf book.now second.now) latest) (v ∷ [])) budget.count result }
{
    let n = scope.n;
    let lines = scope.lines;
    let texts = scope.texts;
    let floor = scope.limits.threshold;
    let c = best_above(
        class, area, words, n, lines, v, book, second, texts, floor, budget,
    )?;
    let left = c.left;
    let Some(best) = c.value else {
        let value = below_threshold(latest);
        return Some(Charged { value, left });
    };
    if best.value.score < floor {
        let value = below_threshold(latest);
        return Some(Charged { value, left });
    }
    let text = best.text;
    let value = Walked {
        latest: Some(Latest { view: v, text }),
        ended: false,
    };
    Some(Charged { value, left })
}
