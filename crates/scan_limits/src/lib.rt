// How a score stands to the two limits of a scan: it names its text, it makes every pass needless, or it is too low for a record.
// From detection/scan.rs of spdx 0.13.6 (Copyright 2018 Amazon.com, Inc. or its affiliates. All Rights Reserved.
// SPDX-License-Identifier: Apache-2.0), changed: its comparisons, one function each. Assumes nothing.
#![tactic(auto)]

ghost use Rattle.std.specs.Prelude.{◌≡◌, ◌&&◌};
ghost use Rattle.std.specs.Float.Ieee.{lt};
ghost use Rattle.rules.specs.Scan as rules;

use detect_best::Best;
use rules::{Bounds, Limits};

// A score strictly above the threshold names its text.
pub fn names(limits: Limits, best: Best) -> bool
    ensures { result ≡ lt limits.threshold best.value.score }
{
    limits.threshold < best.value.score
}

// Named, and strictly above the shallow limit: no pass is needed.
pub fn stops(limits: Limits, best: Best) -> bool
    ensures { result ≡ (lt limits.threshold best.value.score && lt limits.shallow best.value.score) }
{
    if names(limits, best) {
        return limits.shallow < best.value.score;
    }
    false
}

// So low that nothing is recorded.
pub fn below(limits: Limits, range: Bounds) -> bool
    ensures { result ≡ rules.below limits range }
{
    range.value.score < limits.threshold
}
