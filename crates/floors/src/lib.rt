// What a score has to beat: with it, a scoring ends early where it cannot.
// From detection/ngram.rs of spdx 0.13.6 (Copyright 2018 Amazon.com, Inc. or its affiliates. All Rights Reserved.
// SPDX-License-Identifier: Apache-2.0), changed. Assumes nothing.
#![tactic(auto)]

ghost use Rattle.std.specs.Prelude.{◌≡◌};
ghost use Rattle.floors.specs.Floors as floors;

// What a score has to beat: it must be above it, or, where ties do, not below it.
#[derive(Clone, Copy)]
pub struct Floor {
    pub score: f32,
    pub ties: bool,
}

impl Floor {
    // What every score beats.
    pub fn lowest() -> Floor
        ensures { result ≡ floors.lowest }
    {
        Floor {
            score: 0.0,
            ties: true,
        }
    }

    // Whether the score beats this floor.
    pub fn beaten_by(self, score: f32) -> bool
        ensures { result ≡ floors.beats self score }
    {
        if self.ties {
            return !(score < self.score);
        }
        self.score < score
    }
}
