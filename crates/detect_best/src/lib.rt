// A stored text and what it scores; when the next one is better, and what it has to beat.
// From detection/detect.rs of spdx 0.13.6 (Copyright 2018 Amazon.com, Inc. or its affiliates. All Rights Reserved.
// SPDX-License-Identifier: Apache-2.0), changed: the sort in `analyze` is a running best. Assumes nothing.
#![tactic(auto)]

ghost use Rattle.std.specs.Prelude.{◌≡◌};
ghost use Rattle.detect_best.specs.Beats.{Wins, kind_of, score_of, to_beat};

use detection_shelf::Shelved;
use floors::Floor;
use rules::Value;

// A stored text and what it scores. Of no text yet there is none of it, and any text beats that.
#[derive(Clone, Copy)]
pub struct Best {
    pub text: Shelved,
    pub value: Value,
}

// Whether the next text is the better one: where it scores strictly higher, and on equal scores where its kind goes before; only then the earlier
// one stays. Its answer is no struct, since most texts do not win, and the best would be copied for each.
#[tactic(auto, using(crate::proofs::BetterLaws::wins_none, crate::proofs::BetterLaws::wins_more, crate::proofs::BetterLaws::wins_lower, crate::proofs::BetterLaws::wins_tied))]
pub fn wins(best: Option<Best>, next: Best) -> bool
    ensures { Wins best next result }
{
    match best {
        None => true,
        Some(best) => {
            if best.value.score < next.value.score {
                return true;
            }
            if next.value.score < best.value.score {
                return false;
            }
            next.text.text.kind < best.text.text.kind
        }
    }
}

// What the next text, of this kind, has to beat: the floor, where ties with it do, as long as no text reaches it; then the best so far, where
// ties do if its kind goes before. The kind is its number, so that any is answered.
#[tactic(auto, unfolding(crate::specs::Beats::to_beat))]
pub fn to_beat(floor: f32, best: Option<Best>, kind: u32) -> Floor
    ensures { result ≡ to_beat floor (kind_of best) (score_of best) kind }
{
    if let Some(best) = best {
        let score = best.value.score;
        if !(score < floor) {
            return Floor {
                score,
                ties: kind < u32::from(best.text.text.kind),
            };
        }
    }
    Floor {
        score: floor,
        ties: true,
    }
}
