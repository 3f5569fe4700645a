// The Dice score of two tables, by m and their totals: one division of two whole numbers that an f32 holds exactly. And how much two tables must
// share at least to beat a floor.
// From detection/ngram.rs of spdx 0.13.6 (Copyright 2018 Amazon.com, Inc. or its affiliates. All Rights Reserved.
// SPDX-License-Identifier: Apache-2.0), changed. Assumes nothing.
#![tactic(auto)]

ghost use Rattle.std.specs.Prelude.{◌≡◌, ◌+◌, ◌≤◌};
ghost use Rattle.rules.specs.Sizes.{total_most};
ghost use Rattle.rules.specs.Table as words;
ghost use Rattle.floors.specs.Floors as floors;
ghost use Rattle.ngram_score.specs.Shares.{Useless};

use floors::Floor;
use rules::Value;

// a and b are the two tables' totals, and m is the sum of the smaller counts of what they share.
pub fn score_of(m: u32, a: u32, b: u32) -> f32
    requires { (m ≤ a) × (m ≤ b) × (a ≤ total_most) × (b ≤ total_most) }
    ensures { result ≡ words.score m a b }
{
    if a == 0 || b == 0 {
        return 0.0;
    }
    (2 * m) as f32 / (a + b) as f32
}

// The score with m and t.
pub fn value(m: u32, a: u32, b: u32) -> Value
    requires { (m ≤ a) × (m ≤ b) × (a ≤ total_most) × (b ≤ total_most) }
    ensures { result ≡ record { score = words.score m a b; m = m; t = a + b } }
{
    let score = score_of(m, a, b);
    Value { score, m, t: a + b }
}

// About how much two tables of t in all share where they have this score, and at most `most`. It only guides: nothing rests on it.
fn about(score: f32, t: u32, most: u32) -> u32
    requires { t ≤ 16777216 }
    ensures { result ≤ most }
{
    let shared = score * t as f32 / 2.0;
    most.min(std::num::saturating_f32_to_u32(shared))
}

// Whether m shared beats the floor.
fn shares_beat(floor: Floor, m: u32, a: u32, b: u32) -> bool
    requires { (m ≤ a) × (m ≤ b) × (a ≤ total_most) × (b ≤ total_most) }
    ensures { result ≡ floors.beats floor (words.score m a b) }
{
    floor.beaten_by(score_of(m, a, b))
}

// Sharing less than this does not beat the floor. It may be less than could be said; each answer is tested.
pub fn useless(floor: Floor, a: u32, b: u32) -> u32
    requires { (a ≤ total_most) × (b ≤ total_most) }
    ensures { Useless floor a b result }
{
    let most = a.min(b);
    if !shares_beat(floor, most, a, b) {
        return most + 1;
    }
    let near = about(floor.score, a + b, most);
    if !shares_beat(floor, near, a, b) {
        return near + 1;
    }
    if near == 0 {
        return 0;
    }
    if !shares_beat(floor, near - 1, a, b) {
        return near;
    }
    0
}
