// Which of the listed prefixes is stripped: the one that was seen most often, first seen on ties, where enough lines have it.
// From detection/preproc.rs of spdx 0.13.6 (Copyright 2018-2019 Amazon.com, Inc. or its affiliates. All Rights Reserved.
// SPDX-License-Identifier: Apache-2.0), changed: its map is a sorted table, and ties go to the first seen. Assumes nothing.
#![tactic(auto)]

ghost use Rattle.std.specs.Prelude.{◌≡◌, true, false, List, ℕ, ◌+◌, ◌≤◌, ◌<◌, length, take, drop, get_or};
ghost use Rattle.std.proofs.Math.Seq.{slice};
ghost use Rattle.rules.specs.Prefix.{reached};
ghost use Rattle.sort_tally.specs.Group.{groups, Grouped, entries_at};
ghost use Rattle.sort_spread.specs.Sort.{part_later, msorted};
ghost use Rattle.sort_tally.specs.Group.{Has};
ghost use Rattle.prefix_list.specs.Listing.{plain};
ghost use Rattle.prefix_choice.specs.Choice.{Beaten, ListsAt, Grouping, Decided};

use slices::ends::ByteSpan;
use slices::wide::wide;
use slices_order::starts_with;
use sort_order::LINE;
use sort_parts::sort_parts;
use sort_tally::group_parts;

// The first k of p, starts of prefixes in the text, sorted and grouped as `group_parts` leaves them. n log n in the text's bytes.
pub fn group_prefixes(text: &[u8], p: &mut [u32], k: usize) -> usize
    requires { (k + k ≤ length p.old) × (k < 4294967296) }
    ensures { Grouped (groups (part_later 10 1 text.now) (msorted (part_later 10 1 text.now) k (take k p.old))) k result p.new }
{
    sort_parts(text, p, k, LINE);
    group_parts(text, p, k, LINE)
}

// Whether group i counts more than group `best`, or as much and starts earlier.
fn counts_more(p: &[u32], k: usize, best: usize, i: usize) -> bool
    requires { (best < k) × (i < k) × (k + k ≤ length p.now) }
    ensures { (result ≡ true → Beaten p.now k best i) × (result ≡ false → Beaten p.now k i best) }
{
    if p[k + best] != p[k + i] {
        return p[k + best] < p[k + i];
    }
    p[i] < p[best]
}

// The group that no other beats. One walk over the groups.
pub fn winner(p: &[u32], k: usize, d: usize) -> usize
    requires { (0 < d) × (d ≤ k) × (k + k ≤ length p.now) }
    ensures within { result < d }
    ensures most { (j : ℕ) → j < d → Beaten p.now k j result }
{
    let mut best = 0;
    for i in 1..d {
        if counts_more(p, k, best, i) {
            best = i;
        }
    }
    best
}

// The counts of the groups that start with the text's bytes from a up to b, one more for each. A test reads no more than the group's
// own bytes, so this is linear in the list.
pub fn reach(text: &[u8], p: &[u32], k: usize, d: usize, a: usize, b: usize) -> usize
    requires { (a ≤ b) × (b ≤ length text.now) × (plain (slice a b text.now) ≡ true) × (d ≤ k) × (k + k ≤ length p.now) × (k < 4294967296) }
    ensures { result ≡ reached (slice a b text.now) (entries_at 10 1 text.now p.now k d) }
{
    let w = &text[a..b];
    let mut sum = 0;
    for j in 0..d {
        let start = wide(p[j]);
        let count = wide(p[k + j]);
        if starts_with(text, start, w) {
            sum += count + 1;
        }
    }
    sum
}

// What is stripped, as bytes of the list of prefixes: the winner, where the sum is no less than four fifths of the lines; else nothing.
pub fn decide(text: &[u8], p: &[u32], k: usize, d: usize, lines: usize) -> Option<ByteSpan>
    requires d_nonzero { (0 < d) × (d ≤ k) × (k + k ≤ length p.now) × (k < 4294967296) × (lines < 4294967296) }
    requires by_index { (j : ℕ) → j < d → get_or p.now j 0 ≤ length text.now }
    ensures { (ls : List (List ℕ)) (xs : List ℕ) → Grouping text.now p.now k d ls xs → length ls ≡ lines → Decided ls text.now result }
{
    let w = winner(p, k, d);
    let start = wide(p[w]);
    let end = LINE.part_end(text, start);
    let sum = reach(text, p, k, d, start, end);
    if sum < 4 * lines / 5 {
        return None;
    }
    Some(ByteSpan { start, end })
}

// What is stripped, by the k starts that stand in the words from `at` on; they are sorted and grouped there. n log n in the text's bytes.
pub fn choose(text: &[u8], words: &mut [u32], at: usize, k: usize, lines: usize) -> Option<ByteSpan>
    requires k_nonzero { (0 < k) × (at + (k + k) ≤ length words.old) × (k < 4294967296) × (lines < 4294967296) }
    requires by_index { (a : ℕ) → Has a (take k (drop at words.old)) → a ≤ length text.now }
    ensures front { take at words.new ≡ take at words.old }
    ensures decided { (ls : List (List ℕ)) → ListsAt text.now (take k (drop at words.old)) ls → length ls ≡ lines → Decided ls text.now result }
{
    let d = group_prefixes(text, &mut words[at..], k);
    decide(text, &words[at..], k, d, lines)
}
