// m of a view's table and a stored one, by one walk along both, which ends where they cannot share what is asked.
// From detection/ngram.rs of spdx 0.13.6 (Copyright 2018 Amazon.com, Inc. or its affiliates. All Rights Reserved.
// SPDX-License-Identifier: Apache-2.0), changed: both tables are sorted, so no entry is looked up. Assumes nothing.
#![tactic(auto)]

ghost use Rattle.std.specs.Prelude.{◌≡◌, true, ◌+◌, ◌≤◌, length};
ghost use Rattle.rules.specs.Sizes.{total_most};
ghost use Rattle.rules.specs.Table as words;
ghost use Rattle.rules.specs.Book.{shaped, entries_of, table_in};
ghost use Rattle.ngram_table.specs.Tables.{table_at};
ghost use Rattle.ngram_score.specs.Shares.{Reached};
ghost use Rattle.floors.specs.Floors.{Judged};

use floors::Floor;
use ngram_order::compare_bigram;
use ngram_score::{useless, value};
use ngram_table::TableSize;
use records::numbers::read_u32;
use rules::Value;
use slices::wide::wide;
use std::cmp::Ordering;

// The sum of the smaller counts of the bigrams that the table in p, over the text, shares with the stored one; or, where that is less than
// `least`, something that is no more. `rest` and `stored` are what is still to come of the two tables' counts: the sum gains no more than
// the smaller of them, so where it cannot reach `least` the walk ends.
pub fn meet(text: &[u8], p: &[u32], size: TableSize, body: &[u8], least: u32) -> u32
    requires distinct_le_total { (size.distinct ≤ size.total) × (size.total + size.total ≤ length p.now) × (size.total ≤ total_most) }
    requires distinct_value { table_at text.now p.now size.total size.distinct ≡ words.table_of (words.bigrams text.now) }
    requires body_value { shaped body.now (entries_of body.now) ≡ true }
    ensures { Reached least (words.meet (words.tallied (words.bigrams text.now)) (table_in body.now (entries_of body.now)).entries) result }
{
    let total = size.total;
    let distinct = size.distinct;
    let mut rest = total as u32;
    let mut stored = read_u32(body, 0);
    let mut m = 0;
    let mut i = 0;
    let mut j = 8;
    // A while: of its two cursors one moves, or both.
    while i < distinct {
        if body.len() <= j {
            return m;
        }
        if m + rest.min(stored) < least {
            return m;
        }
        let start = j + 8;
        let end = start + wide(read_u32(body, j + 4));
        match compare_bigram(text, wide(p[i]), body, start, end) {
            Ordering::Less => {
                rest -= p[total + i];
                i += 1;
            }
            Ordering::Equal => {
                let count = p[total + i];
                let other = read_u32(body, j);
                m += count.min(other);
                rest -= count;
                stored -= other;
                i += 1;
                j = end;
            }
            Ordering::Greater => {
                stored -= read_u32(body, j);
                j = end;
            }
        }
    }
    m
}

// The value of the table in p, over the text, against the stored one, if it beats the floor; otherwise a value that does not beat it either.
pub fn scoring(text: &[u8], p: &[u32], size: TableSize, body: &[u8], floor: Floor) -> Value
    requires distinct_le_total { (size.distinct ≤ size.total) × (size.total + size.total ≤ length p.now) × (size.total ≤ total_most) }
    requires distinct_value { table_at text.now p.now size.total size.distinct ≡ words.table_of (words.bigrams text.now) }
    requires body_value { shaped body.now (entries_of body.now) ≡ true }
    ensures { Judged floor (words.value_of (words.table_of (words.bigrams text.now)) (table_in body.now (entries_of body.now))) result }
{
    let total = size.total as u32;
    let stored = read_u32(body, 0);
    let least = useless(floor, total, stored);
    let m = meet(text, p, size, body, least);
    value(m, total, stored)
}
