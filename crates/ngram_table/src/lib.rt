// The table of a processed text: where its bigrams start, sorted and counted in a lent slice of numbers.
// From detection/ngram.rs of spdx 0.13.6 (Copyright 2018 Amazon.com, Inc. or its affiliates. All Rights Reserved.
// SPDX-License-Identifier: Apache-2.0), changed. Assumes nothing: any text has bigrams, split at byte 32 alone.
#![tactic(auto)]

ghost use Rattle.std.specs.Prelude.{◌≡◌, ◌+◌, ◌≤◌, ◌<◌, length, take, drop};
ghost use Rattle.rules.specs.Table as words;
ghost use Rattle.sort_tally.specs.Group.{parts_at};
ghost use Rattle.ngram_table.specs.Tables.{table_at};

use sort_order::BIGRAM;
use sort_tally::tally_parts;

// How many bigrams a table counts, and how many of them are distinct.
#[derive(Clone, Copy)]
pub struct TableSize {
    pub total: usize,
    pub distinct: usize,
}

// What ends a word.
const SPACE: u8 = 32;

// Where the bigrams start: where each word starts but the last. Their number comes back.
pub fn bigrams(text: &[u8], p: &mut [u32]) -> usize
    requires text_in_bounds { length (words.bigrams text.now) ≤ length p.old }
    requires text_len_bound { length text.now < 4294967296 }
    ensures many { result ≡ length (words.bigrams text.now) }
    ensures parts { parts_at 32 2 text.now (take result p.new) ≡ words.bigrams text.now }
    ensures rest { drop result p.new ≡ drop result p.old }
{
    let mut k = 0;
    let mut word = 0;
    for (i, x) in text.iter().enumerate() {
        if *x == SPACE {
            p[k] = word;
            k += 1;
            word = i as u32 + 1;
        }
    }
    k
}

// The table of a processed text stands in p: each distinct bigram's start at [0, distinct), its count at [total, total + distinct).
pub fn table(text: &[u8], p: &mut [u32]) -> TableSize
    requires text_in_bounds { length (words.bigrams text.now) + length (words.bigrams text.now) ≤ length p.old }
    requires text_len_bound { length text.now < 4294967296 }
    ensures table { table_at text.now p.new result.total result.distinct ≡ words.table_of (words.bigrams text.now) }
    ensures few { result.distinct ≤ result.total }
    ensures rest { drop (result.total + result.total) p.new ≡ drop (result.total + result.total) p.old }
{
    let total = bigrams(text, p);
    let distinct = tally_parts(text, p, total, BIGRAM);
    TableSize { total, distinct }
}
