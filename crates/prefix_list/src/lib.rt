// The common prefixes of a view's adjacent lines, listed behind all lines; and where in the lines one was taken from.
// From detection/preproc.rs of spdx 0.13.6 (Copyright 2018-2019 Amazon.com, Inc. or its affiliates. All Rights Reserved.
// SPDX-License-Identifier: Apache-2.0), changed: its strings are places in lent areas. Assumes nothing.
#![tactic(auto)]

ghost use Rattle.std.specs.Prelude.{◌≡◌, ◌+◌, ◌*◌, ◌-◌, ◌≤◌, ◌<◌, length, take, [], ◌∷◌, ◌++◌};
ghost use Rattle.std.proofs.Math.Seq.{slice};
ghost use Rattle.rules.specs.Prefix.{prefixes};
ghost use Rattle.rules.specs.Table.{occurs};
ghost use Rattle.slices.specs.Classes.{Classes};
ghost use Rattle.preproc_table.specs.Entries.{view_start, lines_from, Apart};
ghost use Rattle.prefix_list.specs.Listing.{Home, PairLies, Shared, ListStands};
ghost use Rattle.rules.specs.Sizes.{text_most, byte_area, word_area};

use points::encode::longer_than;
use preproc_table::{line_end, line_start, table_end, view_start};
use rules::View;
use slices::class::{SPACE_HIGH, SPACE_LOW};
use slices::copy::copy_up;
use slices::ends::{ByteSpan, bare};
use slices_order::{common_len, equal};

// The first place in the view's lines where the prefix that stands from a up to b was taken from. Linear in the view's lines. The list
// is written over by the joined view, and the lines stay.
pub fn home(
    class: &[u8; 256],
    area: &[u8],
    table: &[u32],
    n: usize,
    count: usize,
    v: View,
    a: usize,
    b: usize,
) -> ByteSpan
    requires classes { Classes class.now × Apart n (view_start n) table.now count × (v.start ≤ v.end) × (v.end ≤ count) × (2 * count ≤ length table.now) × (view_start n ≤ length area.now) }
    requires a_le_b { (a ≤ b) × (b ≤ length area.now) × (0 < occurs (slice a b area.now) (prefixes (lines_from area.now table.now v.start (v.end - v.start)))) }
    ensures { Home n area.now (slice a b area.now) result }
{
    let prefix = &area[a..b];
    let last = v.end.saturating_sub(1);
    for i in v.start..last {
        let s = shared(class, area, table, i);
        if equal(&area[s.start..s.end], prefix) {
            return s;
        }
    }
    ByteSpan { start: n, end: n }
}

// How the list stands: k prefixes, up to the byte `end` of the area.
#[derive(Clone, Copy)]
pub struct Listed {
    pub k: usize,
    pub end: usize,
}

// What lines i and i + 1 have in common, trimmed, as bytes of line i. Linear in line i.
pub fn shared(class: &[u8; 256], area: &[u8], table: &[u32], i: usize) -> ByteSpan
    requires { Classes class.now × (2 * i + 3 < length table.now) × PairLies area.now table.now i }
    ensures { Shared area.now table.now i result }
{
    let start = line_start(table, i);
    let end = line_end(table, i);
    let j = i + 1;
    let next = line_start(table, j);
    let stop = line_end(table, j);
    let line = &area[start..end];
    let k = common_len(line, &area[next..stop]);
    let s = bare(class, SPACE_LOW, SPACE_HIGH, &line[..k]);
    ByteSpan {
        start: start + s.start,
        end: start + s.end,
    }
}

// The bytes from `from` up to `from + k` and a newline, at `to`.
fn put_prefix(area: &mut [u8], from: usize, k: usize, to: usize)
    requires { (from + k ≤ to) × (to + k < length area.old) }
    ensures { take (to + k + 1) area.new ≡ take to area.old ++ (slice from (from + k) area.old ++ 10 ∷ []) }
{
    let end = copy_up(area, from, k, to);
    area[end] = 10;
}

// A common prefix of so many bytes is too short.
const PREFIX_SHORT: usize = 3;

// The prefixes longer than 3 bytes of UTF-8 of the view's adjacent lines, where a view begins in the area; their starts behind the line table. Linear in the
// view's lines: each is compared with its neighbours alone.
pub fn list_prefixes(
    class: &[u8; 256],
    area: &mut [u8],
    words: &mut [u32],
    n: usize,
    count: usize,
    v: View,
) -> Listed
    requires classes { Classes class.now × Apart n (view_start n) words.old count × (v.start ≤ v.end) × (v.end ≤ count) × (count ≤ n + 1) }
    requires n_le_text_most { (n ≤ text_most) × (byte_area n ≤ length area.old) × (word_area n ≤ length words.old) }
    ensures { ListStands n (prefixes (lines_from area.old words.old v.start (v.end - v.start))) area.old words.old result area.new words.new }
{
    let at = table_end(n);
    let last = v.end.saturating_sub(1);
    let mut k = 0;
    let mut w = view_start(n);
    for i in v.start..last {
        let s = shared(class, area, words, i);
        let len = s.end - s.start;
        if longer_than(PREFIX_SHORT, &area[s.start..s.end]) {
            put_prefix(area, s.start, len, w);
            let j = at + k;
            words[j] = w as u32;
            k += 1;
            w = w + len + 1;
        }
    }
    Listed { k, end: w }
}
