// Aggressive pass 1: which common prefix of a view's lines is stripped.
// From detection/preproc.rs of spdx 0.13.6 (Copyright 2018-2019 Amazon.com, Inc. or its affiliates. All Rights Reserved.
// SPDX-License-Identifier: Apache-2.0), changed. Assumes nothing.
#![tactic(auto)]

ghost use Rattle.std.specs.Prelude.{◌≡◌, true, ◌+◌, ◌≤◌, length, take};
ghost use Rattle.rules.specs.Sizes.{text_most, byte_area, word_area};
ghost use Rattle.rules.specs.Search.{viewed};
ghost use Rattle.slices.specs.Classes.{Classes};
ghost use Rattle.preproc_table.specs.Entries.{table_end, view_start, lines_at, Apart};
ghost use Rattle.prefix_list.specs.Listing.{plain_lines};
ghost use Rattle.prefix_choice.specs.Choice.{Strips};

use prefix_choice::choose;
use prefix_list::{home, list_prefixes};
use preproc_table::table_end;
use rules::View;
use slices::ends::ByteSpan;

// What pass 1 strips from the view's lines, as bytes of the lines' region [n, 4n): the list of prefixes at 4n is written over later.
// n log n in the view's bytes: the sort is, and all else is linear.
pub fn common_prefix(
    class: &[u8; 256],
    area: &mut [u8],
    words: &mut [u32],
    n: usize,
    count: usize,
    v: View,
) -> Option<ByteSpan>
    requires classes { Classes class.now × Apart n (view_start n) words.old count × (v.start ≤ v.end) × (v.end ≤ count) × (count ≤ n + 1) }
    requires n_le_text_most { (n ≤ text_most) × (byte_area n ≤ length area.old) × (word_area n ≤ length words.old) }
    requires count_value { plain_lines (lines_at area.old words.old count) ≡ true }
    ensures strips { Strips n (viewed (lines_at area.old words.old count) v) area.new result }
    ensures area { take (view_start n) area.new ≡ take (view_start n) area.old }
    ensures words { take (table_end n) words.new ≡ take (table_end n) words.old }
{
    let x = list_prefixes(class, area, words, n, count, v);
    if x.k == 0 {
        return None;
    }
    let at = table_end(n);
    let found = choose(&area[..x.end], words, at, x.k, v.end - v.start)?;
    Some(home(class, area, words, n, count, v, found.start, found.end))
}
