// A note's lines in the lent areas, ready to be viewed; and the areas cleared after the work.
// From detection/license.rs of spdx 0.13.6 (Copyright 2018 Amazon.com, Inc. or its affiliates. All Rights Reserved.
// SPDX-License-Identifier: Apache-2.0), changed: `TextData::new`, whose lines are places in one lent area. Assumes nothing.
#![tactic(auto)]

ghost use Rattle.std.specs.Prelude.{◌≡◌, ◌≤◌, length, replicate};
ghost use Rattle.rules.specs.Sizes.{byte_area, word_area};
ghost use Rattle.rules.specs.Lines.{lines_by, line_count};
ghost use Rattle.slices.specs.Classes.{Classes, gap_in};
ghost use Rattle.preproc_test.specs.Counts.{Passed};
ghost use Rattle.preproc_table.specs.Entries.{lines_at};
ghost use Rattle.license_notes.specs.Laid.{Laid};

use preproc_lines::whole::normalise;
use slices::zero::{zero_bytes, zero_words};

// The note's lines stand in the areas, pass 4 by the table's edition; answers how many.
pub fn lay(class: &[u8; 256], text: &[u8], area: &mut [u8], words: &mut [u32]) -> usize
    requires { Classes class.now × Passed text.now × (byte_area (length text.now) ≤ length area.old) × (word_area (length text.now) ≤ length words.old) }
    ensures laid { Laid (length text.now) result area.new words.new }
    ensures lines { lines_at area.new words.new result ≡ lines_by (gap_in class.now) text.now }
    ensures count { result ≡ line_count text.now }
{
    normalise(class, text, area, words)
}

// Every element of both areas is zero.
pub fn clear(area: &mut [u8], words: &mut [u32])
    ensures bytes { area.new ≡ replicate (length area.old) 0 }
    ensures words { words.new ≡ replicate (length words.old) 0 }
{
    zero_bytes(area);
    zero_words(words);
}
