// All lines of a text, normalised into the byte area, with the line table.
// From detection/preproc.rs and license.rs of spdx 0.13.6 (Copyright 2018-2019 Amazon.com, Inc. or its affiliates. All Rights Reserved.
// SPDX-License-Identifier: Apache-2.0), changed: its vectors of strings are places in one lent area. Assumes nothing.
ghost use Rattle.std.specs.Prelude.{◌≤◌, length};
ghost use Rattle.rules.specs.Sizes.{text_most, byte_area, word_area};
ghost use Rattle.slices.specs.Classes.{Classes, gap_in};
ghost use Rattle.preproc_lines.specs.Normalised.{Normalised};

use crate::line::put_line;
use preproc_table::set_line;
use slices::lead::line_len;

// The lines of the text, from its own length on in the area, one byte or more apart; answers how many. Each line is walked a constant
// number of times.
pub fn normalise(class: &[u8; 256], text: &[u8], area: &mut [u8], words: &mut [u32]) -> usize
    requires { Classes class.now × (length text.now ≤ text_most) × (byte_area (length text.now) ≤ length area.old) × (word_area (length text.now) ≤ length words.old) }
    ensures { Normalised (gap_in class.now) text.now area.new words.new result }
{
    let n = text.len();
    let mut at = 0;
    let mut to = n;
    let mut count = 0;
    // A while: a turn goes on by a line's length.
    while at <= n {
        let end = at + line_len(text, at);
        let line = put_line(class, &text[at..end], area, to);
        set_line(words, count, line.start, line.end);
        to = line.end + 1;
        at = end + 1;
        count += 1;
    }
    count
}
