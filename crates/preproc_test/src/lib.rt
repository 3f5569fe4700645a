// The test of a text: too long, not ASCII or, in edition 3, not UTF-8 up to U+00FF, too many lines; and its lines, counted on the same walk.
// From detection/preproc.rs of spdx 0.13.6 (Copyright 2018-2019 Amazon.com, Inc. or its affiliates. All Rights Reserved.
// SPDX-License-Identifier: Apache-2.0), changed: its passes take any text. Assumes nothing.
#![tactic(auto)]

ghost use Rattle.std.specs.Prelude.{◌≡◌, ◌&&◌, option_copied};
ghost use Rattle.rules.specs.Points.{opens};
ghost use Rattle.preproc_test.specs.Counts.{ends, taken_lines, AsTested};

use points::read::{is_lead, is_second};
use rules::{EDITION_WIDE, LINES_MOST, Refusal, TEXT_MOST};

// Whether b opens a character, and the byte after it is the second one of it.
fn pair_ends(b: u8, after: Option<&u8>) -> bool
    ensures { result ≡ (opens b && ends (option_copied after.entry)) }
{
    is_lead(b) && after.is_some_and(|x| is_second(*x))
}

// How many lines there are, where the text is taken. One walk, which takes two bytes at a time where a character has two.
pub fn taken_lines(wide: bool, text: &[u8]) -> Option<usize>
    ensures { result ≡ taken_lines wide text.now }
{
    let mut lines = 1;
    let mut bytes = text.iter();
    while let Some(b) = bytes.next() {
        if 127 < *b {
            if !wide || !pair_ends(*b, bytes.next()) {
                return None;
            }
        } else if *b == 10 {
            lines += 1;
        }
    }
    Some(lines)
}

// The test of the rules under an edition: refusals 1 to 3, or L.
pub fn test_text(edition: u32, text: &[u8]) -> Result<usize, Refusal>
    ensures { AsTested edition text.now result }
{
    if TEXT_MOST < text.len() {
        return Err(Refusal::TextLong);
    }
    let lines = taken_lines(edition == EDITION_WIDE, text).ok_or(Refusal::TextBytes)?;
    if LINES_MOST < lines {
        return Err(Refusal::LinesMany);
    }
    Ok(lines)
}
