// The job `score`: a view of a note against a stored text.
// From detection/license.rs of spdx 0.13.6 (Copyright 2018 Amazon.com, Inc. or its affiliates. All Rights Reserved.
// SPDX-License-Identifier: Apache-2.0), changed: refusals around the work. Assumes nothing.
#![tactic(auto)]

ghost use Rattle.std.specs.Prelude.{[], ◌∷◌, option_copied};
ghost use Rattle.rules.specs.Jobs.{ScoreDone};
ghost use Rattle.rules.specs.Told.{scored_told};
ghost use Rattle.refusals.specs.Lent.{books_lent};

use license_notes::clear;
use refusals::{admit_view, second_bytes};
use rules::{Areas, Refusal, Value, View};
use score_work::score_laid;

// Over lent books, one or two: refusals 1 to 5, 8 to 10 and 15, or the score. The areas are zero after an answer, and as they were after a refusal.
fn score_lent<'a>(
    text: &[u8],
    book: &'a [u8],
    second: Option<&'a [u8]>,
    v: View,
    k: u32,
    area: &mut [u8],
    words: &mut [u32],
) -> Result<Value, Refusal>
    ensures { ScoreDone text.now (books_lent book.now (option_copied second.entry)) v k area.old area.new words.old words.new (scored_told result) }
{
    let areas = Areas {
        bytes: area.len(),
        words: words.len(),
    };
    let admitted = admit_view(text, book, second, v, k, areas)?;
    let beside = second_bytes(second);
    let value = score_laid(text, book, beside, admitted.texts, v, k, area, words);
    clear(area, words);
    Ok(value)
}

// Two books, whose texts count on from the first into the second.
pub fn score_both<'a>(
    text: &[u8],
    book: &'a [u8],
    second: &'a [u8],
    v: View,
    k: u32,
    area: &mut [u8],
    words: &mut [u32],
) -> Result<Value, Refusal>
    ensures { ScoreDone text.now (book.now ∷ second.now ∷ []) v k area.old area.new words.old words.new (scored_told result) }
{
    score_lent(text, book, Some(second), v, k, area, words)
}

// One book, refused by its own rows; below them nothing stands beside it.
pub fn score_view(
    text: &[u8],
    book: &[u8],
    v: View,
    k: u32,
    area: &mut [u8],
    words: &mut [u32],
) -> Result<Value, Refusal>
    ensures { ScoreDone text.now (book.now ∷ []) v k area.old area.new words.old words.new (scored_told result) }
{
    score_lent(text, book, None, v, k, area, words)
}
