// The job `bounds`: where in a view of a note a stored text stands.
// From detection/license.rs of spdx 0.13.6 (Copyright 2018 Amazon.com, Inc. or its affiliates. All Rights Reserved.
// SPDX-License-Identifier: Apache-2.0), changed: refusals around the work. Assumes nothing.
#![tactic(auto)]

ghost use Rattle.std.specs.Prelude.{[], ◌∷◌, option_copied};
ghost use Rattle.rules.specs.Jobs.{BoundsDone};
ghost use Rattle.rules.specs.Told.{bounded_told};
ghost use Rattle.refusals.specs.Lent.{books_lent};

use bounds_work::bounds_laid;
use license_notes::clear;
use refusals::{admit_view, second_bytes};
use rules::{Areas, Located, Refusal, View};

// Over lent books, one or two: refusals 1 to 5, 8 to 10 and 15, or the bounds. The areas are zero after an answer, and as they were after a refusal.
fn bounds_lent<'a>(
    text: &[u8],
    book: &'a [u8],
    second: Option<&'a [u8]>,
    v: View,
    k: u32,
    area: &mut [u8],
    words: &mut [u32],
) -> Result<Located, Refusal>
    ensures { BoundsDone text.now (books_lent book.now (option_copied second.entry)) v k area.old area.new words.old words.new (bounded_told result) }
{
    let areas = Areas {
        bytes: area.len(),
        words: words.len(),
    };
    let admitted = admit_view(text, book, second, v, k, areas)?;
    let beside = second_bytes(second);
    let located = bounds_laid(text, book, beside, admitted.texts, v, k, area, words);
    clear(area, words);
    Ok(located)
}

// Two books, whose texts count on from the first into the second.
pub fn bounds_both<'a>(
    text: &[u8],
    book: &'a [u8],
    second: &'a [u8],
    v: View,
    k: u32,
    area: &mut [u8],
    words: &mut [u32],
) -> Result<Located, Refusal>
    ensures { BoundsDone text.now (book.now ∷ second.now ∷ []) v k area.old area.new words.old words.new (bounded_told result) }
{
    bounds_lent(text, book, Some(second), v, k, area, words)
}

// One book, refused by its own rows; below them nothing stands beside it.
pub fn bounds_of(
    text: &[u8],
    book: &[u8],
    v: View,
    k: u32,
    area: &mut [u8],
    words: &mut [u32],
) -> Result<Located, Refusal>
    ensures { BoundsDone text.now (book.now ∷ []) v k area.old area.new words.old words.new (bounded_told result) }
{
    bounds_lent(text, book, None, v, k, area, words)
}
