// The job `name`: of stored text k, its kind, and where its licence's name stands in the lent books. No text, no area is lent.
// Added to spdx 0.13.6 (detection.rs, Copyright 2018 Amazon.com, Inc. or its affiliates. All Rights Reserved.
// SPDX-License-Identifier: Apache-2.0), whose store hands out names. Assumes nothing.
#![tactic(auto)]

ghost use Rattle.std.specs.Prelude.{◌≡◌, [], ◌∷◌, option_copied};
ghost use Rattle.rules.specs.Jobs.{NameDone};
ghost use Rattle.rules.specs.Told.{named_told};
ghost use Rattle.refusals.specs.Lent.{books_lent};

use detection_shelf::stored_on;
use refusals::{admit_books, second_bytes};
use rules::{Licence, Named, Refusal};

// Over lent books, two or one: refusals 4, 5, 9 and 15, or the licence that the text stands under.
fn name_lent(book: &[u8], second: Option<&[u8]>, k: u32) -> Result<Licence, Refusal>
    ensures { NameDone (books_lent book.now (option_copied second.entry)) k (named_told result) }
{
    let counts = admit_books(book, second)?;
    if counts.all <= k {
        return Err(Refusal::Number);
    }
    let held = stored_on(book, second_bytes(second), counts, k);
    let text = held.text;
    Ok(Licence {
        kind: text.kind,
        part: Named {
            second: held.second,
            at: text.name,
            len: text.past - text.name,
        },
    })
}

// Two books, whose texts count on from the first into the second.
pub fn name_both(book: &[u8], second: &[u8], k: u32) -> Result<Licence, Refusal>
    ensures { NameDone (book.now ∷ second.now ∷ []) k (named_told result) }
{
    name_lent(book, Some(second), k)
}

// One book, refused by its own rows; below them nothing stands beside it.
pub fn name_of(book: &[u8], k: u32) -> Result<Licence, Refusal>
    ensures { NameDone (book.now ∷ []) k (named_told result) }
{
    name_lent(book, None, k)
}
