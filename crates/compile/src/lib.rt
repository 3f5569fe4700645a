// The job `compile`: a text's table under an edition, as the body that a book stores.
// From detection/license.rs and ngram.rs of spdx 0.13.6 (Copyright 2018 Amazon.com, Inc. or its affiliates. All Rights Reserved.
// SPDX-License-Identifier: Apache-2.0), changed: the table goes to lent memory as bytes. Assumes nothing.
#![tactic(auto)]

ghost use Rattle.std.specs.Prelude.{◌≡◌, ◌≤◌, length, replicate};
ghost use Rattle.rules.specs.Sizes.{byte_area, word_area};
ghost use Rattle.rules.specs.Book.{table_out, compiled};
ghost use Rattle.rules.specs.Jobs.{CompileDone};
ghost use Rattle.rules.specs.Told.{compiled_told};
ghost use Rattle.preproc_test.specs.Counts.{Passed};
ghost use Rattle.license_views.specs.Tabled.{Tabled, table_over};
ghost use Rattle.compile.specs.Bodied.{Bodied};

use license_notes::{clear, lay};
use license_views::{Viewed, view_table};
use ngram_body::{body_len, put_body};
use ngram_table::TableSize;
use preproc_table::table_end;
use refusals::admit_compile;
use rules::{Areas, Refusal, View};
use slices::class::class_table;

// The body of the table that stands in the areas, at the front of the output, where it fits.
fn write_body(
    area: &[u8],
    words: &[u32],
    n: usize,
    t: Viewed,
    out: &mut [u8],
) -> Result<usize, Refusal>
    requires { Tabled n area.now words.now t }
    ensures { Bodied (table_out (table_over area.now t)) out.old result out.new }
{
    let start = t.start;
    let end = t.end;
    let from = table_end(n);
    let size = TableSize {
        total: t.total,
        distinct: t.distinct,
    };
    let len = body_len(&area[start..end], &words[from..], size);
    if out.len() < len {
        return Err(Refusal::OutputShort);
    }
    put_body(&area[start..end], &words[from..], size, out);
    Ok(len)
}

// The work, on a text that is let through in areas that fit. Both areas are zero after it.
pub fn compile_through(
    text: &[u8],
    edition: u32,
    area: &mut [u8],
    words: &mut [u32],
    out: &mut [u8],
) -> Result<usize, Refusal>
    requires { Passed text.now × (byte_area (length text.now) ≤ length area.old) × (word_area (length text.now) ≤ length words.old) }
    ensures body { Bodied (compiled edition text.now) out.old result out.new }
    ensures bytes { area.new ≡ replicate (length area.old) 0 }
    ensures words { words.new ≡ replicate (length words.old) 0 }
{
    let class = class_table(edition);
    let n = text.len();
    let lines = lay(&class, text, area, words);
    let whole = View {
        start: 0,
        end: lines,
    };
    let t = view_table(&class, area, words, n, lines, whole);
    let answer = write_body(area, words, n, t, out);
    clear(area, words);
    answer
}

// Any text, any edition, any lent memory. n log n in the text.
pub fn compile(
    text: &[u8],
    edition: u32,
    area: &mut [u8],
    words: &mut [u32],
    out: &mut [u8],
) -> Result<usize, Refusal>
    ensures { CompileDone edition text.now area.old area.new words.old words.new out.old out.new (compiled_told result) }
{
    let areas = Areas {
        bytes: area.len(),
        words: words.len(),
    };
    admit_compile(text, edition, areas)?;
    compile_through(text, edition, area, words, out)
}
