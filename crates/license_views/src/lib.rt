// A view's table in the lent areas.
// From detection/license.rs of spdx 0.13.6 (Copyright 2018 Amazon.com, Inc. or its affiliates. All Rights Reserved.
// SPDX-License-Identifier: Apache-2.0), changed: `with_view`. Assumes nothing.
#![tactic(auto)]

ghost use Rattle.std.specs.Prelude.{◌≡◌, ◌≤◌};
ghost use Rattle.rules.specs.Table.{view_table};
ghost use Rattle.rules.specs.Search.{viewed};
ghost use Rattle.slices.specs.Classes.{Classes};
ghost use Rattle.preproc_table.specs.Entries.{lines_at};
ghost use Rattle.license_notes.specs.Laid.{Laid, Held};
ghost use Rattle.license_views.specs.Tabled.{Tabled, Processed, table_over};

use ngram_table::table;
use prefix::common_prefix;
use preproc_table::table_end;
use preproc_view::process::process_with;
use rules::View;
use slices::ends::ByteSpan;

// A view's processed text, area[start..end], and its table's size.
#[derive(Clone, Copy)]
pub struct Viewed {
    pub start: usize,
    pub end: usize,
    pub total: usize,
    pub distinct: usize,
}

// The aggressive passes on a view: pass 1 chooses, the others work in place.
pub fn process(
    class: &[u8; 256],
    area: &mut [u8],
    words: &mut [u32],
    n: usize,
    lines: usize,
    v: View,
) -> ByteSpan
    requires classes { Classes class.now × Laid n lines area.old words.old }
    requires start_le_end { (v.start ≤ v.end) × (v.end ≤ lines) }
    ensures { Processed n lines v area.old words.old result area.new words.new }
{
    let common = common_prefix(class, area, words, n, lines, v);
    process_with(class, area, words, n, v, common)
}

// The table of a view: its processed text in the byte area's upper part, its bigrams behind the line table. n log n in the view.
pub fn view_table(
    class: &[u8; 256],
    area: &mut [u8],
    words: &mut [u32],
    n: usize,
    lines: usize,
    v: View,
) -> Viewed
    requires classes { Classes class.now × Laid n lines area.old words.old }
    requires start_le_end { (v.start ≤ v.end) × (v.end ≤ lines) }
    ensures stands { Tabled n area.new words.new result }
    ensures table { table_over area.new result ≡ view_table (viewed (lines_at area.old words.old lines) v) }
    ensures held { Held n lines area.old words.old area.new words.new }
{
    let p = process(class, area, words, n, lines, v);
    let from = table_end(n);
    let size = table(&area[p.start..p.end], &mut words[from..]);
    Viewed {
        start: p.start,
        end: p.end,
        total: size.total,
        distinct: size.distinct,
    }
}
