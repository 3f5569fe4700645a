// The body of a table, as a book stores it: its length, and its bytes written to lent memory.
// From detection/ngram.rs of spdx 0.13.6 (Copyright 2018 Amazon.com, Inc. or its affiliates. All Rights Reserved.
// SPDX-License-Identifier: Apache-2.0), changed: the table of a text in bytes. Assumes nothing.
#![tactic(auto)]

ghost use Rattle.std.specs.Prelude.{◌≡◌, ◌+◌, ◌≤◌, ◌<◌, length, drop};
ghost use Rattle.lists.specs.Wrote.{Wrote};
ghost use Rattle.rules.specs.Book.{table_out};
ghost use Rattle.records.specs.Written.{put_at};
ghost use Rattle.sort_spread.specs.Sort.{part_of};
ghost use Rattle.ngram_table.specs.Tables.{table_at};
ghost use Rattle.ngram_body.specs.Bodies.{entry_out};

use ngram_table::TableSize;
use records::numbers::write_u32;
use slices::copy::copy_to;
use slices::wide::wide;
use sort_order::BIGRAM;

// The entry of the bigram that starts at a: its count, its length, its bytes, at `at` of the output. The place behind it comes back.
fn put_entry(text: &[u8], a: usize, count: u32, out: &mut [u8], at: usize) -> usize
    requires text_len_bound { length text.now ≤ 16777216 }
    requires text_in_bounds { at + (8 + length (part_of 32 2 (drop a text.now))) ≤ length out.old }
    ensures end { result ≡ at + (8 + length (part_of 32 2 (drop a text.now))) }
    ensures put { out.new ≡ put_at at (entry_out (record { bytes = part_of 32 2 (drop a text.now); count = count })) out.old }
{
    let len = BIGRAM.part_end(text, a) - a;
    write_u32(out, at, count);
    write_u32(out, at + 4, len as u32);
    copy_to(text, a, len, out, at + 8)
}

// The length of the body of the table in p, over the text.
pub fn body_len(text: &[u8], p: &[u32], size: TableSize) -> usize
    requires distinct_le_total { (size.distinct ≤ size.total) × (size.total + size.total ≤ length p.now) × (size.total < 4294967296) }
    requires text_len_bound { length text.now ≤ 16777216 }
    ensures { result ≡ length (table_out (table_at text.now p.now size.total size.distinct)) }
{
    let mut n = 8;
    for i in 0..size.distinct {
        let a = wide(p[i]);
        n += 8 + (BIGRAM.part_end(text, a) - a);
    }
    n
}

// The body of the table in p, over the text, from the front of the output on. Its length comes back.
pub fn put_body(text: &[u8], p: &[u32], size: TableSize, out: &mut [u8]) -> usize
    requires distinct_le_total { (size.distinct ≤ size.total) × (size.total + size.total ≤ length p.now) × (size.total < 4294967296) }
    requires text_len_bound { length text.now ≤ 16777216 }
    requires distinct_in_bounds { length (table_out (table_at text.now p.now size.total size.distinct)) ≤ length out.old }
    ensures { Wrote (table_out (table_at text.now p.now size.total size.distinct)) out.old result out.new }
{
    write_u32(out, 0, size.total as u32);
    write_u32(out, 4, size.distinct as u32);
    let mut w = 8;
    for i in 0..size.distinct {
        w = put_entry(text, wide(p[i]), p[size.total + i], out, w);
    }
    w
}
