// The lines of a view, joined by newline in the byte area behind all lines; with a prefix stripped, where there is one.
// From detection/preproc.rs and license.rs of spdx 0.13.6 (Copyright 2018-2019 Amazon.com, Inc. or its affiliates. All Rights Reserved.
// SPDX-License-Identifier: Apache-2.0), changed: its strings are places in one lent area. Assumes that the lent table is that of the
// classes.
#![tactic(auto)]

ghost use Rattle.std.specs.Prelude.{◌+◌, ◌*◌, ◌≤◌, ◌<◌, length};
ghost use Rattle.preproc_table.specs.Entries.{start_at, end_at};
ghost use Rattle.rules.specs.Bytes.{join};
ghost use Rattle.slices.specs.Classes.{Classes};
ghost use Rattle.preproc_join.specs.Joins.{LiesBelow, Past, Left, Puts, Put, Added, Below, Joined, tails, view_lines};

use preproc_table::{line_end, line_start};
use slices::class::{SPACE_HIGH, SPACE_LOW};
use slices::copy::copy_up;
use slices::ends::{ByteSpan, bare};
use slices_order::starts_with;

// Where the line from a up to e goes on behind the bytes of p, if it starts with them.
fn past_prefix(area: &[u8], a: usize, e: usize, p: ByteSpan) -> usize
    requires { (a ≤ e) × (e ≤ length area.now) × (p.start ≤ p.end) × (p.end ≤ length area.now) }
    ensures { Past area.now a e p result }
{
    if starts_with(&area[..e], a, &area[p.start..p.end]) {
        return a + (p.end - p.start);
    }
    a
}

// What is left of line i: without the bytes of p and the spaces around, where p is to be stripped.
fn line_part(
    class: &[u8; 256],
    area: &[u8],
    table: &[u32],
    i: usize,
    p: Option<ByteSpan>,
) -> ByteSpan
    requires { Classes class.now × (2 * i + 1 < length table.now) × (start_at table.now i ≤ end_at table.now i) × (end_at table.now i ≤ length area.now) × LiesBelow p (length area.now) }
    ensures { Left area.now table.now i p result }
{
    let a = line_start(table, i);
    let e = line_end(table, i);
    match p {
        Some(prefix) => {
            let k = past_prefix(area, a, e, prefix);
            let s = bare(class, SPACE_LOW, SPACE_HIGH, &area[k..e]);
            ByteSpan {
                start: k + s.start,
                end: k + s.end,
            }
        }
        None => ByteSpan { start: a, end: e },
    }
}

// What is left of line i, copied to `to`; answers where it ends.
fn put_part(
    class: &[u8; 256],
    area: &mut [u8],
    table: &[u32],
    i: usize,
    p: Option<ByteSpan>,
    to: usize,
) -> usize
    requires { Puts class.now area.old table.now i p to }
    ensures { Put area.old table.now i p to result area.new }
{
    let s = line_part(class, area, table, i, p);
    copy_up(area, s.start, s.end - s.start, to)
}

// The lines from `first` up to `end`, with what is left of each behind a newline, from `to` on; answers where they end. One walk over
// the bytes of the lines.
fn put_rest(
    class: &[u8; 256],
    area: &mut [u8],
    table: &[u32],
    first: usize,
    end: usize,
    p: Option<ByteSpan>,
    to: usize,
) -> usize
    requires { Below class.now table.now end p to × (first ≤ end) × (to + length (tails (view_lines area.old table.now first end p)) ≤ length area.old) }
    ensures { Added (tails (view_lines area.old table.now first end p)) area.old to result area.new }
{
    let mut w = to;
    for i in first..end {
        area[w] = b'\n';
        w = put_part(class, area, table, i, p, w + 1);
    }
    w
}

// The same lines joined by newline; answers how long the text is.
pub fn join_lines(
    class: &[u8; 256],
    area: &mut [u8],
    table: &[u32],
    first: usize,
    end: usize,
    p: Option<ByteSpan>,
    to: usize,
) -> usize
    requires { Below class.now table.now end p to × (to + length (join (view_lines area.old table.now first end p)) ≤ length area.old) }
    ensures { Joined (join (view_lines area.old table.now first end p)) area.old to result area.new }
{
    if end <= first {
        return 0;
    }
    let w = put_part(class, area, table, first, p, to);
    put_rest(class, area, table, first + 1, end, p, w) - to
}
