// The line table: two numbers for each line, where it starts and where it ends in the byte area; and lines made blank. Only these functions touch its form.
// From detection/license.rs of spdx 0.13.6 (Copyright 2018-2019 Amazon.com, Inc. or its affiliates. All Rights Reserved.
// SPDX-License-Identifier: Apache-2.0), changed: its vector of strings. Assumes nothing.
#![tactic(auto)]

ghost use Rattle.std.specs.Prelude.{◌≡◌, ◌+◌, ◌*◌, ◌<◌, ◌≤◌, ◌^◌, length};
ghost use Rattle.preproc_table.specs.Entries.{table_end, view_start, start_at, end_at, entry_set, blanked, Blanked};

// Where the line table of a text of n bytes ends in the words: a text has n + 1 lines at most, each two numbers.
pub fn table_end(n: usize) -> usize
    requires { table_end n < 2 ^ 64 }
    ensures { result ≡ table_end n }
{
    2 * n + 2
}

// Where a view begins in the byte area of a text of n bytes: its lines lie in [n, 4n).
pub fn view_start(n: usize) -> usize
    requires { view_start n < 2 ^ 64 }
    ensures { result ≡ view_start n }
{
    4 * n
}

// Where line i starts.
pub fn line_start(table: &[u32], i: usize) -> usize
    requires { 2 * i + 1 < length table.now }
    ensures { result ≡ start_at table.now i }
{
    table[2 * i] as usize
}

// Where line i ends.
pub fn line_end(table: &[u32], i: usize) -> usize
    requires { 2 * i + 1 < length table.now }
    ensures { result ≡ end_at table.now i }
{
    table[2 * i + 1] as usize
}

// Line i is made the bytes from start up to end.
pub fn set_line(table: &mut [u32], i: usize, start: usize, end: usize)
    requires { (2 * i + 1 < length table.old) × (start < 2 ^ 32) × (end < 2 ^ 32) }
    ensures { table.new ≡ entry_set table.old i start end }
{
    table[2 * i] = start as u32;
    table[2 * i + 1] = end as u32;
}

// Line i is made empty: it ends where it starts.
pub fn blank_line(table: &mut [u32], i: usize)
    requires { 2 * i + 1 < length table.old }
    ensures { table.new ≡ blanked table.old i }
{
    table[2 * i + 1] = table[2 * i];
}

// The lines from a up to e are made blank: white-out, which touches the table only. One walk.
pub fn blank_lines(table: &mut [u32], a: usize, e: usize)
    requires { (a ≤ e) × (2 * e ≤ length table.old) }
    ensures { Blanked a e table.old table.new }
{
    for i in a..e {
        blank_line(table, i);
    }
}
