// What a record's body must be: a name or an alias, or a table of counted bigrams. Each test walks its bytes once.
// From detection.rs of spdx 0.13.6 (Copyright 2018 Amazon.com, Inc. or its affiliates. All Rights Reserved.
// SPDX-License-Identifier: Apache-2.0), changed: the store is a book of records. Assumes nothing.
#![tactic(auto)]

ghost use Rattle.std.specs.Prelude.{◌≡◌, ◌&&◌, ◌≤◌, eqb, ltb, length, drop};
ghost use Rattle.rules.specs.Bytes.{within as within_b, split, rises};
ghost use Rattle.rules.specs.Book.{number, two_terms, entries_of, sound_table, sound_name};

use detection_terms::two_terms;
use records::numbers::read_u32;
use records::pieces::entry_at;
use rules::{NAME_MOST, TOTAL_MOST};

// 1 to 64 bytes of 33 to 126.
pub fn name_sound(s: &[u8]) -> bool
    ensures { result ≡ sound_name s.now }
{
    if s.is_empty() {
        return false;
    }
    if NAME_MOST < s.len() {
        return false;
    }
    s.iter().all(|x| printed(*x))
}

#[tactic(auto, unfolding(rules::specs::Bytes::within))]
fn printed(x: u8) -> bool
    ensures { result ≡ within_b 33 126 x }
{
    x.is_ascii_graphic()
}

// An entry of a table after the entry `last`, which is empty for the first. `wide`: its words may be UTF-8.
fn entry_sound(wide: bool, last: &[u8], count: u32, bytes: &[u8]) -> bool
    ensures { result ≡ (ltb 0 count && two_terms wide (split 32 bytes.now) && rises last.now bytes.now) }
{
    count != 0 && two_terms(wide, bytes) && is_above(last, bytes)
}

// b stands strictly above a. A walk of its own: by the slice's `cmp` the check of a book takes a tenth more.
fn is_above(a: &[u8], b: &[u8]) -> bool
    ensures { result ≡ rises a.now b.now }
{
    for i in 0..a.len() {
        if b.len() <= i {
            return false;
        }
        if a[i] < b[i] {
            return true;
        }
        if b[i] < a[i] {
            return false;
        }
    }
    a.len() < b.len()
}

// The total and the number of entries that the body's head names.
fn totals_are(body: &[u8], sum: u64, entries: u64) -> bool
    requires { 8 ≤ length body.now }
    ensures { result ≡ (eqb (number 4 body.now) sum && eqb (number 4 (drop 4 body.now)) entries) }
{
    read_u32(body, 0) as u64 == sum && read_u32(body, 4) as u64 == entries
}

// The entry before the one at `at` is body[last..at]: the empty part stands before the first. The sum is tested before the next
// is added, so it never wraps, whatever the body.
fn walk_table(wide: bool, body: &[u8]) -> bool
    ensures { result ≡ sound_table wide body.now (entries_of body.now) }
{
    if body.len() < 8 {
        return false;
    }
    let mut at: usize = 8;
    let mut last: usize = 8;
    let mut sum: u64 = 0;
    let mut entries: u64 = 0;
    loop {
        let Ok(found) = entry_at(body, at) else {
            return false;
        };
        let Some(entry) = found else {
            return totals_are(body, sum, entries);
        };
        let end = entry.start + entry.len;
        if !entry_sound(wide, &body[last..at], entry.count, &body[entry.start..end]) {
            return false;
        }
        sum += entry.count as u64;
        if TOTAL_MOST < sum {
            return false;
        }
        entries += 1;
        last = entry.start;
        at = end;
    }
}

// Called by a constant: so the walk, which most of a check is, is compiled by itself and not amid the check of a whole book.
pub fn table_sound(wide: bool, body: &[u8]) -> bool
    ensures { result ≡ sound_table wide body.now (entries_of body.now) }
{
    if wide {
        return walk_table(true, body);
    }
    walk_table(false, body)
}
