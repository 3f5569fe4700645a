// Aggressive pass 6: what a copyright notice takes at a place, by its forms A, B and C, if one hits there. Each matcher reads a lent
// slice from a place on; a place past the end is the empty rest.
// From detection/preproc.rs of spdx 0.13.6 (Copyright 2018-2019 Amazon.com, Inc. or its affiliates. All Rights Reserved.
// SPDX-License-Identifier: Apache-2.0), changed: the pattern `copyright`, written out. Assumes that the lent table is that of the classes.
#![tactic(auto)]

ghost use Rattle.std.specs.Prelude.{◌≡◌, ◌+◌, ◌≤◌, length, drop};
ghost use Rattle.rules.specs.Bytes.{digit, lead, holds};
ghost use Rattle.rules.specs.Passes.{paragraph, hit_a, hit_b, item, spaced, items, hit_c, hit};
ghost use Rattle.slices.specs.Classes.{Classes};
ghost use Rattle.preproc_copyright.specs.Takes.{Takes};

use slices::class::{FOUR, OTHER_DIGIT, SPACE_HIGH, SPACE_LOW};
use slices::lead::{byte_run, either_len, line_len, run_len};
use slices_order::starts_with;

// A run, unless it is empty.
fn some_run(n: usize) -> Option<usize>
    ensures { Takes result n }
{
    if n == 0 { None } else { Some(n) }
}

// After k bytes one line of spaces, `copyright` and anything, then two newlines. Reads the line only where `copyright` begins it, and
// so each line once: from the two newlines before it.
fn paragraph_len(s: &[u8], at: usize, k: usize) -> Option<usize>
    requires { at + k ≤ length s.now }
    ensures { Takes result (paragraph k (drop at s.now)) }
{
    let l = at + k;
    let blank = byte_run(s, l, b' ');
    if starts_with(s, l + blank, b"copyright") {
        let n = line_len(s, l);
        if starts_with(s, l + n, b"\n\n") {
            return Some(k + n + 2);
        }
    }
    None
}

// A: a paragraph after two newlines or, at the start of the text, after all leading newlines.
pub fn hit_a(s: &[u8], at: usize, start: bool) -> Option<usize>
    requires { at ≤ length s.now }
    ensures { Takes result (hit_a start (drop at s.now)) }
{
    if start {
        let k = byte_run(s, at, b'\n');
        return paragraph_len(s, at, k);
    }
    if starts_with(s, at, b"\n\n") {
        return paragraph_len(s, at, 2);
    }
    None
}

// Whether w stands somewhere from the place on.
fn holds_word(s: &[u8], at: usize, w: &[u8]) -> bool
    ensures { result ≡ holds w.now (drop at s.now) }
{
    for i in at..s.len() {
        if starts_with(s, i, w) {
            return true;
        }
    }
    starts_with(s, s.len(), w)
}

// B: at the start of the text the whole first line, if it holds `copyright`. So it reads a line once for each text.
fn hit_b(s: &[u8], at: usize, start: bool) -> Option<usize>
    requires { at ≤ length s.now }
    ensures { Takes result (hit_b start (drop at s.now)) }
{
    if start {
        let n = line_len(s, at);
        let e = at + n;
        if holds_word(&s[..e], at, b"copyright") {
            return some_run(n);
        }
    }
    None
}

// How many digits stand here: the 4 has a class of its own.
fn digit_run(class: &[u8; 256], s: &[u8], at: usize) -> usize
    requires { Classes class.now }
    ensures { result ≡ lead digit (drop at s.now) }
{
    either_len(class, FOUR, FOUR, OTHER_DIGIT, OTHER_DIGIT, s, at)
}

// C's item: `c`, or a run of digits.
fn item_len(class: &[u8; 256], s: &[u8], at: usize) -> Option<usize>
    requires { Classes class.now }
    ensures { Takes result (item (drop at s.now)) }
{
    if s.len() <= at {
        return None;
    }
    if s[at] == b'c' {
        return Some(1);
    }
    some_run(digit_run(class, s, at))
}

// One or more spaces, and an item.
fn spaced_len(class: &[u8; 256], s: &[u8], at: usize) -> Option<usize>
    requires { Classes class.now × (at ≤ length s.now) }
    ensures { Takes result (spaced (drop at s.now)) }
{
    let k = some_run(run_len(class, SPACE_LOW, SPACE_HIGH, s, at))?;
    let d = item_len(class, s, at + k)?;
    Some(k + d)
}

// As many of these as fit. Linear: each try goes on from where the last one ended, and the one that fails reads spaces alone.
fn items_len(class: &[u8; 256], s: &[u8], at: usize) -> Option<usize>
    requires { Classes class.now × (at ≤ length s.now) }
    ensures { Takes result (items 0 (drop at s.now)) }
{
    let mut i = at;
    while let Some(n) = spaced_len(class, s, i) {
        i += n;
    }
    some_run(i - at)
}

// C: at a line's start `copyright`, one or more of these, then the rest of that line. What it reads it takes, but for the spaces behind
// `copyright` where no item follows them.
fn hit_c(class: &[u8; 256], s: &[u8], at: usize, fresh: bool) -> Option<usize>
    requires { Classes class.now }
    ensures { Takes result (hit_c fresh (drop at s.now)) }
{
    if fresh && starts_with(s, at, b"copyright") {
        let p = at + 9;
        let n = items_len(class, s, p)?;
        return Some(9 + n + line_len(s, p + n));
    }
    None
}

// What the hit at the place takes, if there is one. `start`: the text starts here; `fresh`: a line does. Elsewhere only a newline can
// begin a hit, and one test sees that none does.
pub fn hit_len(class: &[u8; 256], s: &[u8], at: usize, start: bool, fresh: bool) -> Option<usize>
    requires { Classes class.now × (at ≤ length s.now) }
    ensures { Takes result (hit start fresh (drop at s.now)) }
{
    hit_a(s, at, start)
        .or_else(|| hit_b(s, at, start))
        .or_else(|| hit_c(class, s, at, fresh))
}
