// Aggressive pass 5: the title. Each matcher reads a lent slice from a place on; a place past the end is the empty rest.
// From detection/preproc.rs of spdx 0.13.6 (Copyright 2018-2019 Amazon.com, Inc. or its affiliates. All Rights Reserved.
// SPDX-License-Identifier: Apache-2.0), changed: the pattern `title`, written out. Assumes that the lent table is that of the classes.
#![tactic(auto)]

ghost use Rattle.std.specs.Prelude.{◌≡◌, ◌≤◌, length, drop};
ghost use Rattle.rules.specs.Passes.{title_end, title_rest, title_line, without_title};
ghost use Rattle.slices.specs.Classes.{Classes};
ghost use Rattle.preproc_title.specs.Matches.{title_here};

use slices::class::{SPACE_HIGH, SPACE_LOW};
use slices::lead::{line_len, other_len};
use slices_order::starts_with;

// The line ends here, or goes on with ` copyright`.
fn title_end(s: &[u8], at: usize) -> bool
    ensures { result ≡ title_end (drop at s.now) }
{
    s.len() <= at || starts_with(s, at, b" copyright")
}

// What may follow `license`: ` version ` with what it names, and then the line's end.
fn title_rest(class: &[u8; 256], s: &[u8], at: usize) -> bool
    requires { Classes class.now }
    ensures { result ≡ title_rest (drop at s.now) }
{
    if title_end(s, at) {
        return true;
    }
    if starts_with(s, at, b" version ") {
        let v = at + 9;
        let named = other_len(class, SPACE_LOW, SPACE_HIGH, s, v);
        return 0 < named && title_end(s, v + named);
    }
    false
}

// `license` stands here, and its rest ends the line.
fn title_at(class: &[u8; 256], s: &[u8], at: usize) -> bool
    requires { Classes class.now }
    ensures { result ≡ title_here (drop at s.now) }
{
    starts_with(s, at, b"license") && title_rest(class, s, at + 7)
}

// Some `license` of the line has a rest that ends it. Linear: two tries after ` version ` read different bytes, since what it names
// holds no space.
fn title_line(class: &[u8; 256], line: &[u8]) -> bool
    requires { Classes class.now }
    ensures { result ≡ title_line line.now }
{
    for i in 0..line.len() {
        if title_at(class, line, i) {
            return true;
        }
    }
    false
}

// How many bytes at the start go: a title's line and the two newlines that follow it, or none.
pub fn title_len(class: &[u8; 256], s: &[u8]) -> usize
    requires { Classes class.now }
    ensures { (result ≤ length s.now) × (without_title s.now ≡ drop result s.now) }
{
    let n = line_len(s, 0);
    if starts_with(s, n, b"\n\n") {
        if title_line(class, &s[..n]) {
            return n + 2;
        }
    }
    0
}
