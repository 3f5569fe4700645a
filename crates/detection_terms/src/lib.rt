// The words of a table's entry, in ASCII or, in edition 3, in UTF-8 up to U+00FF. Its bytes are walked once.
// From detection.rs of spdx 0.13.6 (Copyright 2018 Amazon.com, Inc. or its affiliates. All Rights Reserved.
// SPDX-License-Identifier: Apache-2.0), changed: the store is a book of records, and what it holds is tested. Assumes nothing.
#![tactic(auto)]

ghost use Rattle.std.specs.Prelude.{◌≡◌, ◌≤◌, drop};
ghost use Rattle.rules.specs.Bytes.{split};
ghost use Rattle.rules.specs.Book.{two_terms};
ghost use Rattle.detection_terms.specs.Terms.{term_point, plain_term, wide_term};

use points::read::{is_lead, is_second, point_of};

// a-z, 0-9 or `_`. The letters first, by themselves: they are most of what a book holds.
#[tactic(auto, unfolding(rules::specs::Bytes::within, rules::specs::Bytes::among, rules::specs::Bytes::lower, rules::specs::Bytes::digit, crate::specs::Terms::term_point, crate::specs::Terms::plain_term))]
fn is_plain(x: u8) -> bool
    ensures { result ≡ plain_term x }
{
    if matches!(x, b'a'..=b'z') {
        return true;
    }
    matches!(x, b'0'..=b'9') || x == b'_'
}

// A letter above 127 that lower case leaves.
#[tactic(auto, unfolding(rules::specs::Bytes::within, rules::specs::Bytes::among, rules::specs::Bytes::lower, rules::specs::Bytes::digit, crate::specs::Terms::term_point))]
fn is_wide(p: u8) -> bool
    requires { 128 ≤ p }
    ensures { result ≡ term_point p }
{
    matches!(p, 170 | 181 | 186 | 223..=246 | 248..=255)
}

// Whether x opens such a letter, and what stands at i is its second byte.
fn wide_at(s: &[u8], x: u8, i: usize) -> bool
    ensures { result ≡ wide_term x (drop i s.now) }
{
    if !is_lead(x) {
        return false;
    }
    if s.len() <= i {
        return false;
    }
    let y = s[i];
    is_second(y) && is_wide(point_of(x, y))
}

// Two words with one space between. `start`: where the second begins, 0 as long as the first is read. One walk, the plain bytes first: they are most
// of what a book holds. A while: a letter of two bytes is passed in one turn.
pub fn two_terms(wide: bool, s: &[u8]) -> bool
    ensures { result ≡ two_terms wide (split 32 s.now) }
{
    let mut start = 0;
    let mut i = 0;
    while i < s.len() {
        let x = s[i];
        i += 1;
        if is_plain(x) {
            continue;
        }
        if x == 32 {
            if start != 0 {
                return false;
            }
            if i == 1 {
                return false;
            }
            start = i;
            continue;
        }
        if !wide {
            return false;
        }
        if !wide_at(s, x, i) {
            return false;
        }
        i += 1;
    }
    0 < start && start < s.len()
}
