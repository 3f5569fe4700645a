// Two byte strings: whether one starts with the other, what they have in common, and their order.
// From detection/preproc.rs of spdx 0.13.6 (Copyright 2018-2019 Amazon.com, Inc. or its affiliates. All Rights Reserved.
// SPDX-License-Identifier: Apache-2.0), changed: what it has of the standard library. Assumes nothing.
#![tactic(auto)]

ghost use Rattle.std.specs.Prelude.{◌≡◌, length, drop};
ghost use Rattle.rules.specs.Bytes.{starts, order, same, rises};
ghost use Rattle.rules.specs.Prefix.{common};
ghost use Rattle.slices_order.specs.Order.{ordering_of};

use slices::lead::rest;
use std::cmp::Ordering;

// s, from the place on, starts with w. Linear in w.
pub fn starts_with(s: &[u8], at: usize, w: &[u8]) -> bool
    ensures { result ≡ starts w.now (drop at s.now) }
{
    // An index walk that leaves at the first byte that differs: by the library's `starts_with` it takes longer.
    let left = rest(s, at);
    if left.len() < w.len() {
        return false;
    }
    for i in 0..w.len() {
        if w[i] != left[i] {
            return false;
        }
    }
    true
}

// The length of the common prefix. Linear in it.
pub fn common_len(a: &[u8], b: &[u8]) -> usize
    ensures { result ≡ length (common a.now b.now) }
{
    // An index walk: as a chain of iterators it takes longer.
    let n = a.len().min(b.len());
    for i in 0..n {
        if a[i] != b[i] {
            return i;
        }
    }
    n
}

// Linear in the common prefix.
#[tactic(auto, using(crate::proofs::OrderLaws::order_is))]
pub fn compare(a: &[u8], b: &[u8]) -> Ordering
    ensures { result ≡ ordering_of (order a.now b.now) }
{
    a.cmp(b)
}

#[tactic(auto, using(crate::proofs::OrderLaws::same_is))]
pub fn equal(a: &[u8], b: &[u8]) -> bool
    ensures { result ≡ same a.now b.now }
{
    a == b
}

// b stands strictly above a.
#[tactic(auto, using(crate::proofs::OrderLaws::rises_is))]
pub fn above(a: &[u8], b: &[u8]) -> bool
    ensures { result ≡ rises a.now b.now }
{
    compare(a, b).is_lt()
}
