// Where a bigram of a text stands to one of a stored table, byte by byte.
// From detection/ngram.rs of spdx 0.13.6 (Copyright 2018 Amazon.com, Inc. or its affiliates. All Rights Reserved.
// SPDX-License-Identifier: Apache-2.0), changed: the order that its map of strings does not need. Assumes nothing.
#![tactic(auto)]

ghost use Rattle.std.specs.Prelude.{◌≡◌, length, drop};
ghost use Prim.Native.Nat.{◌≤◌};
ghost use Rattle.std.proofs.Math.Seq.{slice};
ghost use Rattle.rules.specs.Bytes.{order};
ghost use Rattle.sort_spread.specs.Sort.{part_of};
ghost use Rattle.ngram_order.specs.Sides.{side_of};

use slices::lead;
use sort_order::BIGRAM;
use std::cmp::Ordering;

// Where the bigram that a slice begins with stands to some bytes.
fn compare_first(text: &[u8], bytes: &[u8]) -> Ordering
    ensures { result ≡ side_of (order (part_of 32 2 text.now) bytes.now) }
{
    let mut cut = BIGRAM;
    let mut rest = text.iter();
    for y in bytes {
        let Some(x) = rest.next() else {
            return Ordering::Less;
        };
        if cut.ends_at(*x) {
            return Ordering::Less;
        }
        if *x != *y {
            return x.cmp(y);
        }
        cut = cut.past(*x);
    }
    match rest.next() {
        Some(x) if !cut.ends_at(*x) => Ordering::Greater,
        _ => Ordering::Equal,
    }
}

// Where the bigram of the text that starts at a stands to the bytes [from, to) of the body.
pub fn compare_bigram(text: &[u8], a: usize, body: &[u8], from: usize, to: usize) -> Ordering
    requires { (from ≤ to) × (to ≤ length body.now) }
    ensures { result ≡ side_of (order (part_of 32 2 (drop a text.now)) (slice from to body.now)) }
{
    compare_first(lead::rest(text, a), &body[from..to])
}
