// Line passes 4 and 5 in one walk: each run of gaps, quotes, dashes, opening and closing signs and underscores becomes one byte.
// From detection/preproc.rs of spdx 0.13.6 (Copyright 2018-2019 Amazon.com, Inc. or its affiliates. All Rights Reserved.
// SPDX-License-Identifier: Apache-2.0), changed: six patterns, as one walk over lent memory. Assumes nothing.
#![tactic(auto)]

ghost use Rattle.std.specs.Prelude.{◌≡◌, false, not, ◌||◌, ◌<◌, nat_eq, get_or, is_some, MatchOption};
ghost use Rattle.std.specs.Option.{option_eq};
ghost use Rattle.lists.specs.Wrote.{InFront};
ghost use Rattle.rules.specs.Bytes.{runs};
ghost use Rattle.rules.specs.Lines.{signs};
ghost use Rattle.slices.specs.Classes.{Classes, gap_in};
ghost use Rattle.preproc_signs.specs.Signs.{kinds, sign_in};

use slices::class::{CLOSING, DASH, GAP_HIGH, GAP_LOW, OPENING, QUOTE, UNDERSCORE};

// What b becomes, by its class; none where it stays. Most are letters, classes 10 and 11, and gaps: each is told by two tests first, which is faster.
#[tactic(auto, using(crate::proofs::SignLaws::sign_of_class))]
fn sign_of(class: &[u8; 256], b: u8) -> Option<u8>
    ensures { MatchOption result (sign_in kinds (get_or class.now b 0) ≡ 0) (λ s. (sign_in kinds (get_or class.now b 0) ≡ s) × (0 < s)) }
{
    let c = class[b as usize];
    if c <= GAP_HIGH {
        return if GAP_LOW <= c { Some(b' ') } else { None };
    }
    if c < UNDERSCORE {
        return None;
    }
    match c {
        UNDERSCORE => Some(b'_'),
        QUOTE => Some(b'\''),
        DASH => Some(b'-'),
        OPENING => Some(b'('),
        CLOSING => Some(b')'),
        _ => None,
    }
}

// A byte that stays, or the first of its run.
fn begins(sign: Option<u8>, last: Option<u8>) -> bool
    ensures { result ≡ (not (is_some sign) || not (option_eq nat_eq sign last)) }
{
    sign.is_none() || sign != last
}

// Line passes 4 and 5, in place; pass 4 takes the gaps of the table's edition. One walk.
pub fn join_signs(class: &[u8; 256], buf: &mut [u8]) -> usize
    requires { Classes class.now }
    ensures { InFront (signs (runs (gap_in class.now) 32 false buf.old)) result buf.new }
{
    let mut w = 0;
    let mut last = None;
    for i in 0..buf.len() {
        let b = buf[i];
        let sign = sign_of(class, b);
        if begins(sign, last) {
            buf[w] = sign.unwrap_or(b);
            w += 1;
        }
        last = sign;
    }
    w
}
