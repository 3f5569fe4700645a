// Passes over code points by their class: some are dropped, others kept, and runs cut short. Each is one walk that writes no faster than it reads.
// From detection/preproc.rs of spdx 0.13.6 (Copyright 2018-2019 Amazon.com, Inc. or its affiliates. All Rights Reserved.
// SPDX-License-Identifier: Apache-2.0), changed: its patterns, as walks over lent memory. Assumes nothing.
#![tactic(auto)]

ghost use Rattle.std.specs.Prelude.{◌≡◌, [], ◌∷◌, false, not, ◌≤◌, ◌<◌, length, IfSome, MatchOption};
ghost use Rattle.lists.specs.Wrote.{Wrote, InFront};
ghost use Rattle.rules.specs.Bytes.{keep, runs};
ghost use Rattle.rules.specs.Points.{points};
ghost use Rattle.slices.specs.Classes.{in_class};
ghost use Rattle.preproc_runs.specs.Capped.{capped};

use points::read::{is_lead, point_of};
use slices::class::in_class;

// The first code point of s, and what is behind it; none where s is empty, or the first byte of two alone.
fn first_point(s: &[u8]) -> Option<(u8, &[u8])>
    ensures point { MatchOption result (points s.now ≡ []) (λ r. points s.now ≡ r.0 ∷ points r.1.now) }
    ensures shorter { IfSome result (λ r. length r.1.now < length s.now) }
{
    let (x, rest) = s.split_first()?;
    if is_lead(*x) {
        let (y, rest) = rest.split_first()?;
        return Some((point_of(*x, *y), rest));
    }
    Some((*x, rest))
}

// All code points of src but those of classes lo to hi, written to dst: line pass 2. One walk.
pub fn read_into(class: &[u8; 256], lo: u8, hi: u8, src: &[u8], dst: &mut [u8]) -> usize
    requires { length src.now ≤ length dst.old }
    ensures { Wrote (keep (λ x. not (in_class class.now lo hi x)) (points src.now)) dst.old result dst.new }
{
    let mut rest = src;
    let mut w = 0;
    while let Some((p, behind)) = first_point(rest) {
        rest = behind;
        if !in_class(class, lo, hi, p) {
            dst[w] = p;
            w += 1;
        }
    }
    w
}

// Those of classes lo to hi, in place: aggressive pass 3. One walk.
pub fn keep_in(class: &[u8; 256], lo: u8, hi: u8, buf: &mut [u8]) -> usize
    ensures { InFront (keep (in_class class.now lo hi) buf.old) result buf.new }
{
    let mut w = 0;
    for i in 0..buf.len() {
        let b = buf[i];
        if in_class(class, lo, hi, b) {
            buf[w] = b;
            w += 1;
        }
    }
    w
}

// Each run of those of classes lo to hi, in place: as many rep as it is long, and most at most. One walk.
pub fn cap_runs(class: &[u8; 256], lo: u8, hi: u8, rep: u8, most: usize, buf: &mut [u8]) -> usize
    ensures { InFront (capped (in_class class.now lo hi) rep most 0 buf.old) result buf.new }
{
    let mut w = 0;
    let mut k = 0;
    for i in 0..buf.len() {
        let b = buf[i];
        if in_class(class, lo, hi, b) {
            k += 1;
            if most < k {
                continue;
            }
            buf[w] = rep;
            w += 1;
        } else {
            buf[w] = b;
            w += 1;
            k = 0;
        }
    }
    w
}

// Each run of those of classes lo to hi becomes one rep, in place: aggressive pass 7. One walk.
pub fn join_runs(class: &[u8; 256], lo: u8, hi: u8, rep: u8, buf: &mut [u8]) -> usize
    ensures { InFront (runs (in_class class.now lo hi) rep false buf.old) result buf.new }
{
    cap_runs(class, lo, hi, rep, 1, buf)
}
