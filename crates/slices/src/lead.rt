// How many bytes from a place on are of one kind. A place past the end is the empty rest. Each walk reads what it counts once, and one
// byte more.
// From detection/preproc.rs of spdx 0.13.6 (Copyright 2018-2019 Amazon.com, Inc. or its affiliates. All Rights Reserved.
// SPDX-License-Identifier: Apache-2.0), changed: what its patterns repeat. Assumes nothing.
ghost use Rattle.std.specs.Prelude.{◌≡◌, not, eqb, drop};
ghost use Rattle.rules.specs.Bytes.{lead, line_len};
ghost use Rattle.slices.specs.Classes.{in_class, in_either};
ghost use Rattle.slices.specs.Leads.{Leads};

use crate::class::{in_class, in_either};

// What lies from the place on.
pub fn rest(s: &[u8], at: usize) -> &[u8]
    ensures { result.now ≡ drop at s.now }
{
    s.get(at..).unwrap_or(&[])
}

// Bytes that pass a test: as many as any test of the rules leads with, where the closure computes it.
#[inline(always)]
pub fn lead_by<F: Fn(u8) -> bool>(s: &[u8], at: usize, test: F) -> usize
    requires { F.IsAlwaysCallable test }
    ensures { Leads (F.post test) s.now at result }
{
    // An index walk, and no `position`: that takes longer.
    for i in at..s.len() {
        let passes = test(s[i]);
        if !passes {
            return i - at;
        }
    }
    s.len().saturating_sub(at)
}

// Bytes of classes lo to hi, or low to high.
pub fn either_len(
    class: &[u8; 256],
    lo: u8,
    hi: u8,
    low: u8,
    high: u8,
    s: &[u8],
    at: usize,
) -> usize
    ensures { result ≡ lead (in_either class.now lo hi low high) (drop at s.now) }
{
    lead_by(s, at, |b| in_either(class, lo, hi, low, high, b))
}

// Bytes of classes lo to hi.
pub fn run_len(class: &[u8; 256], lo: u8, hi: u8, s: &[u8], at: usize) -> usize
    ensures { result ≡ lead (in_class class.now lo hi) (drop at s.now) }
{
    lead_by(s, at, |b| in_class(class, lo, hi, b))
}

// Bytes of no class from lo to hi.
pub fn other_len(class: &[u8; 256], lo: u8, hi: u8, s: &[u8], at: usize) -> usize
    ensures { result ≡ lead (λ x. not (in_class class.now lo hi x)) (drop at s.now) }
{
    lead_by(s, at, |b| !in_class(class, lo, hi, b))
}

// Bytes up to the first newline, or to the end.
#[tactic(auto, unfolding(rules::specs::Bytes::line_len, rules::specs::Bytes::newline))]
pub fn line_len(s: &[u8], at: usize) -> usize
    ensures { result ≡ line_len (drop at s.now) }
{
    lead_by(s, at, |b| b != 10)
}

// Bytes b.
pub fn byte_run(s: &[u8], at: usize, b: u8) -> usize
    ensures { result ≡ lead (eqb b) (drop at s.now) }
{
    lead_by(s, at, |x| x == b)
}
