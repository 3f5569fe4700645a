// A part of a lent book, handed back where it stands: `cut` out of one book, and a name's part out of whichever of two holds it.
// From detection.rs of spdx 0.13.6 (Copyright 2018 Amazon.com, Inc. or its affiliates. All Rights Reserved.
// SPDX-License-Identifier: Apache-2.0), changed: names are parts of the books. Assumes nothing.
#![tactic(auto)]

ghost use Rattle.std.specs.Prelude.{◌≡◌, cond, ◌+◌, ◌≤◌, leb, length, take, drop};
ghost use Rattle.rules.specs.Book.{part_in};
ghost use Rattle.detection_part.specs.Parts.{fitting, place_in};

use rules::Named;

// len bytes of s from start on, and where they stand.
pub fn cut<'a>(s: &'a [u8], start: usize, len: usize) -> &'a [u8]
    requires { start + len ≤ length s.now }
    ensures bytes { result.now ≡ take len (drop start s.now) }
    ensures place { result.ref_ptr ≡ place_in s.entry.ref_ptr start }
{
    let end = start + len;
    &s[start..end]
}

// len bytes from start on lie within n.
#[tactic(auto, using(crate::proofs::PartLaws::inside_of))]
fn inside(start: usize, len: usize, n: usize) -> bool
    ensures { result ≡ leb (start + len) n }
{
    start <= n && len <= n - start
}

// A name's bytes where they stand: a part of the first book or of the second, also where both hold the same bytes. One that does not lie
// in its book is the empty part at the first's start.
pub fn name_part<'a>(first: &'a [u8], second: &'a [u8], p: Named) -> &'a [u8]
    ensures bytes { result.now ≡ part_in first.now second.now (fitting first.now second.now p) }
    ensures place { result.ref_ptr ≡ place_in (cond (fitting first.now second.now p).second second.entry.ref_ptr first.entry.ref_ptr) (fitting first.now second.now p).at }
{
    let at = p.at;
    let len = p.len;
    if p.second {
        if inside(at, len, second.len()) {
            return cut(second, at, len);
        }
        return cut(first, 0, 0);
    }
    if inside(at, len, first.len()) {
        return cut(first, at, len);
    }
    cut(first, 0, 0)
}
