// Where a slice starts and ends without the bytes of a kind around it.
// From detection/preproc.rs of spdx 0.13.6 (Copyright 2018-2019 Amazon.com, Inc. or its affiliates. All Rights Reserved.
// SPDX-License-Identifier: Apache-2.0), changed: `trim` of the standard library. Assumes nothing.
ghost use Rattle.std.specs.Prelude.{◌≡◌};
ghost use Rattle.slices.specs.Classes.{in_class};
ghost use Rattle.slices.specs.Ends.{kept_len, Bare};

use crate::class::in_class;
use crate::lead::run_len;

// The bytes from start up to end.
#[derive(Clone, Copy)]
pub struct ByteSpan {
    pub start: usize,
    pub end: usize,
}

// The length without the bytes of classes lo to hi at the end. Reads those, and one byte more.
pub fn trimmed_end(class: &[u8; 256], lo: u8, hi: u8, s: &[u8]) -> usize
    ensures { result ≡ kept_len (in_class class.now lo hi) s.now }
{
    let last = s.iter().rposition(|b| !in_class(class, lo, hi, *b));
    last.map_or(0, |k| k + 1)
}

// Where s starts and ends without the bytes of classes lo to hi around it. Reads those, and two bytes more.
pub fn bare(class: &[u8; 256], lo: u8, hi: u8, s: &[u8]) -> ByteSpan
    ensures { Bare (in_class class.now lo hi) s.now result }
{
    let start = run_len(class, lo, hi, s, 0);
    let rest = &s[start..];
    let len = trimmed_end(class, lo, hi, rest);
    ByteSpan {
        start,
        end: start + len,
    }
}
