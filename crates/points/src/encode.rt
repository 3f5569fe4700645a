// Code points up to U+00FF as UTF-8: how long that is, and written in their place.
// From detection/preproc.rs of spdx 0.13.6 (Copyright 2018-2019 Amazon.com, Inc. or its affiliates. All Rights Reserved.
// SPDX-License-Identifier: Apache-2.0), changed: its strings are UTF-8 throughout. Assumes nothing.
ghost use Rattle.std.specs.Prelude.{◌≡◌, ◌&&◌, ◌+◌, ◌≤◌, ltb, length};
ghost use Rattle.std.proofs.Math.Seq.{slice};
ghost use Rattle.rules.specs.Points.{ascii, encoded};
ghost use Rattle.points.specs.Spread.{Spread};

// Whether all lie below 128. One walk to the end, without a way out of it: so it is made of steps of many bytes at once.
fn is_ascii(s: &[u8]) -> bool
    ensures { result ≡ ascii s.now }
{
    let top = s.iter().fold(0u8, |top, b| top.max(*b));
    top < 128
}

// How long the UTF-8 of these code points is.
pub fn utf8_len(s: &[u8]) -> usize
    requires { length (encoded s.now) ≤ 18446744073709551615 }
    ensures { result ≡ length (encoded s.now) }
{
    if is_ascii(s) {
        return s.len();
    }
    let mut n = 0;
    for b in s {
        n += 1 + usize::from(*b / 128);
    }
    n
}

// Whether it is longer than so many bytes, three at most. Code points are bytes or more, so that more than three are not walked.
pub fn longer_than(most: usize, s: &[u8]) -> bool
    requires { most ≤ 3 }
    ensures { result ≡ ltb most (length (encoded s.now)) }
{
    most < s.len() || most < utf8_len(s)
}

// What stands from start up to end, as UTF-8 in its place; answers where that ends. From the end backwards, so that nothing is written over
// before it is read; and only down to where no code point above 127 is left, so that ASCII is not moved.
pub fn encode_in(area: &mut [u8], start: usize, end: usize) -> usize
    requires { (start ≤ end) × (end ≤ length area.old) × (start + length (encoded (slice start end area.old)) ≤ length area.old) }
    ensures { Spread area.old start end result area.new }
{
    let r = start + utf8_len(&area[start..end]);
    let mut w = r;
    for i in (start..end).rev() {
        if w <= i + 1 {
            break;
        }
        let b = area[i];
        w -= 1;
        if b < 128 {
            area[w] = b;
            continue;
        }
        area[w] = 128 + b % 64;
        w -= 1;
        area[w] = 192 + b / 64;
    }
    r
}
