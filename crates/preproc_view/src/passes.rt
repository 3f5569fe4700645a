// Aggressive passes 2 to 8 on the code points of a lent part, in place. Each is one walk that writes no faster than it reads.
// From detection/preproc.rs of spdx 0.13.6 (Copyright 2018-2019 Amazon.com, Inc. or its affiliates. All Rights Reserved.
// SPDX-License-Identifier: Apache-2.0), changed: its replacements, as walks over lent memory. Assumes that the lent table is that of the classes.
ghost use Rattle.std.specs.Prelude.{◌≡◌, map, ◌≤◌, length, take};
ghost use Rattle.lists.specs.Wrote.{InFront};
ghost use Rattle.rules.specs.Points.{encoded};
ghost use Rattle.rules.specs.Passes.{lowered};
ghost use Rattle.rules.specs.Passes;
ghost use Rattle.slices.specs.Classes.{Classes};
ghost use Rattle.preproc_view.specs.Rows.{StandsAt, first_passes, last_passes};

use points::encode::encode_in;
use preproc_cut::without_copyright;
use preproc_runs::{cap_runs, join_runs, keep_in};
use preproc_title::title_len;
use slices::class::{
    KEPT_HIGH, KEPT_LOW, SPACE_HIGH, SPACE_LOW, UPPER, VERTICAL_HIGH, VERTICAL_LOW, in_class,
};
use slices::ends::{ByteSpan, bare};

// A code point in lower case.
fn lower_byte(class: &[u8; 256], b: u8) -> u8
    requires { Classes class.now }
    ensures { result ≡ lowered b }
{
    if in_class(class, UPPER, UPPER, b) {
        b + 32
    } else {
        b
    }
}

// Pass 4: all in lower case.
fn lower_in(class: &[u8; 256], buf: &mut [u8])
    requires { Classes class.now }
    ensures { buf.new ≡ map lowered buf.old }
{
    for b in buf.iter_mut() {
        *b = lower_byte(class, *b);
    }
}

// Passes 6 to 8 on the first n, and the result as UTF-8 again: where it stands. What stands behind the first n is room for that.
fn last_passes(class: &[u8; 256], buf: &mut [u8], n: usize) -> ByteSpan
    requires { Classes class.now × (n ≤ length buf.old) × (length (encoded (take n buf.old)) ≤ length buf.old) }
    ensures { StandsAt (encoded (last_passes (take n buf.old))) buf.new result }
{
    let n6 = without_copyright(class, &mut buf[..n]);
    let n7 = join_runs(class, SPACE_LOW, SPACE_HIGH, b' ', &mut buf[..n6]);
    let s = bare(class, SPACE_LOW, SPACE_HIGH, &buf[..n7]);
    ByteSpan {
        start: s.start,
        end: encode_in(buf, s.start, s.end),
    }
}

// Passes 2 to 4.
fn first_passes(class: &[u8; 256], buf: &mut [u8]) -> usize
    requires { Classes class.now }
    ensures { InFront (first_passes buf.old) result buf.new }
{
    let n2 = cap_runs(class, VERTICAL_LOW, VERTICAL_HIGH, b'\n', 2, buf);
    let n3 = keep_in(class, KEPT_LOW, KEPT_HIGH, &mut buf[..n2]);
    lower_in(class, &mut buf[..n3]);
    n3
}

// Passes 2 to 8 on the first n: where the processed text stands as UTF-8. The title only moves its start.
pub fn passes(class: &[u8; 256], buf: &mut [u8], n: usize) -> ByteSpan
    requires { Classes class.now × (n ≤ length buf.old) × (length (encoded (take n buf.old)) ≤ length buf.old) }
    ensures { StandsAt (encoded (Passes.passes (take n buf.old))) buf.new result }
{
    let n4 = first_passes(class, &mut buf[..n]);
    let title = title_len(class, &buf[..n4]);
    let s = last_passes(class, &mut buf[title..], n4 - title);
    ByteSpan {
        start: title + s.start,
        end: title + s.end,
    }
}
