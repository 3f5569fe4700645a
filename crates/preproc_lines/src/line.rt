// Line passes 2 to 6 over one line. The line after pass 2 stands in the area's front, which is scratch; the rest is made at its own place.
// From detection/preproc.rs of spdx 0.13.6 (Copyright 2018-2019 Amazon.com, Inc. or its affiliates. All Rights Reserved.
// SPDX-License-Identifier: Apache-2.0), changed: its vectors of strings are places in one lent area. Assumes nothing.
ghost use Rattle.std.specs.Prelude.{◌+◌, ◌*◌, ◌≤◌, length};
ghost use Rattle.slices.specs.Classes.{Classes, gap_in};
ghost use Rattle.preproc_lines.specs.Placed.{Filled, Placed};

use preproc_runs::read_into;
use preproc_signs::join_signs;
use preproc_urls::blackbox_urls;
use slices::class::{DROPPED_HIGH, DROPPED_LOW, SPACE_HIGH, SPACE_LOW};
use slices::ends::{ByteSpan, bare};

// Line passes 2 to 5 over src, made from `to` on; answers where that ends. A constant number of walks.
pub fn fill_line(class: &[u8; 256], src: &[u8], area: &mut [u8], to: usize) -> usize
    requires { Classes class.now × (length src.now ≤ to) × (to + 3 * length src.now ≤ length area.old) }
    ensures { Filled (gap_in class.now) src.now area.old to result area.new }
{
    let n2 = read_into(class, DROPPED_LOW, DROPPED_HIGH, src, area);
    let end = blackbox_urls(class, area, n2, to);
    to + join_signs(class, &mut area[to..end])
}

// Line passes 2 to 6 over src, made from `to` on; answers where the trimmed line stands.
pub fn put_line(class: &[u8; 256], src: &[u8], area: &mut [u8], to: usize) -> ByteSpan
    requires { Classes class.now × (length src.now ≤ to) × (to + 3 * length src.now ≤ length area.old) }
    ensures { Placed (gap_in class.now) src.now area.old to result area.new }
{
    let end = fill_line(class, src, area, to);
    let s = bare(class, SPACE_LOW, SPACE_HIGH, &area[to..end]);
    ByteSpan {
        start: to + s.start,
        end: to + s.end,
    }
}
