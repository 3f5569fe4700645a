// The eight aggressive passes on a view: its lines joined behind all lines, and then the passes in place.
// From detection/preproc.rs and license.rs of spdx 0.13.6 (Copyright 2018-2019 Amazon.com, Inc. or its affiliates. All Rights Reserved.
// SPDX-License-Identifier: Apache-2.0), changed: its strings are places in one lent area. Assumes that the lent table is that of the
// classes, and that the lines of a text of n bytes lie in [n, 4n).
ghost use Rattle.preproc_view.specs.Whole.{Ready, StripsAs, ViewProcessed, view_at};

use crate::passes::passes;
use preproc_join::join_lines;
use preproc_table::view_start;
use rules::View;
use slices::ends::ByteSpan;

// Where the processed text of the view stands; pass 1 strips the bytes of `common`, which stand among the lines, or nothing. Linear in the
// bytes of the view's lines.
pub fn process_with(
    class: &[u8; 256],
    area: &mut [u8],
    table: &[u32],
    n: usize,
    v: View,
    common: Option<ByteSpan>,
) -> ByteSpan
    requires { Ready class.now area.old table.now n v × StripsAs area.old n (view_at area.old table.now v) common }
    ensures { ViewProcessed (view_at area.old table.now v) n area.old result area.new }
{
    let to = view_start(n);
    let len = join_lines(class, area, table, v.start, v.end, common, to);
    let s = passes(class, &mut area[to..], len);
    ByteSpan {
        start: to + s.start,
        end: to + s.end,
    }
}
