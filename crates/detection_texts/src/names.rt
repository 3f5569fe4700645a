// A licence's name copied out of the book, as an answer carries it.
// From detection.rs of spdx 0.13.6 (Copyright 2018 Amazon.com, Inc. or its affiliates. All Rights Reserved.
// SPDX-License-Identifier: Apache-2.0), changed: the store is a book of records. Assumes nothing.
ghost use Rattle.std.specs.Prelude.{◌≡◌, ◌-◌, ◌≤◌, length, replicate};
ghost use Rattle.rules.specs.Sizes.{name_most};
ghost use Rattle.rules.specs.Jobs.{over};
ghost use Rattle.lists.specs.Parts.{part};

use rules::NAME_MOST;
use slices::copy::put;

// NAME_MOST bytes, zero-filled, and the length: as C gets them.
#[derive(Clone, Copy)]
pub struct Name {
    pub bytes: [u8; NAME_MOST],
    pub len: u32,
}

fn padded(s: &[u8]) -> [u8; NAME_MOST]
    requires { length s.now ≤ name_most }
    ensures { result ≡ over s.now (replicate name_most 0) }
{
    let mut bytes: [u8; NAME_MOST] = [0; NAME_MOST];
    put(s, &mut bytes, 0);
    bytes
}

// The name book[name..past].
pub fn name_in(book: &[u8], name: usize, past: usize) -> Name
    requires { (name ≤ past) × (past ≤ length book.now) × (past - name ≤ name_most) }
    ensures { (result.bytes ≡ over (part book.now name past) (replicate name_most 0)) × (result.len ≡ past - name) }
{
    Name {
        bytes: padded(&book[name..past]),
        len: (past - name) as u32,
    }
}
