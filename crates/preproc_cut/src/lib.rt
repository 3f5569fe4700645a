// Aggressive pass 6 over a text, in place: each copyright notice becomes two newlines.
// From detection/preproc.rs of spdx 0.13.6 (Copyright 2018-2019 Amazon.com, Inc. or its affiliates. All Rights Reserved.
// SPDX-License-Identifier: Apache-2.0), changed: its replacement, as a walk over lent memory. Assumes that the lent table is that of the classes.
#![tactic(auto)]

ghost use Rattle.std.specs.Prelude.{true, ◌<◌, eqb, length, drop};
ghost use Rattle.lists.specs.Wrote.{InFront};
ghost use Rattle.rules.specs.Passes.{hit, without_copyright};
ghost use Rattle.slices.specs.Classes.{Classes};
ghost use Rattle.preproc_copyright.specs.Takes.{Takes};

use preproc_copyright::{hit_a, hit_len};

// What the hit at the place takes, if there is one. Inside a line only a newline can begin one, so that one test sees that none does.
fn hit_at(class: &[u8; 256], s: &[u8], at: usize, fresh: bool) -> Option<usize>
    requires { Classes class.now × (at < length s.now) }
    ensures { Takes result (hit (eqb at 0) fresh (drop at s.now)) }
{
    if at == 0 {
        return hit_len(class, s, at, true, fresh);
    }
    if fresh {
        return hit_len(class, s, at, false, true);
    }
    if s[at] == b'\n' {
        return hit_a(s, at, false);
    }
    None
}

// Pass 6: each hit becomes two newlines. Linear: what a hit takes is read again by none, and tries that fail read different lines (A),
// one line (B) or the spaces behind different words (C).
pub fn without_copyright(class: &[u8; 256], buf: &mut [u8]) -> usize
    requires { Classes class.now }
    ensures { InFront (without_copyright true true 0 buf.old) result buf.new }
{
    let mut i = 0;
    let mut w = 0;
    let mut fresh = true;
    // A while: a turn goes on by one byte, or by all that a hit takes.
    while i < buf.len() {
        if let Some(k) = hit_at(class, buf, i, fresh) {
            i += k;
            fresh = buf[i - 1] == b'\n';
            buf[w] = b'\n';
            w += 1;
            buf[w] = b'\n';
            w += 1;
        } else {
            let b = buf[i];
            i += 1;
            fresh = b == b'\n';
            buf[w] = b;
            w += 1;
        }
    }
    w
}
