// Line pass 3: each URL becomes one fixed URL.
// From detection/preproc.rs of spdx 0.13.6 (Copyright 2018-2019 Amazon.com, Inc. or its affiliates. All Rights Reserved.
// SPDX-License-Identifier: Apache-2.0), changed: its pattern, as a walk. Assumes nothing.
#![tactic(auto)]

ghost use Rattle.std.specs.Prelude.{◌≡◌, false, not, ◌&&◌, ◌++◌, ◌+◌, ◌≤◌, length, take, drop};
ghost use Rattle.lists.specs.Wrote.{Wrote};
ghost use Rattle.rules.specs.Bytes.{space, solid, starts};
ghost use Rattle.rules.specs.Lines.{url, urls};
ghost use Rattle.slices.specs.Classes.{space_in};

use slices::class::{SPACE_HIGH, SPACE_LOW, in_class};
use slices::copy::put;
use slices_order::starts_with;

// At the place stands a byte that is no space.
fn solid_at(class: &[u8; 256], s: &[u8], at: usize) -> bool
    requires { space_in class.now ≡ space }
    ensures { result ≡ solid (drop at s.now) }
{
    at < s.len() && !in_class(class, SPACE_LOW, SPACE_HIGH, s[at])
}

// s starts with w and a byte that is no space.
fn opens_with(class: &[u8; 256], s: &[u8], w: &[u8]) -> bool
    requires { space_in class.now ≡ space }
    ensures { result ≡ (starts w.now s.now && solid (drop (length w.now) s.now)) }
{
    starts_with(s, 0, w) && solid_at(class, s, w.len())
}

// s starts with a URL. Most bytes are told by one test.
pub fn is_url(class: &[u8; 256], s: &[u8]) -> bool
    requires { space_in class.now ≡ space }
    ensures { result ≡ url s.now }
{
    s.len() > 0
        && s[0] == b'h'
        && (opens_with(class, s, b"http://") || opens_with(class, s, b"https://"))
}

// The URL before goes on with b.
fn goes_on(class: &[u8; 256], inside: bool, b: u8) -> bool
    requires { space_in class.now ≡ space }
    ensures { result ≡ (inside && not (space b)) }
{
    inside && !in_class(class, SPACE_LOW, SPACE_HIGH, b)
}

// The first n, with each URL made the fixed one, written from `to` on; answers where that ends. Each byte is read once, and at each up to
// nine are compared.
pub fn blackbox_urls(class: &[u8; 256], area: &mut [u8], n: usize, to: usize) -> usize
    requires { (space_in class.now ≡ space) × (n ≤ to) × (to + length (urls false (take n area.old)) ≤ length area.old) }
    ensures { Wrote (take to area.old ++ urls false (take n area.old)) area.old result area.new }
{
    let mut w = to;
    let mut inside = false;
    for i in 0..n {
        let b = area[i];
        if goes_on(class, inside, b) {
            continue;
        }
        inside = is_url(class, &area[i..n]);
        if inside {
            w = put(b"http://blackboxed/url", area, w);
        } else {
            area[w] = b;
            w += 1;
        }
    }
    w
}
