// The steps by which top-down moves a view's start and end.
// From detection/scan.rs of spdx 0.13.6 (Copyright 2018 Amazon.com, Inc. or its affiliates. All Rights Reserved.
// SPDX-License-Identifier: Apache-2.0), changed: `step_by` of the standard library. Assumes nothing.
#![tactic(auto)]

ghost use Rattle.std.specs.Prelude.{◌≡◌, ◌+◌, ◌≤◌, min};

// The next of some steps below n, or n. The sum is made only where it stays below n, so it never wraps.
pub fn next_step(a: usize, step: u64, n: usize) -> usize
    requires { a ≤ n }
    ensures { result ≡ min (a + step) n }
{
    if (n - a) as u64 <= step {
        return n;
    }
    a + step as usize
}
