// A character of UTF-8 up to U+00FF: one byte below 128, or two. Any bytes are read; what is no UTF-8 has been refused before.
// From detection/preproc.rs of spdx 0.13.6 (Copyright 2018-2019 Amazon.com, Inc. or its affiliates. All Rights Reserved.
// SPDX-License-Identifier: Apache-2.0), changed: its strings are decoded by the language. Assumes nothing.
ghost use Rattle.std.specs.Prelude.{◌≡◌, true, ◌+◌, ◌-◌, ◌*◌, ◌%◌};
ghost use Rattle.rules.specs.Bytes.{within};
ghost use Rattle.rules.specs.Points.{opens};

// Whether x opens a character of two bytes.
pub fn is_lead(x: u8) -> bool
    ensures { result ≡ opens x }
{
    194 <= x && x <= 195
}

// Whether x may be the second of them.
pub fn is_second(x: u8) -> bool
    ensures { result ≡ within 128 191 x }
{
    128 <= x && x <= 191
}

// The code point of both.
pub fn point_of(lead: u8, x: u8) -> u8
    requires { opens lead ≡ true }
    ensures { result ≡ 64 * (lead - 192) + x % 64 }
{
    64 * (lead - 192) + x % 64
}
