// UTF-8 up to U+00FF: what a byte opens and ends, how long code points are as UTF-8, and these written again in place.
// From detection/preproc.rs of spdx 0.13.6 (Copyright 2018-2019 Amazon.com, Inc. or its affiliates. All Rights Reserved.
// SPDX-License-Identifier: Apache-2.0), changed: its strings are UTF-8 throughout, here a line is one byte a code point. Assumes nothing.
#![tactic(auto)]

pub mod encode;
pub mod read;
