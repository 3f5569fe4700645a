// The aggressive passes on a view's lines, joined by newline.
// From detection/preproc.rs of spdx 0.13.6 (Copyright 2018-2019 Amazon.com, Inc. or its affiliates. All Rights Reserved.
// SPDX-License-Identifier: Apache-2.0), changed: its patterns are matchers written out, and the passes work in place. Assumes nothing.
#![tactic(auto)]

pub mod passes;
pub mod process;
