// Leaves on lent slices, shared by everything above. Those that read ask nothing of their caller, those that copy ask for room.
// From detection/preproc.rs of spdx 0.13.6 (Copyright 2018-2019 Amazon.com, Inc. or its affiliates. All Rights Reserved.
// SPDX-License-Identifier: Apache-2.0), changed. Assumes nothing.
#![tactic(auto)]

pub mod class;
pub mod copy;
pub mod ends;
pub mod lead;
pub mod wide;
pub mod zero;
