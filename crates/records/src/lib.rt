// Pieces of a byte string that knows no kinds: little-endian numbers, the record and the table entry at a place, and the order of byte strings.
// From detection.rs of spdx 0.13.6 (Copyright 2018 Amazon.com, Inc. or its affiliates. All Rights Reserved.
// SPDX-License-Identifier: Apache-2.0), changed. Assumes nothing.
#![tactic(auto)]

pub mod numbers;
pub mod pieces;
pub mod reader;
