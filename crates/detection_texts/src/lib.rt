// The stored texts of a sound book, and the names that they stand under.
// From detection.rs of spdx 0.13.6 (Copyright 2018 Amazon.com, Inc. or its affiliates. All Rights Reserved.
// SPDX-License-Identifier: Apache-2.0), changed: the store is a book of records. Assumes nothing.
#![tactic(auto)]

pub mod names;
pub mod texts;
