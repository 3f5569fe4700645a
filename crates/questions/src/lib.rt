// The line protocol of the recorded questions and answers (oracle/README.md), on slices: lines and words, texts in hex, the bits of a
// float, decimal numbers. Reads any bytes and asks only for room to write. Assumes nothing.
#![tactic(auto)]

pub mod fields;
pub mod hex;
pub mod numbers;
pub mod words;
