// A part of an expression: a license-id with + or without, or a license-ref, and its exception. No recursion. What each function says is that the
// verdict on the text is kept. Assumes nothing.
#![tactic(auto)]

pub mod names;
pub mod parts;
