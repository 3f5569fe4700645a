// What of a question is taken: a view within its text, and bits of a limit that are those of a float. Assumes nothing.
#![tactic(auto)]

pub mod limits;
pub mod views;
