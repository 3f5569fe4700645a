// The place of a refusal, letter case aside, and the lines of a list of accepted parts: laws of the definitions of `expression` (proofs/).
// Assumes nothing.
#![tactic(auto)]
