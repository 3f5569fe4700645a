// That the automaton which reads a licence expression is the grammar of the SPDX 2.3 annex: laws only (proofs/), no code. Assumes nothing.
#![tactic(auto)]
