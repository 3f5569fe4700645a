// No code: the laws of writing an expression, over the derivations of the annex's grammar: what is written is read again, as what it was written
// from, is short, and is the text itself exactly if the text was neat.
#![tactic(auto)]
