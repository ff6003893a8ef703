// What is done on a row (crate row) is what is done on its set, and nothing is lost from the one to the other (proofs/Laws; document 02, request l). It has no code.
#![tactic(auto)]
