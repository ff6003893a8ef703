// The premises of demand 3 (document 01, "The bench"): with either lag they are met, and each of them is needed (specs/Needed, proofs/Needed). The same of the clause that request f adds. It has no code.
#![tactic(auto)]
