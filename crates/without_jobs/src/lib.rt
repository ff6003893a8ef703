// Membership is the same whatever the number of jobs (document 02, request h; specs/Without, proofs/Same, Answers and Messages). It has no code.
#![tactic(auto)]
