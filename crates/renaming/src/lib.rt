// A run with another slot table is the plain run with the nodes renamed (document 02, request k; specs/Renamed, proofs/Renaming). It has no code.
#![tactic(auto)]
