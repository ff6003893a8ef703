// Many dead at once (document 02, request g): those that stay on keep one list, and the silent ones leave it in time (specs/Many, proofs/Dead). It has no code.
#![tactic(auto)]
