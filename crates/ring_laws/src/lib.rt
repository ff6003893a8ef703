// What follows from the rules of the ring (crate ring): whose slot comes when, whom the walk back meets and how far back (specs/Back), that it depends on n and the slot table alone, and
// that with the plain table it is document 01's, by node number (specs/Before). It has no code.
#![tactic(auto)]
