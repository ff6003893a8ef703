// The project's three demands as statements (specs/) and their theorems (proofs/); with them what follows for members as a row (Rows), for what is printed (Printed) and for cover light (Light). Demand 3 is stated and proved in agreement. It has no code.
#![tactic(auto)]
