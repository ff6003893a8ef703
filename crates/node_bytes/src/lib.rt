// The calls of `node` on a record as bytes and on the counts beside it, for the program that runs them in
// a test. The functions are safe and end, a refused call leaves every byte of the record and every count,
// and which letter asks for what is specs/Letters; no contract says more.
#![tactic(auto)]

pub mod bytes;
pub mod calls;
pub mod counts;
pub mod rows;
