// What the programs that run calls for a test read and write: bytes, one after the other, and blocks of
// them that hold numbers; and the loop that carries commands out. The functions are safe and end; no
// contract says more.
#![tactic(auto)]

pub mod block;
pub mod commands;
pub mod input;
pub mod output;
