// The examples of document 01 that carry proof (specs/Examples), and examples of document 02's requests (specs/Requests), each table shown by one statement (proofs/Examples): runs by the definitions and not by the programs. It has no code.
#![tactic(auto)]
