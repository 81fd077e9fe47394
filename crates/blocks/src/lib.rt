// The blocks world of document 01: definitions in specs/, theorems in proofs/. No code.

#![tactic(auto)]
