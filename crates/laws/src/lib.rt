// Mathematics with no product words: definitions in specs/, laws in proofs/. No code.
#![tactic(auto)]
