// Books worked out by the definitions alone, and held to by computation: proofs/. No code.
#![tactic(auto)]
