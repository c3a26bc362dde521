// Tables that are divided into parts of equal width: definitions in specs/, laws in proofs/. No code.
#![tactic(auto)]
