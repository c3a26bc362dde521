// Every exact value is one number: definitions in specs/, laws in proofs/. No code.
#![tactic(auto)]
