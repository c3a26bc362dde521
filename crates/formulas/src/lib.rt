// The formulas of §4 as exact values of a case: definitions in specs/, laws in proofs/. No code.
#![tactic(auto)]
