// What depends on the effective number n of parallel conductors alone, weights of mesh and step voltage: definitions in specs/, laws in
// proofs/. No code: that is the table of `by_counts`.
#![tactic(auto)]
