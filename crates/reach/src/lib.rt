// The promises speak of every well-formed state, since each has words. The definitions stand in specs/, the theorems in proofs/.

#![tactic(auto)]
