// The held and the plain run: the definitions stand in specs/, the theorems in proofs/.

#![tactic(auto)]
