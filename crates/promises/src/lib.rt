// What a reader has to believe, a page for each demand: the definitions stand in specs/, the theorems in proofs/.

#![tactic(auto)]
