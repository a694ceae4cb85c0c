// What a call on lent words must do, in document 01's terms, and that a list does it if each of its requests does. The definitions stand in specs/, the theorems in proofs/.

#![tactic(auto)]
