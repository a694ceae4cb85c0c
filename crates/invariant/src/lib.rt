// Every request keeps a state well formed: the theorem is `kept` in proofs/Kept.antt. No code stands here.

#![tactic(auto)]
