// Every well-formed state has words: the definition `written` that gives them and the theorem `has_words`. The definition stands in specs/, the theorem in proofs/.

#![tactic(auto)]
