// Publishing and direct commit with no batch of handles between (document 02, 3): the definitions stand in specs/, that they are the steps of document 01 in proofs/. No code stands here.

#![tactic(auto)]
