// What a conversion stores, against the exact value (document 02, 2.3): the claim is in specs/, its one theorem in proofs/. There is no code here.

#![tactic(auto)]
