// What crate races shows, of accepted files and of lists of calls: the claims are in specs/, their theorems in proofs/. There is no code here.

#![tactic(auto)]
