// Lists of steps and of calls of the real machine, by value: the claims are in specs/, their theorems in proofs/. There is no code here.

#![tactic(auto)]
