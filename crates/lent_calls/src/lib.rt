// Lists of calls on a lent core table: the claims are in specs/, their theorems in proofs/. There is no code here.

#![tactic(auto)]
