// Document 01's marked bench values: the table is in specs/, its one theorem in proofs/. There is no code here.

#![tactic(auto)]
