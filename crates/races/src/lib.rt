// What a step touches, that steps of different cores meet at the semaphore alone, and which may change places: the claims are in specs/, their
// theorems in proofs/. There is no code here.

#![tactic(auto)]
