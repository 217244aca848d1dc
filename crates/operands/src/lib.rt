// The bytes of a core's data that each instruction reads and writes, and the order in which its faults are tried: tables in specs/, their theorems in proofs/.
// There is no code here.

#![tactic(auto)]
