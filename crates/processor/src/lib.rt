// Document 01, mode 2: what one instruction of a core does to its registers and its data. The definitions are in specs/, their laws in proofs/.
// There is no code here: the places of an instruction's operands are found in crate `addresses`, and instructions are executed in crate `execution`.

#![tactic(auto)]
