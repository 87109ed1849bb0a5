// The ledger's entries stood in two runs of numbers, into which a lent run was copied, before they were read in place. These theorems,
// which the documents named, say that both come to the same: definitions in specs/, laws in proofs/, and no code. No function rests on them.

#![tactic(auto)]
