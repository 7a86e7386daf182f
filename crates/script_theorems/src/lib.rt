// Theorems on runs of scripts: the statements stand in specs/, the proofs in proofs/.

#![tactic(auto)]
