// Theorems about interrupt commands among several vCPUs: see specs/ (the statements) and proofs/.

#![tactic(auto)]
