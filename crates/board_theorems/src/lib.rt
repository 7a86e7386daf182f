// Theorems over any calls on a board. There is no code here: the statements are in specs/, their proofs in proofs/.

#![tactic(auto)]
