// Theorems over any calls on a board: how long a request can wait. There is no code here: the statements are in specs/,
// their proofs in proofs/.

#![tactic(auto)]
