// What holds of the image over any lines: the statements stand in specs/Statements.antt, their proofs in proofs/. No code.

#![tactic(auto)]
