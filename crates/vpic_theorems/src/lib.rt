// What holds of the 8259 pair over any of its calls: the statements stand in specs/Statements.antt, their proofs in proofs/. No code.

#![tactic(auto)]
