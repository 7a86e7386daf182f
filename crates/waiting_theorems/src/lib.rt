// What holds of the waiting lists over any of their calls: the statements stand in specs/, their proofs in proofs/. No code.

#![tactic(auto)]
