// Theorems over any public calls on one I/O APIC. There is no code here: the statements are in specs/, their proofs in proofs/.

#![tactic(auto)]
