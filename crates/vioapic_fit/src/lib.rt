// Every reply of the I/O APIC that a code stands for fits it: what the boundaries of the I/O APIC and of the board rest on. There is no code here, only proofs.

#![tactic(auto)]
