// Theorems about the local APIC's definitions that belong to no one function, and the departures from the SDM: see
// specs/ (the statements) and proofs/.

#![tactic(auto)]
