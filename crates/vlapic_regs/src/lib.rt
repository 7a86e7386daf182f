// The rules of single registers of a local APIC, apart from the interrupt command, as functions of the words that they
// touch: the eight words of ISR, TMR and IRR, the entries of the local vector table, and the registers of one word.

#![tactic(auto)]

pub mod lvt;
pub mod register;
pub mod vectors;
