// Copyright 2025 The Axvisor Team
//
// Licensed under the Apache License, Version 2.0 (the text stands in LICENSE).
//
// Changed: ported to Rattle from vlapic.rs of the Rust crate x86_vlapic 0.5.4: what `handle_read`, `handle_write`,
// `set_err`, `update_ppr` and `process_eoi` do to a single register, each as a function of the words that it goes by.

ghost use Rattle.std.specs.Prelude.{◌≡◌};
ghost use Rattle.vlapic_regs.specs.Register.{id_word, low_byte, top_byte, model_bits, errors_shown, illegal_noted, priority, broadcast};

use types::Vector;
use utils::Set;

// The error status register's bit "send illegal vector".
const SEND_ILLEGAL_VECTOR: u32 = 5;

// The spurious-interrupt vector register's bit "suppress EOI broadcasts".
const SUPPRESS_EOI_BROADCASTS: u32 = 12;

// The ID register's word.
pub fn id(x2apic: bool, vapic_id: u32) -> u32
    ensures { result ≡ id_word x2apic vapic_id }
{
    if x2apic {
        vapic_id
    } else {
        vapic_id % 256 * 0x1000000
    }
}

// What TPR keeps of a value.
pub fn tpr(val: u32) -> u32
    ensures { result ≡ low_byte val }
{
    val % 0x100
}

// LDR.
pub fn ldr(val: u32) -> u32
    ensures { result ≡ top_byte val }
{
    val / 0x1000000 * 0x1000000
}

// DFR.
pub fn dfr(val: u32) -> u32
    ensures { result ≡ model_bits val }
{
    val / 0x10000000 * 0x10000000 + 0xfffffff
}

// SVR.
pub fn svr(val: u32) -> u32
    ensures { result ≡ val }
{
    val
}

// The ICR's high word, in xAPIC mode.
pub fn icr_hi(val: u32) -> u32
    ensures { result ≡ top_byte val }
{
    ldr(val)
}

// ESR, and the errors since it was last written.
#[derive(Clone, Copy, Debug, PartialEq, Eq, Hash)]
pub struct Errors {
    pub esr: u32,
    pub esr_pending: u32,
}

// What a write of ESR leaves of them: it shows those that are pending.
pub fn esr(esr_pending: u32) -> Errors
    ensures { result ≡ errors_shown esr_pending }
{
    Errors {
        esr: esr_pending,
        esr_pending: 0,
    }
}

// The pending errors after a vector below 16 was to be sent.
pub fn illegal_noted(esr_pending: u32) -> u32
    ensures { result ≡ illegal_noted esr_pending }
{
    esr_pending.with(SEND_ILLEGAL_VECTOR)
}

// PPR by TPR and the highest vector in service.
pub fn ppr(tpr: u32, isrv: Vector) -> u32
    ensures { result ≡ priority tpr isrv.0 }
{
    let class = utils::prio(u32::from(isrv.0)) * 16;
    // So is its class, for the class above has subclass 0.
    if tpr % 256 >= class {
        return tpr;
    }
    class
}

// Whether the end of a vector is broadcast, by its trigger mode: SVR bit 12 suppresses it.
pub fn is_eoi_broadcast(level_triggered: bool, svr: u32) -> bool
    ensures { result ≡ broadcast level_triggered svr }
{
    level_triggered && !svr.has(SUPPRESS_EOI_BROADCASTS)
}
