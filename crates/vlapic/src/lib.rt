// Copyright 2025 The Axvisor Team
//
// Licensed under the Apache License, Version 2.0 (the text stands in LICENSE).
//
// Changed: ported to Rattle from vlapic.rs of the Rust crate x86_vlapic 0.5.4. The register page became the words of
// `VirtualApicRegs`, with three arrays of eight; the state goes in and comes back by value; the host is asked nothing:
// the vCPU count and the active vCPUs come in as numbers, and an IPI is an answer; the highest vector in service
// (`isrv`) is searched for where it is wanted and not kept. Timer, logging and the APIC base register were left out,
// `setup` was added, and each function has its contract.

#![tactic(auto)]

ghost use Rattle.std.specs.Prelude.{◌≡◌, false, ◌<◌};
ghost use Rattle.types.specs.declared.Reply.TheVariants.{One};
ghost use Rattle.vlapic.specs.Regs.{start, with_isr, with_tmr, with_tpr, with_ldr, with_dfr, with_svr, with_errors, with_pending, with_icr_hi};
ghost use Rattle.vlapic.specs.Answers.{eoi_reply, read_reply, write_reply, eoi_outcome, write_outcome, done, refused};
ghost use Rattle.vlapic_regs.specs.Register.{low_byte, top_byte, model_bits, errors_shown, illegal_noted};
ghost use Rattle.vlapic.specs.Priority.{find_isrv, update_ppr, accept_interrupt, broadcasts, handle_eoi};
ghost use Rattle.vlapic.specs.Registers.{readable, word_at, eight_from, eight_at, handle_read, in_xapic, lvt_stored, outcome_at, write_stored};
ghost use Rattle.vlapic.specs.Calls.{out_of_range, setup, answered, write_icr, write_icr_low, write_self_ipi, handle_write};

pub mod consts;

use types::{Refusal, VcpuId, Vector};
use vlapic_icr::{IcrAnswer, InterruptCommand, Ipi};
use vlapic_regs::{lvt, register, vectors};

// The registers of one vCPU's local APIC, laid out in memory as they stand here (a caller in C lends them: crate
// vcpus).
#[repr(C)]
#[derive(Clone, Copy, Debug, PartialEq, Eq, Hash)]
pub struct VirtualApicRegs {
    // x2APIC mode; else xAPIC mode.
    pub x2apic: bool,
    // The APIC's id is its vCPU's.
    pub vapic_id: u32,
    pub tpr: u32,
    pub ppr: u32,
    pub ldr: u32,
    pub dfr: u32,
    pub svr: u32,
    pub esr: u32,
    // Errors since ESR was last written.
    pub esr_pending: u32,
    pub icr_lo: u32,
    pub icr_hi: u32,
    pub lvt_cmci: u32,
    pub lvt_timer: u32,
    pub lvt_thermal: u32,
    pub lvt_pmi: u32,
    pub lvt_lint0: u32,
    pub lvt_lint1: u32,
    pub lvt_error: u32,
    // A bit for each vector: in service, level-triggered, requested.
    pub isr: [u32; 8],
    pub tmr: [u32; 8],
    pub irr: [u32; 8],
}

// More vCPUs than a mask has bits, or an id that no mask can hold.
pub fn is_out_of_range(vcpu_num: usize, vcpu_id: VcpuId) -> bool
    ensures { result ≡ out_of_range vcpu_num vcpu_id.0 }
{
    vcpu_num > 64 || vcpu_id.0 > 63
}

// The start, by id and mode.
fn reset(x2apic: bool, vapic_id: u32) -> VirtualApicRegs
    ensures { result ≡ start x2apic vapic_id }
{
    VirtualApicRegs {
        x2apic,
        vapic_id,
        tpr: 0,
        ppr: 0,
        ldr: 0,
        dfr: 0xffffffff,
        svr: consts::RESET_SPURIOUS_INTERRUPT_VECTOR,
        esr: 0,
        esr_pending: 0,
        icr_lo: 0,
        icr_hi: 0,
        lvt_cmci: consts::RESET_LVT_REG,
        lvt_timer: consts::RESET_LVT_REG,
        lvt_thermal: consts::RESET_LVT_REG,
        lvt_pmi: consts::RESET_LVT_REG,
        lvt_lint0: consts::RESET_LVT_REG,
        lvt_lint1: consts::RESET_LVT_REG,
        lvt_error: consts::RESET_LVT_REG,
        isr: [0; 8],
        tmr: [0; 8],
        irr: [0; 8],
    }
}

impl VirtualApicRegs {
    // The local APIC of vCPU 0 in xAPIC mode.
    pub fn new() -> Self
        ensures { done result ≡ done (start false 0) }
    {
        reset(false, 0)
    }

    // A new local APIC in the place of this one: mode, own id, and how many vCPUs the VM has.
    #[tactic(auto, using(crate::proofs::Range::id_kept_lem), unfolding(crate::specs::Calls::setup))]
    pub fn setup(
        self,
        x2apic: bool,
        vcpu_id: VcpuId,
        vcpu_num: usize,
    ) -> (Self, Result<Option<Ipi>, Refusal>)
        ensures { write_outcome result ≡ setup self x2apic vcpu_id vcpu_num }
    {
        if is_out_of_range(vcpu_num, vcpu_id) {
            return self.refuse(Refusal::OutOfRange);
        }
        reset(x2apic, vcpu_id.apic_id()).ok()
    }

    fn ok(self) -> (Self, Result<Option<Ipi>, Refusal>)
        ensures { write_outcome result ≡ done self }
    {
        (self, Ok(None))
    }

    fn refuse(self, why: Refusal) -> (Self, Result<Option<Ipi>, Refusal>)
        ensures { write_outcome result ≡ refused self why }
    {
        (self, Err(why))
    }

    // The highest vector in service, or 0.
    // Stays: what may not change (the clause: `highest_from` is 0 where there is none) keeps 0 for none.
    fn find_isrv(self) -> Vector
        ensures { result.0 ≡ find_isrv self }
    {
        vectors::find_isrv(self.isr)
    }

    #[tactic(auto, unfolding(crate::specs::Priority::update_ppr))]
    fn update_ppr(mut self) -> Self
        ensures { result ≡ update_ppr self }
    {
        let isrv = self.find_isrv();
        self.ppr = register::ppr(self.tpr, isrv);
        self
    }

    // Puts the vectors that are in service and those that are level-triggered.
    fn service(mut self, isr: [u32; 8], tmr: [u32; 8]) -> Self
        ensures { result ≡ update_ppr (with_tmr (with_isr self isr) tmr) }
    {
        self.isr = isr;
        self.tmr = tmr;
        self.update_ppr()
    }

    // Records that the processor accepted an interrupt.
    #[tactic(auto, unfolding(crate::specs::Priority::accept_interrupt))]
    pub fn accept_interrupt(self, vector: Vector, level_triggered: bool) -> Self
        ensures { done result ≡ accept_interrupt self vector level_triggered }
    {
        if level_triggered {
            return self.service(
                vectors::with(self.isr, vector),
                vectors::with(self.tmr, vector),
            );
        }
        self.service(
            vectors::with(self.isr, vector),
            vectors::without(self.tmr, vector),
        )
    }

    // Whether the end of the vector is broadcast: it is level-triggered, and SVR bit 12 doesn't suppress it.
    fn is_broadcast_eoi(self, vector: Vector) -> bool
        ensures { result ≡ broadcasts self vector.0 }
    {
        register::is_eoi_broadcast(vectors::has(self.tmr, vector), self.svr)
    }

    #[tactic(auto, unfolding(crate::specs::Priority::handle_eoi))]
    fn process_eoi(self) -> (Self, Option<Vector>)
        ensures { eoi_outcome result ≡ handle_eoi self }
    {
        let vector = self.find_isrv();
        if vector.0 == 0 {
            return (self, None);
        }
        let regs = self.service(vectors::without(self.isr, vector), self.tmr);
        if self.is_broadcast_eoi(vector) {
            return (regs, Some(vector));
        }
        (regs, None)
    }

    // A guest's EOI, and the vector that it broadcasts to the I/O APICs.
    pub fn handle_eoi(self) -> (Self, Option<Vector>)
        ensures { eoi_outcome result ≡ handle_eoi self }
    {
        self.process_eoi()
    }
}

// One of eight words that stand 0x10 apart.
fn is_eight_from(base: u64, offset: u64) -> bool
    requires { base < 0x1000 }
    ensures { result ≡ eight_from base offset }
{
    offset % 16 == 0 && base <= offset && offset < base + 0x80
}

fn word_at(words: [u32; 8], offset: u64) -> Result<u32, Refusal>
    ensures { read_reply result ≡ One (eight_at words offset) }
{
    let i = (offset / 16 % 8) as usize;
    Ok(words[i])
}

impl VirtualApicRegs {
    // Reads the register at an offset: the word that is stored.
    #[tactic(auto, unfolding(crate::specs::Registers::handle_read))]
    pub fn handle_read(self, offset: u64) -> Result<u32, Refusal>
        ensures { read_reply result ≡ handle_read self offset }
    {
        if is_eight_from(consts::ISR, offset) {
            return word_at(self.isr, offset);
        }
        if is_eight_from(consts::TMR, offset) {
            return word_at(self.tmr, offset);
        }
        self.read_word(offset)
    }

    // Reads a register of one word.
    fn read_word(self, offset: u64) -> Result<u32, Refusal>
        ensures { read_reply result ≡ word_at (readable self) offset }
    {
        match offset {
            consts::ID => Ok(register::id(self.x2apic, self.vapic_id)),
            consts::TPR => Ok(self.tpr),
            consts::PPR => Ok(self.ppr),
            consts::LDR => Ok(self.ldr),
            consts::DFR => Ok(self.dfr),
            consts::SIVR => Ok(self.svr),
            consts::ESR => Ok(self.esr),
            consts::LVT_CMCI => Ok(self.lvt_cmci),
            consts::ICR_LOW => Ok(self.icr_lo),
            consts::ICR_HI => Ok(self.icr_hi),
            consts::LVT_TIMER => Ok(self.lvt_timer),
            consts::LVT_THERMAL => Ok(self.lvt_thermal),
            consts::LVT_PMC => Ok(self.lvt_pmi),
            consts::LVT_LINT0 => Ok(self.lvt_lint0),
            consts::LVT_LINT1 => Ok(self.lvt_lint1),
            consts::LVT_ERR => Ok(self.lvt_error),
            _ => Err(Refusal::InvalidRegister),
        }
    }
}

impl VirtualApicRegs {
    fn write_tpr(mut self, val: u32) -> Self
        ensures { result ≡ with_tpr self (low_byte val) }
    {
        self.tpr = register::tpr(val);
        self
    }

    fn write_ldr(mut self, val: u32) -> Self
        ensures { result ≡ with_ldr self (top_byte val) }
    {
        self.ldr = register::ldr(val);
        self
    }

    fn write_dfr(mut self, val: u32) -> Self
        ensures { result ≡ with_dfr self (model_bits val) }
    {
        self.dfr = register::dfr(val);
        self
    }

    fn write_svr(mut self, val: u32) -> Self
        ensures { result ≡ with_svr self val }
    {
        self.svr = register::svr(val);
        self
    }

    // Shows the errors since the last write.
    fn write_esr(mut self) -> Self
        ensures { result ≡ with_errors self (errors_shown self.esr_pending) }
    {
        let errors = register::esr(self.esr_pending);
        self.esr = errors.esr;
        self.esr_pending = errors.esr_pending;
        self
    }

    fn write_icr_hi(mut self, val: u32) -> Self
        ensures { result ≡ with_icr_hi self (top_byte val) }
    {
        self.icr_hi = register::icr_hi(val);
        self
    }

    // Writes an entry of the local vector table; another offset is refused.
    fn write_lvt(mut self, offset: u64, val: u32) -> (Self, Result<Option<Ipi>, Refusal>)
        ensures { write_outcome result ≡ outcome_at self (lvt_stored self val) offset }
    {
        match offset {
            consts::LVT_CMCI => {
                self.lvt_cmci = lvt::monitor(val);
                self.ok()
            }
            consts::LVT_TIMER => {
                self.lvt_timer = lvt::timer(val);
                self.ok()
            }
            consts::LVT_THERMAL => {
                self.lvt_thermal = lvt::monitor(val);
                self.ok()
            }
            consts::LVT_PMC => {
                self.lvt_pmi = lvt::monitor(val);
                self.ok()
            }
            consts::LVT_LINT0 => {
                self.lvt_lint0 = lvt::pin(val);
                self.ok()
            }
            consts::LVT_LINT1 => {
                self.lvt_lint1 = lvt::pin(val);
                self.ok()
            }
            consts::LVT_ERR => {
                self.lvt_error = lvt::error(val);
                self.ok()
            }
            _ => self.refuse(Refusal::InvalidRegister),
        }
    }

    // What a register that only xAPIC mode has leaves after its write.
    fn in_xapic(self, next: VirtualApicRegs) -> (Self, Result<Option<Ipi>, Refusal>)
        ensures { write_outcome result ≡ in_xapic self next }
    {
        if self.x2apic {
            return self.refuse(Refusal::InvalidRegister);
        }
        next.ok()
    }

    // Writes a register that only stores the value.
    #[tactic(auto, unfolding(crate::specs::Registers::write_stored, crate::specs::Registers::stored))]
    fn write_register(self, offset: u64, val: u32) -> (Self, Result<Option<Ipi>, Refusal>)
        ensures { write_outcome result ≡ write_stored self offset val }
    {
        match offset {
            // Force APIC ID to be read-only.
            consts::ID => self.ok(),
            consts::TPR => self.write_tpr(val).ok(),
            consts::LDR => self.in_xapic(self.write_ldr(val)),
            consts::DFR => self.in_xapic(self.write_dfr(val)),
            consts::SIVR => self.write_svr(val).ok(),
            consts::ESR => self.write_esr().ok(),
            consts::ICR_HI => self.in_xapic(self.write_icr_hi(val)),
            _ => self.write_lvt(offset, val),
        }
    }

    // Keeps the error until ESR is written: a vector below 16 was to be sent.
    fn set_err(mut self) -> Self
        ensures { result ≡ with_pending self (illegal_noted self.esr_pending) }
    {
        self.esr_pending = register::illegal_noted(self.esr_pending);
        self
    }

    // What becomes of an interrupt command.
    fn answer(self, answer: Result<IcrAnswer, Refusal>) -> (Self, Result<Option<Ipi>, Refusal>)
        ensures { write_outcome result ≡ answered self answer }
    {
        match answer {
            Ok(IcrAnswer::Nothing) => self.ok(),
            Ok(IcrAnswer::SendIllegalVector) => self.set_err().ok(),
            Ok(IcrAnswer::Ipi(ipi)) => (self, Ok(Some(ipi))),
            Err(why) => self.refuse(why),
        }
    }

    // Puts the command's words, the delivery status cleared, and carries the command out.
    #[tactic(auto, unfolding(crate::specs::Calls::write_icr))]
    fn write_icr(
        mut self,
        lo: u32,
        hi: u32,
        vcpu_num: usize,
        active_vcpus: u64,
    ) -> (Self, Result<Option<Ipi>, Refusal>)
        ensures { write_outcome result ≡ write_icr self lo hi vcpu_num active_vcpus }
    {
        self.icr_lo = vlapic_icr::fields::idle(lo);
        self.icr_hi = hi;
        let command = InterruptCommand {
            x2apic: self.x2apic,
            vapic_id: self.vapic_id,
            ldr: self.ldr,
            dfr: self.dfr,
            icr_lo: self.icr_lo,
            icr_hi: hi,
        };
        self.answer(command.carry_out(vcpu_num, active_vcpus))
    }

    // A write of the ICR's low word; in x2APIC mode of both words.
    #[tactic(auto, unfolding(crate::specs::Calls::write_icr_low))]
    fn write_icr_low(
        self,
        val: u64,
        width: u8,
        vcpu_num: usize,
        active_vcpus: u64,
    ) -> (Self, Result<Option<Ipi>, Refusal>)
        ensures { write_outcome result ≡ write_icr_low self val width vcpu_num active_vcpus }
    {
        if vlapic_icr::fields::is_icr_width(self.x2apic, u64::from(width)) {
            let lo = (val % 0x100000000) as u32;
            let hi = vlapic_icr::fields::icr_high(self.x2apic, val, self.icr_hi);
            return self.write_icr(lo, hi, vcpu_num, active_vcpus);
        }
        self.refuse(Refusal::InvalidRegister)
    }

    // A write of the self-IPI register, which x2APIC mode alone has.
    #[tactic(auto, unfolding(crate::specs::Calls::write_self_ipi))]
    fn write_self_ipi(self, val: u64) -> (Self, Result<Option<Ipi>, Refusal>)
        ensures { write_outcome result ≡ write_self_ipi self val }
    {
        if self.x2apic {
            let vector = Vector((val % 256) as u8);
            return self.answer(Ok(vlapic_icr::handle_self_ipi(
                VcpuId::of_apic(self.vapic_id),
                vector,
            )));
        }
        self.refuse(Refusal::InvalidRegister)
    }

    // The EOI register: what is broadcast is dropped.
    fn write_eoi(self) -> (Self, Result<Option<Ipi>, Refusal>)
        ensures { write_outcome result ≡ done (handle_eoi self).state }
    {
        let (regs, _told) = self.process_eoi();
        regs.ok()
    }

    // Writes the register at an offset, where the VM has `vcpu_num` vCPUs, of which those in `active_vcpus` are active.
    pub fn handle_write(
        self,
        offset: u64,
        val: u64,
        width: u8,
        vcpu_num: usize,
        active_vcpus: u64,
    ) -> (Self, Result<Option<Ipi>, Refusal>)
        ensures { write_outcome result ≡ handle_write self offset val width vcpu_num active_vcpus }
    {
        if is_out_of_range(vcpu_num, VcpuId::of_apic(self.vapic_id)) {
            return self.refuse(Refusal::OutOfRange);
        }
        match offset {
            consts::EOI => self.write_eoi(),
            consts::ICR_LOW => self.write_icr_low(val, width, vcpu_num, active_vcpus),
            consts::SELF_IPI => self.write_self_ipi(val),
            _ => self.write_register(offset, (val % 0x100000000) as u32),
        }
    }
}
