// Copyright 2025 The Axvisor Team
//
// Licensed under the Apache License, Version 2.0 (the text stands in LICENSE).
//
// Changed: ported to Rattle from vlapic.rs of the Rust crate x86_vlapic 0.5.4: `write_icr`, `calculate_dest`,
// `is_dest_field_matched` and `handle_self_ipi`, as functions of the words that they read (`InterruptCommand`). The
// host is asked nothing: the vCPU count and the active vCPUs come in as numbers, and an IPI is an answer (`Ipi`); each
// function has its contract.

#![tactic(auto)]

ghost use Rattle.std.specs.Prelude.{◌≡◌, ◌<◌};
ghost use Rattle.vlapic_icr.specs.Kinds.{ipi_reply};
ghost use Rattle.vlapic_icr.specs.Icr.{share, matching, in_cluster, dest_field_matched, logical_dest, physical_dest, dest_no_shorthand, calculate_dest, send, command, self_ipi};

pub mod fields;

use fields::{DeliveryMode, DestinationShorthand};
use types::{Refusal, Reply, ToReply, VcpuId, Vector};

// What a local APIC goes by when it carries out an interrupt command: mode, own id, LDR, DFR and the command's words.
#[derive(Clone, Copy, Debug, PartialEq, Eq, Hash)]
pub struct InterruptCommand {
    pub x2apic: bool,
    pub vapic_id: u32,
    pub ldr: u32,
    pub dfr: u32,
    pub icr_lo: u32,
    pub icr_hi: u32,
}

// Whether a logical destination is this APIC's.
#[derive(Clone, Copy, Debug, PartialEq, Eq, Hash)]
pub enum DestMatch {
    Matched,
    Unmatched,
    ReservedModel,
}

impl From<bool> for DestMatch {
    ghost from_gives = { λ same r. r ≡ matching same };

    fn from(same: bool) -> DestMatch {
        if same {
            DestMatch::Matched
        } else {
            DestMatch::Unmatched
        }
    }
}

// An interrupt that is sent to the vCPUs in `mask`. (In this order a sent one costs fewest instructions.)
#[derive(Clone, Copy, Debug, PartialEq, Eq, Hash)]
pub struct Ipi {
    pub kind: DeliveryMode,
    pub mask: u64,
    pub vector: Vector,
}

// Kind, as the delivery mode's number, vector and mask.
impl ToReply for Ipi {
    ghost reply_of = { ipi_reply };

    fn reply(self) -> Reply {
        Reply::Three(
            u64::from(u8::from(self.kind)),
            u64::from(self.vector.0),
            self.mask,
        )
    }
}

// What becomes of an interrupt command that is not refused.
// Stays: the new form is no plainer (of three answers `Nothing` is one; an Option of the other two says less).
#[derive(Clone, Copy, Debug, PartialEq, Eq, Hash)]
pub enum IcrAnswer {
    Nothing,
    SendIllegalVector,
    Ipi(Ipi),
}

impl InterruptCommand {
    // The logical destination against this APIC's own LDR and DFR.
    #[tactic(auto, unfolding(crate::specs::Icr::dest_field_matched))]
    pub fn is_dest_field_matched(self, dest: u32) -> DestMatch
        ensures { result ≡ dest_field_matched self dest }
    {
        if self.x2apic {
            return DestMatch::Matched;
        }
        let model = self.dfr / 0x10000000;
        if model == 15 {
            return DestMatch::from(share(self.ldr / 0x1000000, dest % 256));
        }
        if model == 0 {
            return DestMatch::from(self.is_in_cluster(dest));
        }
        DestMatch::ReservedModel
    }

    fn is_in_cluster(self, dest: u32) -> bool
        ensures { result ≡ in_cluster self.ldr dest }
    {
        self.ldr / 0x10000000 == dest / 16 % 16 && share(self.ldr / 0x1000000 % 16, dest % 16)
    }

    #[tactic(auto, unfolding(crate::specs::Icr::dest_no_shorthand))]
    fn calculate_dest_no_shorthand(self, vcpu_num: usize, active_vcpus: u64) -> Result<u64, Refusal>
        ensures { result ≡ dest_no_shorthand self vcpu_num active_vcpus }
    {
        if fields::is_broadcast(self.x2apic, self.icr_hi) {
            return Ok(active_vcpus);
        }
        let dest = fields::destination(self.x2apic, self.icr_hi);
        if fields::is_logical(self.icr_lo) {
            return logical_dest(self.is_dest_field_matched(dest), vcpu_num, active_vcpus);
        }
        physical_dest(VcpuId::of_apic(dest))
    }

    // The vCPUs that the command names.
    #[tactic(auto, unfolding(crate::specs::Icr::calculate_dest))]
    fn calculate_dest(self, vcpu_num: usize, active_vcpus: u64) -> Result<u64, Refusal>
        ensures { result ≡ calculate_dest self vcpu_num active_vcpus }
    {
        match fields::shorthand(self.icr_lo) {
            DestinationShorthand::NoShorthand => self.calculate_dest_no_shorthand(
                vcpu_num,
                active_vcpus,
            ),
            DestinationShorthand::OnlySelf => Ok(VcpuId::of_apic(self.vapic_id).mask()),
            DestinationShorthand::AllIncludingSelf => Ok(active_vcpus),
            DestinationShorthand::AllExcludingSelf => Ok(VcpuId::of_apic(
                self.vapic_id,
            ).removed_from(active_vcpus)),
        }
    }

    // Carries out the command that stands in the ICR, where the VM has `vcpu_num` vCPUs, of which those in
    // `active_vcpus` are active. Refused with `InvalidDelivery` for a reserved delivery mode, or for a logical
    // destination under a reserved model where a vCPU is active; with `OutOfRange` for a physical one above 63.
    #[tactic(auto, unfolding(crate::specs::Icr::command))]
    pub fn carry_out(self, vcpu_num: usize, active_vcpus: u64) -> Result<IcrAnswer, Refusal>
        ensures { result ≡ command self vcpu_num active_vcpus }
    {
        let lo = self.icr_lo;
        if fields::is_reserved_mode(lo) {
            return Err(Refusal::InvalidDelivery);
        }
        if fields::is_illegal_vector(lo) {
            return Ok(IcrAnswer::SendIllegalVector);
        }
        if fields::is_invalid_shorthand(lo) {
            return Ok(IcrAnswer::Nothing);
        }
        let mask = self.calculate_dest(vcpu_num, active_vcpus)?;
        Ok(send(lo, utils::set64::below(mask, vcpu_num as u64)))
    }
}

// An empty mask, lowest priority and SMI send nothing.
pub fn send(lo: u32, mask: u64) -> IcrAnswer
    ensures { result ≡ send lo mask }
{
    if mask == 0 {
        return IcrAnswer::Nothing;
    }
    if fields::is_unsent(lo) {
        return IcrAnswer::Nothing;
    }
    IcrAnswer::Ipi(Ipi {
        kind: fields::delivery_mode(lo),
        vector: fields::vector(lo),
        mask,
    })
}

// A write of the self-IPI register: a fixed interrupt to this vCPU alone.
#[tactic(auto, unfolding(crate::specs::Icr::self_ipi))]
pub fn handle_self_ipi(vcpu_id: VcpuId, vector: Vector) -> IcrAnswer
    ensures { result ≡ self_ipi vcpu_id vector }
{
    if vector.0 < 16 {
        return IcrAnswer::SendIllegalVector;
    }
    IcrAnswer::Ipi(Ipi {
        kind: DeliveryMode::Fixed,
        vector,
        mask: vcpu_id.mask(),
    })
}

// Whether two sets of up to eight have a member in common.
fn share(a: u32, b: u32) -> bool
    requires { a < 256 }
    ensures { result ≡ share a b }
{
    a & b != 0
}

// The one vCPU, by its APIC's id.
fn physical_dest(id: VcpuId) -> Result<u64, Refusal>
    ensures { result ≡ physical_dest id.0 }
{
    if id.0 < 64 {
        return Ok(id.mask());
    }
    Err(Refusal::OutOfRange)
}

fn logical_dest(matched: DestMatch, vcpu_num: usize, active_vcpus: u64) -> Result<u64, Refusal>
    ensures { result ≡ logical_dest matched vcpu_num active_vcpus }
{
    match matched {
        DestMatch::Matched => Ok(active_vcpus),
        DestMatch::Unmatched => Ok(0),
        DestMatch::ReservedModel => {
            if utils::set64::below(active_vcpus, vcpu_num as u64) == 0 {
                return Ok(0);
            }
            Err(Refusal::InvalidDelivery)
        }
    }
}
