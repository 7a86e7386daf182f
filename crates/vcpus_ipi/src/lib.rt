// An interrupt command among several vCPUs, record by record: what one vCPU's record is, whether a command reaches it,
// and what is left in it. Each rule is a function of one record by value; crate vcpus passes over a lent slice of them.
// Not in the Rust crate: there the sender's LDR decides for all (D-65).

#![tactic(auto)]

ghost use Rattle.std.specs.Prelude.{◌≡◌, false, cond, ◌&&◌, eqb};
ghost use Rattle.utils.specs.Set.{bit};
ghost use Rattle.vlapic_requests.specs.Requests.{request};
ghost use Rattle.vlapic_icr.specs.Kinds.{mode_number};
ghost use Rattle.vlapic_theorems.specs.Targets.{field, is_target, is_logical_target, asks_active, cluster16};
ghost use Rattle.vlapic_theorems.specs.Numbers.{is_above63};
ghost use Rattle.vcpus_ipi.specs.Vcpu.{with_regs, with_startup};
ghost use Rattle.vcpus_ipi.specs.Ipi.{icr_of, is_icr, is_sending, command_for, destination, receiver, is_hit, is_unmatchable, is_logical_dest, received, noted, answering, is_outside};
ghost use Rattle.vcpus_ipi.specs.Steps.{begun, joined, seen_by, asked, is_named, is_matched, decided_answer, refusing, decided, taking, changed_by, answered};

use reply_code::code;
use types::{Refusal, Reply, VcpuId, Vector};
use utils::Set;
use vlapic::{VirtualApicRegs, consts};
use vlapic_icr::fields::{self, DeliveryMode, DestinationShorthand};
use vlapic_icr::{DestMatch, IcrAnswer, InterruptCommand, Ipi};
use vlapic_regs::{register, vectors};

// One vCPU: the registers of its local APIC, and what waits for the processor. Laid out in memory as it stands here
// (include/sillwander.h).
#[repr(C)]
#[derive(Clone, Copy, Debug, PartialEq, Eq, Hash)]
pub struct Vcpu {
    pub regs: VirtualApicRegs,
    // An NMI, an INIT and a start-up IPI wait; the vector of the last start-up IPI.
    pub nmi: bool,
    pub init: bool,
    pub startup: bool,
    pub startup_vector: u8,
}

// A write of a register that sends: by which vCPU, where, what and how wide; and the vCPUs that are active.
#[derive(Clone, Copy, Debug, PartialEq, Eq, Hash)]
pub struct Ask {
    pub sender: VcpuId,
    pub offset: u64,
    pub value: u64,
    pub width: u64,
    pub active: u64,
}

// A mode, and the words of an ICR.
#[derive(Clone, Copy, Debug, PartialEq, Eq, Hash)]
pub struct Command {
    pub x2apic: bool,
    pub icr_lo: u32,
    pub icr_hi: u32,
}

// What a pass over the records looks for, and what it found so far.
#[derive(Clone, Copy, Debug, PartialEq, Eq, Hash)]
pub struct Plan {
    pub count: usize,
    pub ask: Ask,
    // Of the sender, as it stands in its record.
    pub from: Command,
    // The command that is carried out.
    pub command: Command,
    // Whom it reaches, and whether there is an active vCPU whose DFR has a reserved model.
    pub mask: u64,
    pub reserved: bool,
}

// What is done to the records: the sender's ICR takes the words of the command that `stores` has, if any, and the
// answer is carried out.
#[derive(Clone, Copy, Debug, PartialEq, Eq, Hash)]
pub struct Effect {
    pub sender: VcpuId,
    pub stores: Option<Command>,
    pub answer: Result<IcrAnswer, Refusal>,
}

// What the caller is answered: the code of the reply, in which an IPI has two values, kind and vector, and the mask of
// those whom it was sent to.
#[repr(C)]
#[derive(Clone, Copy, Debug, PartialEq, Eq, Hash)]
pub struct Sent {
    pub code: u64,
    pub mask: u64,
}

// A command of SELF IPI: fixed, shorthand self.
const TO_SELF: u32 = 0x40000;

// A vCPU at its place among the records, which is its id.
#[derive(Clone, Copy, Debug, PartialEq, Eq, Hash)]
struct Placed {
    vcpu: Vcpu,
    place: usize,
}

// ---- Sets of places

fn has(set: u64, place: usize) -> bool
    ensures { result ≡ bit set place }
{
    place < 64 && set.has(place as u32)
}

fn joined(set: u64, place: usize) -> u64
    ensures { result ≡ joined set place }
{
    if place < 64 {
        return set.with(place as u32);
    }
    set
}

// ---- The command

impl Vcpu {
    fn icr(self) -> Command
        ensures { result ≡ icr_of self }
    {
        Command {
            x2apic: self.regs.x2apic,
            icr_lo: self.regs.icr_lo,
            icr_hi: self.regs.icr_hi,
        }
    }
}

impl Ask {
    fn is_icr(self) -> bool
        ensures { result ≡ is_icr self }
    {
        self.offset == consts::ICR_LOW
    }

    fn is_sending(self, x2apic: bool) -> bool
        ensures { result ≡ is_sending self x2apic }
    {
        if self.is_icr() {
            return fields::is_icr_width(x2apic, self.width);
        }
        self.offset == consts::SELF_IPI && x2apic
    }

    fn is_outside(self, count: usize) -> bool
        ensures { result ≡ is_outside count self }
    {
        count > 64 || self.sender.0 >= count
    }

    // The command that is asked for, by the sender's mode and ICR.
    fn command(self, from: Command) -> Command
        ensures { result ≡ command_for self from }
    {
        if self.is_icr() {
            return Command {
                icr_lo: fields::idle((self.value % 0x100000000) as u32),
                icr_hi: fields::icr_high(from.x2apic, self.value, from.icr_hi),
                ..from
            };
        }
        Command {
            icr_lo: TO_SELF + (self.value % 256) as u32,
            ..from
        }
    }
}

impl Command {
    // The destination that stands in it.
    fn dest(self) -> u32
        ensures { result ≡ field self.x2apic self.icr_hi }
    {
        fields::destination(self.x2apic, self.icr_hi)
    }

    fn is_broadcast(self) -> bool
        ensures { result ≡ eqb (field self.x2apic self.icr_hi) (cond self.x2apic 0xffffffff 0xff) }
    {
        fields::is_broadcast(self.x2apic, self.icr_hi)
    }

    fn is_target(self, sender: VcpuId, to: Placed) -> bool
        ensures { result ≡ is_target sender.0 (destination self) (receiver to.place to.vcpu) }
    {
        match fields::shorthand(self.icr_lo) {
            DestinationShorthand::OnlySelf => to.place == sender.0,
            DestinationShorthand::AllIncludingSelf => true,
            DestinationShorthand::AllExcludingSelf => to.place != sender.0,
            DestinationShorthand::NoShorthand if self.is_broadcast() => true,
            DestinationShorthand::NoShorthand if fields::is_logical(self.icr_lo) => {
                to.is_logical_target(self.dest())
            }
            DestinationShorthand::NoShorthand => to.place == self.dest() as usize,
        }
    }

    // Active vCPUs alone are reached: by every destination but self and a physical one.
    fn asks_active(self) -> bool
        ensures { result ≡ asks_active (destination self) }
    {
        match fields::shorthand(self.icr_lo) {
            DestinationShorthand::OnlySelf => false,
            DestinationShorthand::AllIncludingSelf | DestinationShorthand::AllExcludingSelf => true,
            DestinationShorthand::NoShorthand => {
                self.is_broadcast() || fields::is_logical(self.icr_lo)
            }
        }
    }

    fn is_above_63(self) -> bool
        ensures { result ≡ is_above63 (destination self) }
    {
        !self.is_named() && !fields::is_logical(self.icr_lo) && self.dest() > 63
    }

    fn is_logical_dest(self) -> bool
        ensures { result ≡ is_logical_dest (destination self) }
    {
        !self.is_named() && fields::is_logical(self.icr_lo)
    }

    // A shorthand or broadcast.
    fn is_named(self) -> bool
        ensures { result ≡ is_named self }
    {
        fields::shorthand(self.icr_lo) != DestinationShorthand::NoShorthand || self.is_broadcast()
    }

    #[tactic(auto, unfolding(crate::specs::Ipi::is_hit))]
    fn is_hit(self, ask: Ask, to: Placed) -> bool
        ensures { result ≡ is_hit ask.sender.0 ask.active self to.place to.vcpu }
    {
        self.is_target(ask.sender, to) && (has(ask.active, to.place) || !self.asks_active())
    }
}

// ---- One record against a destination

// Whether the member bits of `dest` have the one that x2APIC mode derives from the id.
fn is_in_cluster16(id: usize, dest: u32) -> bool
    ensures { result ≡ cluster16 id dest }
{
    id / 16 % 0x10000 == (dest / 0x10000) as usize && dest.has((id % 16) as u32)
}

fn is_matched(matched: DestMatch) -> bool
    ensures { result ≡ is_matched matched }
{
    matched == DestMatch::Matched
}

impl Placed {
    // The logical destination against this vCPU's own LDR and DFR, in its own mode.
    #[tactic(auto, using(crate::proofs::Destinations::own_matched))]
    fn is_logical_target(self, dest: u32) -> bool
        ensures { result ≡ is_logical_target (receiver self.place self.vcpu) dest }
    {
        let regs = self.vcpu.regs;
        if regs.x2apic {
            return is_in_cluster16(self.place, dest);
        }
        let own = InterruptCommand {
            x2apic: false,
            vapic_id: regs.vapic_id,
            ldr: regs.ldr,
            dfr: regs.dfr,
            icr_lo: regs.icr_lo,
            icr_hi: regs.icr_hi,
        };
        is_matched(own.is_dest_field_matched(dest))
    }

    // It is active, in xAPIC mode, and its DFR has a reserved model.
    #[tactic(auto, unfolding(crate::specs::Ipi::is_unmatchable))]
    fn is_unmatchable(self, active: u64) -> bool
        ensures { result ≡ is_unmatchable active self.place self.vcpu }
    {
        let regs = self.vcpu.regs;
        has(active, self.place) && !regs.x2apic && !matches!(regs.dfr / 0x10000000, 0 | 15)
    }

    // What the answer leaves of it: the sender notes an illegal vector, and those in the mask receive what is sent.
    fn answering(self, answer: Result<IcrAnswer, Refusal>, sender: VcpuId) -> Vcpu
        ensures { result ≡ answering answer (eqb self.place sender.0) self.place self.vcpu }
    {
        match answer {
            Ok(IcrAnswer::SendIllegalVector) if self.place == sender.0 => self.vcpu.noted(),
            Ok(IcrAnswer::Ipi(ipi)) if has(ipi.mask, self.place) => self.vcpu.received(ipi),
            Ok(_) => self.vcpu,
            Err(_) => self.vcpu,
        }
    }
}

// ---- What is left in a record

impl Vcpu {
    // An edge-triggered request.
    #[tactic(auto, unfolding(vlapic_requests::specs::Requests::request))]
    fn requested(mut self, vector: Vector) -> Vcpu
        ensures { result ≡ with_regs self (request self.regs vector false) }
    {
        self.regs.irr = vectors::with(self.regs.irr, vector);
        self.regs.tmr = vectors::without(self.regs.tmr, vector);
        self
    }

    fn with_startup(mut self, vector: Vector) -> Vcpu
        ensures { result ≡ with_startup self vector.0 }
    {
        self.startup = true;
        self.startup_vector = vector.0;
        self
    }

    #[tactic(auto, unfolding(crate::specs::Ipi::received))]
    fn received(mut self, ipi: Ipi) -> Vcpu
        ensures { result ≡ received (mode_number ipi.kind) ipi.vector self }
    {
        match ipi.kind {
            DeliveryMode::Fixed => self.requested(ipi.vector),
            DeliveryMode::Nmi => {
                self.nmi = true;
                self
            }
            DeliveryMode::Init => {
                self.init = true;
                self
            }
            _ => self.with_startup(ipi.vector),
        }
    }

    // The words of a command go to the ICR, where there is one.
    fn stored(mut self, stores: Option<Command>) -> Vcpu
        ensures { result ≡ taking stores self }
    {
        if let Some(command) = stores {
            self.regs.icr_lo = command.icr_lo;
            self.regs.icr_hi = command.icr_hi;
        }
        self
    }

    fn noted(mut self) -> Vcpu
        ensures { result ≡ noted self }
    {
        self.regs.esr_pending = register::illegal_noted(self.regs.esr_pending);
        self
    }
}

// ---- The steps of a call

#[tactic(auto, unfolding(crate::specs::Steps::begun))]
pub fn begin(count: usize, sender: usize, offset: u64, value: u64, width: u64, active: u64) -> Plan
    ensures { result ≡ begun count sender offset value width active }
{
    let none = Command {
        x2apic: false,
        icr_lo: 0,
        icr_hi: 0,
    };
    Plan {
        count,
        ask: Ask {
            sender: VcpuId(sender),
            offset,
            value,
            width,
            active,
        },
        from: none,
        command: none,
        mask: 0,
        reserved: false,
    }
}

// A record is looked at.
#[tactic(auto, unfolding(crate::specs::Steps::seen_by))]
pub fn seen(plan: Plan, vcpu: Vcpu, place: usize) -> Plan
    ensures { result ≡ seen_by plan vcpu place }
{
    let placed = Placed { vcpu, place };
    Plan {
        from: plan.sender_in(placed),
        mask: plan.mask_with(placed),
        reserved: plan.reserved_with(placed),
        ..plan
    }
}

impl Plan {
    #[tactic(auto, unfolding(crate::specs::Steps::seen_by))]
    fn sender_in(self, placed: Placed) -> Command
        ensures { result ≡ (seen_by self placed.vcpu placed.place).from }
    {
        if placed.place == self.ask.sender.0 {
            return placed.vcpu.icr();
        }
        self.from
    }

    #[tactic(auto, unfolding(crate::specs::Steps::seen_by))]
    fn mask_with(self, placed: Placed) -> u64
        ensures { result ≡ (seen_by self placed.vcpu placed.place).mask }
    {
        if self.command.is_hit(self.ask, placed) {
            return joined(self.mask, placed.place);
        }
        self.mask
    }

    #[tactic(auto, unfolding(crate::specs::Steps::seen_by))]
    fn reserved_with(self, placed: Placed) -> bool
        ensures { result ≡ (seen_by self placed.vcpu placed.place).reserved }
    {
        placed.is_unmatchable(self.ask.active) || self.reserved
    }

    // A logical destination, where somebody can't be held against it.
    fn is_barred(self) -> bool
        ensures { result ≡ is_logical_dest (destination self.command) && self.reserved }
    {
        self.command.is_logical_dest() && self.reserved
    }

    fn answer(self) -> Result<IcrAnswer, Refusal>
        ensures { result ≡ decided_answer self }
    {
        let lo = self.command.icr_lo;
        if fields::is_reserved_mode(lo) {
            return Err(Refusal::InvalidDelivery);
        }
        if fields::is_illegal_vector(lo) {
            return Ok(IcrAnswer::SendIllegalVector);
        }
        if fields::is_invalid_shorthand(lo) {
            return Ok(IcrAnswer::Nothing);
        }
        if self.command.is_above_63() {
            return Err(Refusal::OutOfRange);
        }
        if self.is_barred() {
            return Err(Refusal::InvalidDelivery);
        }
        Ok(vlapic_icr::send(lo, self.mask))
    }

    fn refuse(self, why: Refusal) -> Effect
        ensures { result ≡ refusing self why }
    {
        Effect {
            sender: self.ask.sender,
            stores: None,
            answer: Err(why),
        }
    }
}

// The first pass found the sender: the command that is asked of it, before anybody is found whom it reaches.
#[tactic(auto, unfolding(crate::specs::Steps::asked))]
pub fn asked(plan: Plan) -> Plan
    ensures { result ≡ asked plan }
{
    Plan {
        command: plan.ask.command(plan.from),
        mask: 0,
        reserved: false,
        ..plan
    }
}

// The second pass found whom it reaches: what is done.
#[tactic(auto, unfolding(crate::specs::Steps::decided))]
pub fn decide(plan: Plan) -> Effect
    ensures { result ≡ decided plan }
{
    if plan.ask.is_outside(plan.count) {
        return plan.refuse(Refusal::OutOfRange);
    }
    if plan.ask.is_sending(plan.from.x2apic) {
        return Effect {
            sender: plan.ask.sender,
            stores: plan.ask.is_icr().then_some(plan.command),
            answer: plan.answer(),
        };
    }
    plan.refuse(Refusal::InvalidRegister)
}

// What is left of a record.
#[tactic(auto, unfolding(crate::specs::Steps::changed_by))]
pub fn changed(vcpu: Vcpu, effect: Effect, place: usize) -> Vcpu
    ensures { result ≡ changed_by effect vcpu place }
{
    let vcpu = if place == effect.sender.0 {
        vcpu.stored(effect.stores)
    } else {
        vcpu
    };
    Placed { vcpu, place }.answering(effect.answer, effect.sender)
}

#[tactic(auto, unfolding(crate::specs::Steps::answered))]
pub fn answer(effect: Effect) -> Sent
    ensures { result ≡ answered effect }
{
    let (reply, mask) = match effect.answer {
        Ok(IcrAnswer::Nothing | IcrAnswer::SendIllegalVector) => (Reply::Nothing, 0),
        Ok(IcrAnswer::Ipi(ipi)) => {
            let kind = u64::from(u8::from(ipi.kind));
            (Reply::Two(kind, u64::from(ipi.vector.0)), ipi.mask)
        }
        Err(why) => (Reply::Refused(why), 0),
    };
    Sent {
        code: code(reply),
        mask,
    }
}
