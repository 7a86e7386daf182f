// The local APIC in place, over 48 words that a caller lends (include/sillwander.h has the layout): the calls of
// `VirtualApicRegs` under the same names, each on the words that it must touch. The rules of single registers are those
// of vlapic_regs and vlapic_icr.

#![tactic(auto)]

ghost use Rattle.std.specs.Prelude.{◌+◌, ◌*◌, ◌≤◌, ◌<◌, false, ◌≡◌, set};
ghost use Rattle.utils.specs.Set.{last_set32};
ghost use Rattle.types.specs.declared.Reply.TheVariants.{Nothing};
ghost use Rattle.vlapic_regs.specs.Vectors.{in_words};
ghost use Rattle.vlapic_regs.specs.Register.{errors_shown};
ghost use Rattle.vlapic.specs.Regs.{with_word, with_errors};
ghost use Rattle.vlapic.specs.Answers.{eoi_reply, read_reply, write_reply, done};
ghost use Rattle.vlapic.specs.Priority.{accept_interrupt, handle_eoi};
ghost use Rattle.vlapic.specs.Registers.{handle_read, in_xapic, write_stored};
ghost use Rattle.vlapic.specs.Calls.{out_of_range, setup, answered, write_icr, write_icr_low, write_self_ipi, handle_write};
ghost use Rattle.vlapic_words.specs.Words.{word, eight, view};
ghost use Rattle.vlapic_words.specs.Calls.{Leaves, IsNew, command_stored, icr_refused, refused_words};
ghost use Rattle.vlapic_words.specs.Steps.{start_words, served, marked_in, ranked, ended};

use types::{Refusal, VcpuId, Vector};
use utils::{holds, low, mark, put};
use vlapic::consts;
use vlapic_icr::{IcrAnswer, InterruptCommand, Ipi, fields};
use vlapic_regs::{lvt, register};

// ---- The words

// Registers of one word.
const X2APIC: usize = 0;

const VAPIC_ID: usize = 1;

const TPR: usize = 2;

const PPR: usize = 3;

const LDR: usize = 4;

const DFR: usize = 5;

const SVR: usize = 6;

const ESR: usize = 7;

const ESR_PENDING: usize = 8;

const ICR_LO: usize = 9;

const ICR_HI: usize = 10;

const LVT_CMCI: usize = 11;

const LVT_TIMER: usize = 12;

const LVT_THERMAL: usize = 13;

const LVT_PMI: usize = 14;

const LVT_LINT0: usize = 15;

const LVT_LINT1: usize = 16;

const LVT_ERROR: usize = 17;

// The first words of ISR and TMR.
const ISR: usize = 18;

const TMR: usize = 26;

// Stays: the C interface (word 0 of the lent words says the mode).
fn is_x2apic(words: &[u64; 48]) -> bool
    ensures { result ≡ (view words.now).x2apic }
{
    words[X2APIC] != 0
}

// A register of one word, written.
fn store(words: &mut [u64; 48], k: usize, x: u32) -> Result<Option<Ipi>, Refusal>
    requires { (1 ≤ k) × (k < 18) }
    ensures { Leaves words.old words.old words.new (write_reply result) (done (with_word (view words.old) k x)) }
{
    put(words, k, x);
    Ok(None)
}

// One that only xAPIC mode has.
fn store_in_xapic(words: &mut [u64; 48], k: usize, x: u32) -> Result<Option<Ipi>, Refusal>
    requires { (1 ≤ k) × (k < 18) }
    ensures { Leaves words.old words.old words.new (write_reply result) (in_xapic (view words.old) (with_word (view words.old) k x)) }
{
    if is_x2apic(words) {
        return Err(Refusal::InvalidRegister);
    }
    store(words, k, x)
}

// ---- New, and set up

const RESET_DFR: u64 = 0xffff_ffff;

const RESET_SVR: u64 = consts::RESET_SPURIOUS_INTERRUPT_VECTOR as u64;

const RESET_LVT: u64 = consts::RESET_LVT_REG as u64;

// A local APIC after reset, and the spare words.
fn reset(words: &mut [u64; 48], x2apic: bool, vapic_id: u32, spare: [u64; 6])
    ensures { words.new ≡ start_words x2apic vapic_id spare }
{
    *words = [
        u64::from(x2apic),
        u64::from(vapic_id),
        0,
        0,
        0,
        RESET_DFR,
        RESET_SVR,
        0,
        0,
        0,
        0,
        RESET_LVT,
        RESET_LVT,
        RESET_LVT,
        RESET_LVT,
        RESET_LVT,
        RESET_LVT,
        RESET_LVT,
        0,
        0,
        0,
        0,
        0,
        0,
        0,
        0,
        0,
        0,
        0,
        0,
        0,
        0,
        0,
        0,
        0,
        0,
        0,
        0,
        0,
        0,
        0,
        0,
        spare[0],
        spare[1],
        spare[2],
        spare[3],
        spare[4],
        spare[5],
    ];
}

// The local APIC of vCPU 0 in xAPIC mode.
pub fn new(words: &mut [u64; 48])
    ensures { IsNew words.new }
{
    reset(words, false, 0, [0, 0, 0, 0, 0, 0]);
}

// A new local APIC in the place of this one: mode, own id, and how many vCPUs the VM has.
pub fn setup(
    words: &mut [u64; 48],
    x2apic: bool,
    vcpu_id: VcpuId,
    vcpu_num: usize,
) -> Result<Option<Ipi>, Refusal>
    ensures { Leaves words.old words.old words.new (write_reply result) (setup (view words.old) x2apic vcpu_id vcpu_num) }
{
    if vlapic::is_out_of_range(vcpu_num, vcpu_id) {
        return Err(Refusal::OutOfRange);
    }
    let spare = [
        words[42], words[43], words[44], words[45], words[46], words[47],
    ];
    reset(words, x2apic, vcpu_id.apic_id(), spare);
    Ok(None)
}

// ---- Vectors

// The highest vector of a word that isn't empty.
#[tactic(auto, using(crate::proofs::Search::small))]
fn in_word(w: u8, held: u32) -> Vector
    requires { (w < 8) × (held ≡ 0 → ⊥) }
    ensures { result.0 ≡ w * 32 + last_set32 held }
{
    Vector(w * 32 + utils::fls32(held) as u8)
}

// The highest vector in service, or 0: that of the highest word that isn't empty. Words 6 to 4 are looked at together;
// word 0 isn't searched.
// Stays: what may not change (the clause: `served` is 0 where there is none) keeps 0 for none; a plain loop was tried
// and misses a bar of speed: "accept and local EOI" of 0x31 took 151 instructions and of 0x51 over 0x31 146, where the
// original takes 146 and 142 (docs/SPEED.md, limit 1.0).
fn find_isrv(words: &[u64; 48]) -> Vector
    ensures { result.0 ≡ served words.now }
{
    let w7 = low(words, ISR + 7);
    if w7 != 0 {
        return in_word(7, w7);
    }
    let w6 = low(words, ISR + 6);
    let w5 = low(words, ISR + 5);
    let w4 = low(words, ISR + 4);
    if w6 | w5 | w4 != 0 {
        if w6 != 0 {
            return in_word(6, w6);
        }
        if w5 != 0 {
            return in_word(5, w5);
        }
        return in_word(4, w4);
    }
    let w3 = low(words, ISR + 3);
    if w3 != 0 {
        return in_word(3, w3);
    }
    let w2 = low(words, ISR + 2);
    if w2 != 0 {
        return in_word(2, w2);
    }
    let w1 = low(words, ISR + 1);
    if w1 != 0 {
        return in_word(1, w1);
    }
    Vector(0)
}

// PPR by the highest vector in service.
fn rank(words: &mut [u64; 48])
    ensures { words.new ≡ ranked words.old }
{
    let isrv = find_isrv(words);
    let ppr = register::ppr(low(words, TPR), isrv);
    put(words, PPR, ppr);
}

// Records that the processor accepted an interrupt.
pub fn accept_interrupt(words: &mut [u64; 48], vector: Vector, level_triggered: bool)
    ensures { Leaves words.old words.old words.new Nothing (accept_interrupt (view words.old) vector level_triggered) }
{
    mark(words, ISR, vector.0, true);
    mark(words, TMR, vector.0, level_triggered);
    rank(words);
}

// Ends a vector.
fn end(words: &mut [u64; 48], vector: Vector)
    ensures { words.new ≡ ended words.old vector.0 }
{
    mark(words, ISR, vector.0, false);
    rank(words);
}

// A guest's EOI, and the vector that it broadcasts to the I/O APICs.
pub fn handle_eoi(words: &mut [u64; 48]) -> Option<Vector>
    ensures { Leaves words.old words.old words.new (eoi_reply result) (handle_eoi (view words.old)) }
{
    let vector = find_isrv(words);
    if vector.0 == 0 {
        return None;
    }
    let is_told = register::is_eoi_broadcast(holds(words, TMR, vector.0), low(words, SVR));
    end(words, vector);
    if is_told {
        return Some(vector);
    }
    None
}

// ---- Reads

// A register's offset in steps of 16.
const AT_ID: u64 = consts::ID / 16;

const AT_TPR: u64 = consts::TPR / 16;

const AT_PPR: u64 = consts::PPR / 16;

const AT_EOI: u64 = consts::EOI / 16;

const AT_LDR: u64 = consts::LDR / 16;

const AT_DFR: u64 = consts::DFR / 16;

const AT_SIVR: u64 = consts::SIVR / 16;

const AT_ISR: u64 = consts::ISR / 16;

const AT_TMR_LAST: u64 = consts::TMR / 16 + 7;

const AT_ESR: u64 = consts::ESR / 16;

const AT_LVT_CMCI: u64 = consts::LVT_CMCI / 16;

const AT_ICR_LOW: u64 = consts::ICR_LOW / 16;

const AT_ICR_HI: u64 = consts::ICR_HI / 16;

const AT_LVT_TIMER: u64 = consts::LVT_TIMER / 16;

const AT_LVT_THERMAL: u64 = consts::LVT_THERMAL / 16;

const AT_LVT_PMC: u64 = consts::LVT_PMC / 16;

const AT_LVT_LINT0: u64 = consts::LVT_LINT0 / 16;

const AT_LVT_LINT1: u64 = consts::LVT_LINT1 / 16;

const AT_LVT_ERR: u64 = consts::LVT_ERR / 16;

const AT_SELF_IPI: u64 = consts::SELF_IPI / 16;

// Reads the register at an offset: the word that is stored.
pub fn handle_read(words: &[u64; 48], offset: u64) -> Result<u32, Refusal>
    ensures { read_reply result ≡ handle_read (view words.now) offset }
{
    if offset % 16 == 0 {
        return read_at(words, offset / 16);
    }
    Err(Refusal::InvalidRegister)
}

#[tactic(auto, unfolding(vlapic::specs::Registers::handle_read, crate::specs::Words::view))]
fn read_at(words: &[u64; 48], at: u64) -> Result<u32, Refusal>
    ensures { read_reply result ≡ handle_read (view words.now) (at * 16) }
{
    match at {
        AT_ID => Ok(register::id(is_x2apic(words), low(words, VAPIC_ID))),
        AT_TPR => Ok(low(words, TPR)),
        AT_PPR => Ok(low(words, PPR)),
        AT_LDR => Ok(low(words, LDR)),
        AT_DFR => Ok(low(words, DFR)),
        AT_SIVR => Ok(low(words, SVR)),
        AT_ESR => Ok(low(words, ESR)),
        AT_LVT_CMCI => Ok(low(words, LVT_CMCI)),
        AT_ICR_LOW => Ok(low(words, ICR_LO)),
        AT_ICR_HI => Ok(low(words, ICR_HI)),
        AT_LVT_TIMER => Ok(low(words, LVT_TIMER)),
        AT_LVT_THERMAL => Ok(low(words, LVT_THERMAL)),
        AT_LVT_PMC => Ok(low(words, LVT_PMI)),
        AT_LVT_LINT0 => Ok(low(words, LVT_LINT0)),
        AT_LVT_LINT1 => Ok(low(words, LVT_LINT1)),
        AT_LVT_ERR => Ok(low(words, LVT_ERROR)),
        // ISR and TMR stand side by side, there as here.
        AT_ISR..=AT_TMR_LAST => Ok(low(words, at as usize + 2)),
        _ => Err(Refusal::InvalidRegister),
    }
}

// ---- Writes

// ESR shows the errors since the last write.
fn show_errors(words: &mut [u64; 48]) -> Result<Option<Ipi>, Refusal>
    ensures { Leaves words.old words.old words.new (write_reply result) (done (with_errors (view words.old) (errors_shown (view words.old).esr_pending))) }
{
    let errors = register::esr(low(words, ESR_PENDING));
    put(words, ESR, errors.esr);
    put(words, ESR_PENDING, errors.esr_pending);
    Ok(None)
}

// Writes a register that only stores the value.
#[tactic(auto, using(crate::proofs::Ways::same), unfolding(vlapic::specs::Registers::write_stored, vlapic::specs::Registers::stored))]
fn write_register(words: &mut [u64; 48], at: u64, val: u32) -> Result<Option<Ipi>, Refusal>
    ensures { Leaves words.old words.old words.new (write_reply result) (write_stored (view words.old) (at * 16) val) }
{
    match at {
        // Force APIC ID to be read-only.
        AT_ID => Ok(None),
        AT_TPR => store(words, TPR, register::tpr(val)),
        AT_LDR => store_in_xapic(words, LDR, register::ldr(val)),
        AT_DFR => store_in_xapic(words, DFR, register::dfr(val)),
        AT_SIVR => store(words, SVR, register::svr(val)),
        AT_ESR => show_errors(words),
        AT_ICR_HI => store_in_xapic(words, ICR_HI, register::icr_hi(val)),
        AT_LVT_CMCI => store(words, LVT_CMCI, lvt::monitor(val)),
        AT_LVT_TIMER => store(words, LVT_TIMER, lvt::timer(val)),
        AT_LVT_THERMAL => store(words, LVT_THERMAL, lvt::monitor(val)),
        AT_LVT_PMC => store(words, LVT_PMI, lvt::monitor(val)),
        AT_LVT_LINT0 => store(words, LVT_LINT0, lvt::pin(val)),
        AT_LVT_LINT1 => store(words, LVT_LINT1, lvt::pin(val)),
        AT_LVT_ERR => store(words, LVT_ERROR, lvt::error(val)),
        _ => Err(Refusal::InvalidRegister),
    }
}

// What becomes of an interrupt command.
#[tactic(auto, unfolding(crate::specs::Words::view))]
fn answer(words: &mut [u64; 48], answer: Result<IcrAnswer, Refusal>) -> Result<Option<Ipi>, Refusal>
    ensures { Leaves words.old words.old words.new (write_reply result) (answered (view words.old) answer) }
{
    match answer? {
        IcrAnswer::Nothing => Ok(None),
        IcrAnswer::SendIllegalVector => {
            let noted = register::illegal_noted(low(words, ESR_PENDING));
            store(words, ESR_PENDING, noted)
        }
        IcrAnswer::Ipi(ipi) => Ok(Some(ipi)),
    }
}

// Puts the command's words, the delivery status cleared, and carries the command out.
fn write_icr(
    words: &mut [u64; 48],
    lo: u32,
    hi: u32,
    vcpu_num: usize,
    active_vcpus: u64,
) -> Result<Option<Ipi>, Refusal>
    ensures { Leaves words.old (command_stored words.old lo hi) words.new (write_reply result) (write_icr (view words.old) lo hi vcpu_num active_vcpus) }
{
    let command = InterruptCommand {
        x2apic: is_x2apic(words),
        vapic_id: low(words, VAPIC_ID),
        ldr: low(words, LDR),
        dfr: low(words, DFR),
        icr_lo: fields::idle(lo),
        icr_hi: hi,
    };
    put(words, ICR_LO, command.icr_lo);
    put(words, ICR_HI, hi);
    answer(words, command.carry_out(vcpu_num, active_vcpus))
}

// What is written to a register: the value and its width in bytes, where the VM has `vcpu_num` vCPUs, of which those in
// `active_vcpus` are active.
#[derive(Clone, Copy, Debug, PartialEq, Eq, Hash)]
struct RegisterWrite {
    val: u64,
    width: u8,
    vcpu_num: usize,
    active_vcpus: u64,
}

// A write of the ICR's low word; in x2APIC mode of both words.
fn write_icr_low(words: &mut [u64; 48], write: RegisterWrite) -> Result<Option<Ipi>, Refusal>
    ensures { Leaves words.old (icr_refused words.old write.val write.width) words.new (write_reply result) (write_icr_low (view words.old) write.val write.width write.vcpu_num write.active_vcpus) }
{
    let x2apic = is_x2apic(words);
    if fields::is_icr_width(x2apic, u64::from(write.width)) {
        let lo = (write.val % 0x1_0000_0000) as u32;
        let hi = fields::icr_high(x2apic, write.val, low(words, ICR_HI));
        return write_icr(words, lo, hi, write.vcpu_num, write.active_vcpus);
    }
    Err(Refusal::InvalidRegister)
}

// A write of the self-IPI register, which x2APIC mode alone has.
fn write_self_ipi(words: &mut [u64; 48], val: u64) -> Result<Option<Ipi>, Refusal>
    ensures { Leaves words.old words.old words.new (write_reply result) (write_self_ipi (view words.old) val) }
{
    if is_x2apic(words) {
        let vector = Vector((val % 256) as u8);
        let id = VcpuId::of_apic(low(words, VAPIC_ID));
        return answer(words, Ok(vlapic_icr::handle_self_ipi(id, vector)));
    }
    Err(Refusal::InvalidRegister)
}

// The EOI register: what is broadcast is dropped.
fn write_eoi(words: &mut [u64; 48]) -> Result<Option<Ipi>, Refusal>
    ensures { Leaves words.old words.old words.new (write_reply result) (done (handle_eoi (view words.old)).state) }
{
    let vector = find_isrv(words);
    if vector.0 == 0 {
        return Ok(None);
    }
    end(words, vector);
    Ok(None)
}

// Writes the register at an offset, where the VM has `vcpu_num` vCPUs, of which those in `active_vcpus` are active.
pub fn handle_write(
    words: &mut [u64; 48],
    offset: u64,
    val: u64,
    width: u8,
    vcpu_num: usize,
    active_vcpus: u64,
) -> Result<Option<Ipi>, Refusal>
    ensures { Leaves words.old (refused_words words.old offset val width vcpu_num) words.new (write_reply result) (handle_write (view words.old) offset val width vcpu_num active_vcpus) }
{
    if vlapic::is_out_of_range(vcpu_num, VcpuId::of_apic(low(words, VAPIC_ID))) {
        return Err(Refusal::OutOfRange);
    }
    if offset % 16 == 0 {
        let write = RegisterWrite {
            val,
            width,
            vcpu_num,
            active_vcpus,
        };
        return write_at(words, offset / 16, write);
    }
    Err(Refusal::InvalidRegister)
}

fn write_at(words: &mut [u64; 48], at: u64, write: RegisterWrite) -> Result<Option<Ipi>, Refusal>
    requires { out_of_range write.vcpu_num (view words.old).vapic_id ≡ false }
    ensures { Leaves words.old (refused_words words.old (at * 16) write.val write.width write.vcpu_num) words.new (write_reply result) (handle_write (view words.old) (at * 16) write.val write.width write.vcpu_num write.active_vcpus) }
{
    match at {
        AT_EOI => write_eoi(words),
        AT_ICR_LOW => write_icr_low(words, write),
        AT_SELF_IPI => write_self_ipi(words, write.val),
        _ => write_register(words, at, (write.val % 0x1_0000_0000) as u32),
    }
}
