// Ported to Rattle from vpic.rs of the Rust crate x86_vlapic 0.5.4 (Apache License, Version 2.0; the text stands in LICENSE).
//
// Changed: the pair's state is four words that the caller lends, `specs/Words.antt`; each call works in place on them, and `EmulatedPic` lends its own: state in and out by
// value, and no lock. Lines and vectors are `PicLine` and `Vector`, and panics and logs went; T-02's rule, and the full profile
// of T-04 and T-06, which is rule 2, were added; each function has its contract.

#![tactic(auto)]

ghost use Rattle.std.specs.Prelude.{◌≡◌, true, false, not, eqb, Some};
ghost use Rattle.types.specs.Counters.{place_of};
ghost use Rattle.types.specs.declared.PicPlace.TheVariants as place;
ghost use Rattle.vpic_chip.specs.Registers.{chip_in, full_in, placed};
ghost use Rattle.vpic.specs.Words.{is_full, plain_view, full_view, view};
ghost use Rattle.vpic.specs.Claim.{claim_in, claim_number, numbered, with_number, master_taken, slave_taken, taken_at, is_quiet, ReadOf, port_outcome, write_outcome, settled_outcome, plain_shown};
ghost use Rattle.vpic.specs.declared.PicRule.TheVariants as rules;
ghost use Rattle.vpic.specs.Pair.{rule_in, rule_number, is_rule, chips, is_cascade, settled, latched_at, state_claim, claim_of, slave_claim, pending_place, claim_pending, claim_irq, restored_at, port_found, port_read, master_read, slave_read, rule_of, claim_flags, interrupt_reply, claim_vector, with_claim, with_vector, claim_outcome, vector_outcome, done_outcome, value_outcome, new_state, port_ranges, restore_interrupt, handle_read, handle_write};

use types::{PicLine, PicPlace, Refusal, Reply, ToReply, Vector};
use utils::seen;
use vpic_chip::{CASCADE_IRQ, PicChip};

pub const MASTER_COMMAND: u16 = 0x20;

pub const MASTER_DATA: u16 = 0x21;

pub const SLAVE_COMMAND: u16 = 0xa0;

pub const SLAVE_DATA: u16 = 0xa1;

// What the slave's output does to the master's line 2, and whether the chips are full 8259As.
#[derive(Clone, Copy, Debug, PartialEq, Eq, Hash)]
pub enum PicRule {
    // Nothing: the Rust's rule, number 0. A slave's edge sets the line's request, and an acknowledgement clears it.
    Latch,
    // It drives it: the 8259A's, number 1.
    Cascade,
    // It drives it, and the chips take rotation, special mask mode, polls and nested slaves: the full 8259A profile, number 2.
    Full,
}

// A pending legacy PIC interrupt removed from the requests for delivery. It can be restored where its vector couldn't be published.
#[derive(Clone, Copy, Debug, PartialEq, Eq, Hash)]
pub struct PicInterruptClaim {
    pub vector: Vector,
    pub irq: PicLine,
    pub master_in_service: bool,
    pub slave_in_service: bool,
}

// The first and the last port of a range.
#[derive(Clone, Copy, Debug, PartialEq, Eq, Hash)]
pub struct PortRange {
    pub start: u16,
    pub end: u16,
}

#[derive(Clone, Copy, Debug, PartialEq, Eq, Hash)]
pub struct PortRanges {
    pub master: PortRange,
    pub slave: PortRange,
}

impl PicRule {
    // Whether a rule has this number. Of words that are lent this is asked alone, with no need of the rule.
    // Stays: what may not change (`is_rule`; docs/CONTRIBUTING.md names it as a choice's test).
    pub fn is_number(number: u64) -> bool
        ensures { result ≡ is_rule number }
    {
        number < 3
    }

    // The rule of a number: any but 1 and 2 is the Rust's.
    // Stays: what may not change (`rule_in`: lent words may hold any number, and have a rule).
    pub fn from_number(number: u64) -> Self
        ensures { result ≡ rule_in number }
    {
        if number == 1 {
            return PicRule::Cascade;
        }
        if number == 2 {
            return PicRule::Full;
        }
        PicRule::Latch
    }

    // The number that stands in the pair's words.
    // Stays: what may not change (`rule_number`: the words that C lends hold it).
    pub fn number(self) -> u64
        ensures { result ≡ rule_number self }
    {
        match self {
            PicRule::Latch => 0,
            PicRule::Cascade => 1,
            PicRule::Full => 2,
        }
    }
}

// The rule of a number from outside: `Unsupported` where no rule has it.
impl TryFrom<u64> for PicRule {
    type Error = Refusal;

    ghost try_from_gives = { λ number rule. rule ≡ rule_of number };

    fn try_from(number: u64) -> Result<PicRule, Refusal> {
        if !PicRule::is_number(number) {
            return Err(Refusal::Unsupported);
        }
        Ok(PicRule::from_number(number))
    }
}

// ---- Answers in the numbers of document 01.

impl PicInterruptClaim {
    // The vector that the guest programmed for this claim.
    // Stays: what may not change: the Rust's accessor, by its name.
    pub fn vector(self) -> Vector
        ensures { result ≡ self.vector }
    {
        self.vector
    }

    // Which in-service bits the claim set: 1 the master's, 2 the slave's.
    // Stays: what may not change (`claim_flags`: one number of a reply's three).
    #[tactic(auto, using(crate::proofs::Codes::flags_sum, crate::proofs::Codes::digit_le))]
    pub fn flags(self) -> u64
        ensures { result ≡ claim_flags self }
    {
        u64::from(self.master_in_service) + 2 * u64::from(self.slave_in_service)
    }
}

// The vector, the line, and the flags.
impl ToReply for PicInterruptClaim {
    ghost reply_of = { interrupt_reply };

    fn reply(self) -> Reply {
        Reply::Three(
            u64::from(self.vector.0),
            u64::from(self.irq.0),
            self.flags(),
        )
    }
}

fn vector_of(claim: Option<PicInterruptClaim>) -> Option<Vector>
    ensures { result ≡ claim_vector claim }
{
    Some(claim?.vector)
}

// ---- A claim on its way through the private functions: one number, so that it stays in a register, and no struct of it, which would come back through memory. 0 is none;
// `specs/Claim.antt` has its bits.

// A claim of a line with its vector, and which in-service bits it set; without a vector none was taken.
// Stays: what may not change (`claim_irq_number`, `claim_pending_number`: a claim's number is what they promise).
fn claimed(
    vector: Option<Vector>,
    irq: PicLine,
    master_in_service: bool,
    slave_in_service: bool,
) -> u64
    ensures { (claim_in result ≡ claim_of vector irq master_in_service slave_in_service) × (result ≡ claim_number (claim_in result)) }
{
    match vector {
        Some(v) => {
            0x3_0000_0000_0000
                + u64::from(slave_in_service) * 0x2_0000_0000
                + u64::from(master_in_service) * 0x1_0000_0000
                + u64::from(irq.0) * 0x1_0000
                + u64::from(v.0)
        }
        None => 0,
    }
}

// The claim of a number.
// Stays: what may not change (`claim_irq_number`, `claim_pending_number`: a claim's number is what they promise).
fn claim_in(number: u64) -> Option<PicInterruptClaim>
    ensures { result ≡ claim_in number }
{
    if number == 0 {
        return None;
    }
    Some(PicInterruptClaim {
        vector: Vector((number % 0x100) as u8),
        irq: PicLine((number / 0x1_0000 % 0x100) as u8),
        master_in_service: number / 0x1_0000_0000 % 2 == 1,
        slave_in_service: number / 0x2_0000_0000 % 2 == 1,
    })
}

// ---- The words. Nothing below looks into them.

fn is_cascade(words: &[u64; 4]) -> bool
    ensures { result ≡ is_cascade (plain_view words.now) }
{
    rule(words) != PicRule::Latch
}

fn is_full(words: &[u64; 4]) -> bool
    ensures { result ≡ is_full (view words.now).rule }
{
    words[2] == 2
}

// Either road takes a word for a chip of its own kind, and what the words hold is said of both.
fn master_chip(words: &[u64; 4]) -> PicChip
    ensures plain { chip_in result.0 ≡ (plain_view words.now).master }
    ensures full { placed true (full_in result.0) ≡ (full_view words.now).master }
{
    PicChip(words[0])
}

// Stays: the new form is no plainer: the pair has two chips, and a function by place would choose in each clause.
fn slave_chip(words: &[u64; 4]) -> PicChip
    ensures plain { chip_in result.0 ≡ (plain_view words.now).slave }
    ensures full { placed false (full_in result.0) ≡ (full_view words.now).slave }
{
    PicChip(words[1])
}

// The pair's registers: the two chips, which look the same in every profile, and which rule it follows.
pub fn master(words: &[u64; 4]) -> PicChip
    ensures { chip_in result.0 ≡ (plain_view words.now).master }
{
    master_chip(words)
}

// Stays: the new form is no plainer: the pair has two chips, and a function by place would choose in each clause.
pub fn slave(words: &[u64; 4]) -> PicChip
    ensures { chip_in result.0 ≡ (plain_view words.now).slave }
{
    slave_chip(words)
}

pub fn rule(words: &[u64; 4]) -> PicRule
    ensures { result ≡ rule_in (plain_view words.now).rule }
{
    PicRule::from_number(words[2])
}

fn set_master(words: &mut [u64; 4], chip: PicChip)
    ensures plain { plain_view words.new ≡ chips (plain_view words.old) (chip_in chip.0) (plain_view words.old).slave }
    ensures full { full_view words.new ≡ chips (full_view words.old) (placed true (full_in chip.0)) (full_view words.old).slave }
{
    seen(words);
    words[0] = chip.0;
}

// Stays: the new form is no plainer: the pair has two chips, and a function by place would choose in each clause.
fn set_slave(words: &mut [u64; 4], chip: PicChip)
    ensures plain { plain_view words.new ≡ chips (plain_view words.old) (plain_view words.old).master (chip_in chip.0) }
    ensures full { full_view words.new ≡ chips (full_view words.old) (full_view words.old).master (placed false (full_in chip.0)) }
{
    seen(words);
    words[1] = chip.0;
}

// ---- A new pair.

pub fn new_rule(words: &mut [u64; 4], rule: PicRule)
    ensures { view words.new ≡ new_state rule }
{
    seen(words);
    let first = PicChip::new(0x08);
    let second = PicChip::new(0x70);
    words[0] = first.0;
    words[1] = second.0;
    words[2] = rule.number();
    words[3] = 0;
}

// By the cascade rule; the Rust's pair is `new_rule`'s of `PicRule::Latch`.
pub fn new(words: &mut [u64; 4])
    ensures { view words.new ≡ new_state rules.Cascade }
{
    new_rule(words, PicRule::Cascade);
}

// The two command and data port ranges.
pub fn port_ranges() -> PortRanges
    ensures { result ≡ port_ranges }
{
    PortRanges {
        master: PortRange {
            start: MASTER_COMMAND,
            end: MASTER_DATA,
        },
        slave: PortRange {
            start: SLAVE_COMMAND,
            end: SLAVE_DATA,
        },
    }
}

// ---- Lines and claims.

// Every call that isn't refused ends so, but a read without a poll and a claim of a line that isn't there: by the cascade rule the master's request 2 follows the slave's output.
fn settle(words: &mut [u64; 4])
    ensures { plain_view words.new ≡ settled (plain_view words.old) }
{
    if !is_cascade(words) {
        return;
    }
    let second = slave_chip(words);
    // As mostly, and found at once.
    if second.request() == 0 {
        let lowered = master_chip(words).drive_cascade(false);
        set_master(words, lowered);
        return;
    }
    let driven = master_chip(words).drive_cascade(second.asks());
    set_master(words, driven);
}

// An edge on a line of one of the chips.
fn latch(words: &mut [u64; 4], place: PicPlace)
    ensures plain { plain_view words.new ≡ latched_at (plain_view words.old) (Some place) }
    ensures full { full_view words.new ≡ latched_at (full_view words.old) (Some place) }
{
    match place {
        PicPlace::Master(k) => {
            let edge = master_chip(words).pulse(k);
            set_master(words, edge);
        }
        PicPlace::Slave(k) => {
            let cascade = master_chip(words).pulse(PicLine(CASCADE_IRQ));
            set_master(words, cascade);
            let edge = slave_chip(words).pulse(k);
            set_slave(words, edge);
        }
    }
}

// Whose line a claim takes: one of the master's, or one of the slave's through the master's line 2.
fn pending_place(words: &[u64; 4]) -> Option<PicPlace>
    ensures { result ≡ pending_place (plain_view words.now) }
{
    let Some(master_irq) = master_chip(words).pending_irq() else {
        return None;
    };
    if master_irq.0 != CASCADE_IRQ {
        return Some(PicPlace::Master(master_irq));
    }
    let Some(slave_irq) = slave_chip(words).pending_irq() else {
        return Some(PicPlace::Master(PicLine(CASCADE_IRQ)));
    };
    Some(PicPlace::Slave(slave_irq))
}

// The master answers for one of its lines; the pair isn't settled yet.
fn take_master(words: &mut [u64; 4], irq: PicLine) -> u64
    requires { pending_place (plain_view words.old) ≡ Some (place.Master irq) }
    ensures { (state_claim (plain_view words.new) (claim_in result) ≡ master_taken (plain_view words.old) irq) × (result ≡ claim_number (claim_in result)) }
{
    let first = master_chip(words);
    let (taken, vector) = first.acknowledge(irq);
    set_master(words, taken);
    claimed(vector, irq, !first.auto_eoi(), false)
}

// The slave answers for one of its lines, through the master's line 2.
fn take_slave(words: &mut [u64; 4], irq: PicLine) -> u64
    requires { pending_place (plain_view words.old) ≡ Some (place.Slave irq) }
    ensures { (state_claim (plain_view words.new) (claim_in result) ≡ slave_taken (plain_view words.old) irq) × (result ≡ claim_number (claim_in result)) }
{
    let first = master_chip(words);
    let second = slave_chip(words);
    let (cascade, _) = first.acknowledge(PicLine(CASCADE_IRQ));
    let (taken, vector) = second.acknowledge(irq);
    set_master(words, cascade);
    set_slave(words, taken);
    claimed(
        vector,
        PicLine(irq.0 + 8),
        !first.auto_eoi(),
        !second.auto_eoi(),
    )
}

// A slave's line that goes into service leaves nothing to settle: no other of the slave's lines counts then. Where one call stands in two arms of a test, both say the
// same: the compiler then knows the claim's flags.
fn claim_slave(words: &mut [u64; 4], irq: PicLine) -> u64
    requires { pending_place (plain_view words.old) ≡ Some (place.Slave irq) }
    ensures { (state_claim (plain_view words.new) (claim_in result) ≡ slave_claim (plain_view words.old) irq) × (result ≡ claim_number (claim_in result)) }
{
    if slave_chip(words).auto_eoi() {
        let taken = take_slave(words, irq);
        settle(words);
        return taken;
    }
    if master_chip(words).auto_eoi() {
        return take_slave(words, irq);
    }
    take_slave(words, irq)
}

// What can be delivered is taken. A master's line is taken without settling the pair.
fn take(words: &mut [u64; 4]) -> u64
    ensures { (state_claim (plain_view words.new) (claim_in result) ≡ taken_at (plain_view words.old) (pending_place (plain_view words.old))) × (result ≡ claim_number (claim_in result)) }
{
    match pending_place(words) {
        Some(PicPlace::Master(k)) => take_master(words, k),
        Some(PicPlace::Slave(k)) => claim_slave(words, k),
        None => 0,
    }
}

// Whether no line of either chip is requested: then nothing can be claimed, and by no rule is anything left to settle.
fn is_quiet(words: &[u64; 4]) -> bool
    ensures { result ≡ is_quiet (plain_view words.now) }
{
    let master = master_chip(words);
    let slave = slave_chip(words);
    master.request() == 0 && slave.request() == 0
}

// What can be delivered is claimed.
fn claim_pending(words: &mut [u64; 4]) -> u64
    ensures { (state_claim (plain_view words.new) (claim_in result) ≡ claim_pending (plain_view words.old)) × (result ≡ claim_number (claim_in result)) }
{
    let taken = take(words);
    settle(words);
    taken
}

// A line is latched, and what can be delivered is claimed: from a settled pair, which a claim of the master's line leaves settled.
fn claim_line(words: &mut [u64; 4], irq: PicLine) -> u64
    ensures { (state_claim (plain_view words.new) (claim_in result) ≡ claim_irq (plain_view words.old) irq) × (result ≡ claim_number (claim_in result)) }
{
    let Some(place) = irq.place() else {
        return 0;
    };
    latch(words, place);
    settle(words);
    take(words)
}

// Latches an edge on one line and claims what can be delivered at once.
// Stays: the C interface: it lends the four words, whose rule each call asks for once, beside the line.
pub fn claim_irq(words: &mut [u64; 4], irq: PicLine) -> Option<PicInterruptClaim>
    ensures { claim_outcome (view words.new) result ≡ with_claim (claim_irq (view words.old) irq) }
{
    if is_full(words) {
        return claim_in(full_claim_line(words, irq));
    }
    claim_in(claim_line(words, irq))
}

// The same, and the claim as one number.
// Stays: the C interface: the words that it lends hold the rule, and each call asks for it once.
pub fn claim_irq_number(words: &mut [u64; 4], irq: PicLine) -> u64
    ensures { numbered (view words.new) result ≡ with_number (claim_irq (view words.old) irq) }
{
    if is_full(words) {
        return full_claim_line(words, irq);
    }
    claim_line(words, irq)
}

// What can be delivered is claimed, by either road. Called by several, so that it stays a function of its own: a claim that finds nothing requested then doesn't begin
// by saving registers for what follows.
// Stays: the C interface: the words that it lends hold the rule, and each call asks for it once.
fn claim_open(words: &mut [u64; 4]) -> u64
    ensures { (state_claim (view words.new) (claim_in result) ≡ claim_pending (view words.old)) × (result ≡ claim_number (claim_in result)) }
{
    if is_full(words) {
        return full_claim_pending(words);
    }
    if !master_chip(words).asks() {
        settle(words);
        return 0;
    }
    claim_pending(words)
}

// Claims a request that became deliverable after the guest changed the chips.
pub fn claim_pending_interrupt(words: &mut [u64; 4]) -> Option<PicInterruptClaim>
    ensures { claim_outcome (view words.new) result ≡ with_claim (claim_pending (view words.old)) }
{
    // As mostly, and found at once.
    if is_quiet(words) {
        return None;
    }
    claim_in(claim_open(words))
}

// The same, and the claim as one number.
pub fn claim_pending_number(words: &mut [u64; 4]) -> u64
    ensures { numbered (view words.new) result ≡ with_number (claim_pending (view words.old)) }
{
    if is_quiet(words) {
        return 0;
    }
    claim_open(words)
}

// Latches an edge and answers the vector alone: such a claim can't be restored.
// Stays: the C interface: the words that it lends hold the rule, and each call asks for it once.
pub fn pulse_irq(words: &mut [u64; 4], irq: PicLine) -> Option<Vector>
    ensures { vector_outcome (view words.new) result ≡ with_vector (claim_irq (view words.old) irq) }
{
    if is_full(words) {
        return vector_of(claim_in(full_claim_line(words, irq)));
    }
    vector_of(claim_in(claim_line(words, irq)))
}

// Stays: the C interface: the words that it lends hold the rule, and each call asks for it once.
pub fn next_interrupt(words: &mut [u64; 4]) -> Option<Vector>
    ensures { vector_outcome (view words.new) result ≡ with_vector (claim_pending (view words.old)) }
{
    if is_quiet(words) {
        return None;
    }
    if is_full(words) {
        return vector_of(claim_in(claim_open(words)));
    }
    // The other rules' road as in `claim_open`: called, it costs a stack frame.
    if !master_chip(words).asks() {
        settle(words);
        return None;
    }
    vector_of(claim_in(claim_pending(words)))
}

// A claim taken back at its place.
// Stays: the C interface: it lends the pair's four words, which stand beside what each call is given.
fn restore_at(words: &mut [u64; 4], place: PicPlace, claim: PicInterruptClaim)
    ensures plain { plain_view words.new ≡ restored_at (plain_view words.old) (Some place) claim.master_in_service claim.slave_in_service }
    ensures full { full_view words.new ≡ restored_at (full_view words.old) (Some place) claim.master_in_service claim.slave_in_service }
{
    match place {
        PicPlace::Master(k) => {
            let back = master_chip(words).unacknowledge(k, claim.master_in_service);
            set_master(words, back);
        }
        PicPlace::Slave(k) => {
            let cascade = master_chip(words).unacknowledge(
                PicLine(CASCADE_IRQ),
                claim.master_in_service,
            );
            set_master(words, cascade);
            let back = slave_chip(words).unacknowledge(k, claim.slave_in_service);
            set_slave(words, back);
        }
    }
}

// Restores a claim whose vector couldn't be published.
// Stays: the C interface: the words that it lends hold the rule, and each call asks for it once.
pub fn restore_interrupt(words: &mut [u64; 4], claim: PicInterruptClaim) -> Result<(), Refusal>
    ensures { done_outcome (view words.new) result ≡ restore_interrupt (view words.old) claim }
{
    let irq = claim.irq;
    let Some(place) = irq.place() else {
        return Err(Refusal::OutOfRange);
    };
    if is_full(words) {
        // Called in two arms, so that it stays a function of its own, and the other rules' road as short as it was: the compiler takes in what is called once.
        if irq.0 < 8 {
            full_restore(words, PicPlace::Master(irq), claim);
            return Ok(());
        }
        full_restore(words, place, claim);
        return Ok(());
    }
    restore_at(words, place, claim);
    settle(words);
    Ok(())
}

// ---- The ports.

// One of the pair's four ports.
#[derive(Clone, Copy, Debug, PartialEq, Eq, Hash)]
enum PicPort {
    MasterCommand,
    MasterData,
    SlaveCommand,
    SlaveData,
}

// The port of a number: `Unsupported` where the pair hasn't it.
impl TryFrom<u64> for PicPort {
    type Error = Refusal;

    ghost try_from_gives = { λ port found. found ≡ port_found port };

    fn try_from(port: u64) -> Result<PicPort, Refusal> {
        if port == u64::from(MASTER_COMMAND) {
            return Ok(PicPort::MasterCommand);
        }
        if port == u64::from(MASTER_DATA) {
            return Ok(PicPort::MasterData);
        }
        if port == u64::from(SLAVE_COMMAND) {
            return Ok(PicPort::SlaveCommand);
        }
        if port == u64::from(SLAVE_DATA) {
            return Ok(PicPort::SlaveData);
        }
        Err(Refusal::Unsupported)
    }
}

// What a byte read of a port shows, where no poll can wait.
fn read_port(words: &[u64; 4], port: u64) -> Result<u8, Refusal>
    ensures { result ≡ port_read (plain_view words.now) port }
{
    let port = PicPort::try_from(port)?;
    match port {
        PicPort::MasterCommand => Ok(master_chip(words).read_command()),
        PicPort::MasterData => Ok(master_chip(words).mask()),
        PicPort::SlaveCommand => Ok(slave_chip(words).read_command()),
        PicPort::SlaveData => Ok(slave_chip(words).mask()),
    }
}

// A read of a port, `width` bytes wide. Numbers come in at their full width.
// Stays: the C interface: it lends the four words, whose rule each call asks for once, beside the port.
pub fn handle_read(words: &mut [u64; 4], port: u64, width: u64) -> Result<u8, Refusal>
    ensures { value_outcome (view words.new) result ≡ handle_read (view words.old) port width }
{
    if width != 1 {
        return Err(Refusal::Unsupported);
    }
    if is_full(words) {
        return full_read(words, port);
    }
    read_port(words, port)
}

// What a byte read of a port shows, and nothing where that isn't all: the pair may have a poll that waits, or hasn't that port.
// Stays: the C interface: the words that it lends hold the rule, and each call asks for it once.
pub fn plain_read(words: &[u64; 4], port: u64) -> Option<u8>
    ensures { result ≡ plain_shown (view words.now) port }
{
    if is_full(words) {
        return None;
    }
    read_port(words, port).ok()
}

// A byte is written to a port.
// Stays: the C interface: it lends the pair's four words, which stand beside the port and the byte.
fn write_at(words: &mut [u64; 4], port: u64, byte: u8) -> Result<(), Refusal>
    ensures { done_outcome (plain_view words.new) result ≡ write_outcome (plain_view words.old) port byte }
{
    let port = PicPort::try_from(port)?;
    match port {
        PicPort::MasterCommand => {
            let written = master_chip(words).command(byte);
            set_master(words, written);
            Ok(())
        }
        PicPort::MasterData => {
            let written = master_chip(words).data(byte);
            set_master(words, written);
            Ok(())
        }
        PicPort::SlaveCommand => {
            let written = slave_chip(words).command(byte);
            set_slave(words, written);
            Ok(())
        }
        PicPort::SlaveData => {
            let written = slave_chip(words).data(byte);
            set_slave(words, written);
            Ok(())
        }
    }
}

// A write to a port, `width` bytes wide.
// Stays: the C interface: the words that it lends hold the rule, and each call asks for it once.
pub fn handle_write(words: &mut [u64; 4], port: u64, width: u64, value: u64) -> Result<(), Refusal>
    ensures { done_outcome (view words.new) result ≡ handle_write (view words.old) port width value }
{
    if width != 1 {
        return Err(Refusal::Unsupported);
    }
    let byte = (value % 256) as u8;
    if is_full(words) {
        // In two arms, as above.
        if value >= 256 {
            return full_write(words, port, byte);
        }
        return full_write(words, port, byte);
    }
    write_at(words, port, byte)?;
    settle(words);
    Ok(())
}

// ---- The same in the full profile, whose chips are full 8259As. Each public call asks once which of the two roads is the pair's: the other rules' road stays as short as it is.

fn full_settle(words: &mut [u64; 4])
    ensures { full_view words.new ≡ settled (full_view words.old) }
{
    if !is_cascade(words) {
        return;
    }
    let up = slave_chip(words).full_asks(false);
    let driven = master_chip(words).drive_cascade(up);
    set_master(words, driven);
}

fn full_pending_place(words: &[u64; 4]) -> Option<PicPlace>
    ensures { result ≡ pending_place (full_view words.now) }
{
    let Some(master_irq) = master_chip(words).full_pending_irq(true) else {
        return None;
    };
    if master_irq.0 != CASCADE_IRQ {
        return Some(PicPlace::Master(master_irq));
    }
    let Some(slave_irq) = slave_chip(words).full_pending_irq(false) else {
        return Some(PicPlace::Master(PicLine(CASCADE_IRQ)));
    };
    Some(PicPlace::Slave(slave_irq))
}

// Whether an acknowledgement put a line into service: in special fully nested mode the master's line 2 may be there before.
fn grew(before: PicChip, after: PicChip) -> bool
    ensures { result ≡ not (eqb (chip_in after.0).in_service (chip_in before.0).in_service) }
{
    after.in_service() != before.in_service()
}

fn full_take_master(words: &mut [u64; 4], irq: PicLine) -> u64
    requires { pending_place (full_view words.old) ≡ Some (place.Master irq) }
    ensures { (state_claim (full_view words.new) (claim_in result) ≡ master_taken (full_view words.old) irq) × (result ≡ claim_number (claim_in result)) }
{
    let first = master_chip(words);
    let (taken, vector) = first.full_acknowledge(irq);
    set_master(words, taken);
    claimed(vector, irq, grew(first, taken), false)
}

fn full_take_slave(words: &mut [u64; 4], irq: PicLine) -> u64
    requires { pending_place (full_view words.old) ≡ Some (place.Slave irq) }
    ensures { (state_claim (full_view words.new) (claim_in result) ≡ slave_taken (full_view words.old) irq) × (result ≡ claim_number (claim_in result)) }
{
    let first = master_chip(words);
    let second = slave_chip(words);
    let (cascade, _) = first.full_acknowledge(PicLine(CASCADE_IRQ));
    let (taken, vector) = second.full_acknowledge(irq);
    set_master(words, cascade);
    set_slave(words, taken);
    claimed(
        vector,
        PicLine(irq.0 + 8),
        grew(first, cascade),
        grew(second, taken),
    )
}

// What can be delivered is claimed.
fn full_claim_pending(words: &mut [u64; 4]) -> u64
    ensures { (state_claim (full_view words.new) (claim_in result) ≡ claim_pending (full_view words.old)) × (result ≡ claim_number (claim_in result)) }
{
    match full_pending_place(words) {
        Some(PicPlace::Master(k)) => {
            let taken = full_take_master(words, k);
            full_settle(words);
            taken
        }
        Some(PicPlace::Slave(k)) => {
            let taken = full_take_slave(words, k);
            full_settle(words);
            taken
        }
        None => {
            full_settle(words);
            0
        }
    }
}

fn full_claim_line(words: &mut [u64; 4], irq: PicLine) -> u64
    ensures { (state_claim (full_view words.new) (claim_in result) ≡ claim_irq (full_view words.old) irq) × (result ≡ claim_number (claim_in result)) }
{
    let Some(place) = irq.place() else {
        return 0;
    };
    latch(words, place);
    full_settle(words);
    full_claim_pending(words)
}

fn full_write_at(words: &mut [u64; 4], port: u64, byte: u8) -> Result<(), Refusal>
    ensures { done_outcome (full_view words.new) result ≡ write_outcome (full_view words.old) port byte }
{
    let port = PicPort::try_from(port)?;
    match port {
        PicPort::MasterCommand => {
            let written = master_chip(words).full_command(byte);
            set_master(words, written);
            Ok(())
        }
        PicPort::MasterData => {
            let written = master_chip(words).full_data(byte);
            set_master(words, written);
            Ok(())
        }
        PicPort::SlaveCommand => {
            let written = slave_chip(words).full_command(byte);
            set_slave(words, written);
            Ok(())
        }
        PicPort::SlaveData => {
            let written = slave_chip(words).full_data(byte);
            set_slave(words, written);
            Ok(())
        }
    }
}

fn full_restore(words: &mut [u64; 4], place: PicPlace, claim: PicInterruptClaim)
    ensures { full_view words.new ≡ settled (restored_at (full_view words.old) (Some place) claim.master_in_service claim.slave_in_service) }
{
    restore_at(words, place, claim);
    full_settle(words);
}

// A read of a port of the master's, which shows a register where no poll waits. A poll acknowledges on its chip alone.
fn full_read_master(words: &mut [u64; 4], register: u8) -> u8
    ensures { ReadOf (full_view words.old).master (master_read (full_view words.old)) (full_view words.new) register result }
{
    let chip = master_chip(words);
    if !chip.poll() {
        return register;
    }
    let (after, shown) = chip.full_poll(true);
    set_master(words, after);
    full_settle(words);
    shown
}

fn full_read_slave(words: &mut [u64; 4], register: u8) -> u8
    ensures { ReadOf (full_view words.old).slave (slave_read (full_view words.old)) (full_view words.new) register result }
{
    let chip = slave_chip(words);
    if !chip.poll() {
        return register;
    }
    let (after, shown) = chip.full_poll(false);
    set_slave(words, after);
    full_settle(words);
    shown
}

fn full_read(words: &mut [u64; 4], port: u64) -> Result<u8, Refusal>
    ensures { value_outcome (full_view words.new) result ≡ port_outcome (full_view words.old) port }
{
    let port = PicPort::try_from(port)?;
    match port {
        PicPort::MasterCommand => {
            let status = master_chip(words).read_command();
            Ok(full_read_master(words, status))
        }
        PicPort::MasterData => {
            let mask = master_chip(words).mask();
            Ok(full_read_master(words, mask))
        }
        PicPort::SlaveCommand => {
            let status = slave_chip(words).read_command();
            Ok(full_read_slave(words, status))
        }
        PicPort::SlaveData => {
            let mask = slave_chip(words).mask();
            Ok(full_read_slave(words, mask))
        }
    }
}

// A write of a byte, and the settling after it.
fn full_write(words: &mut [u64; 4], port: u64, byte: u8) -> Result<(), Refusal>
    ensures { done_outcome (full_view words.new) result ≡ settled_outcome (full_view words.old) port byte }
{
    full_write_at(words, port, byte)?;
    full_settle(words);
    Ok(())
}

// ---- The same by value: a pair lends its words, and is handed back.

// The guest's pair of legacy 8259-compatible interrupt controllers.
#[derive(Clone, Copy, Debug, PartialEq, Eq, Hash)]
pub struct EmulatedPic {
    pub words: [u64; 4],
}

impl EmulatedPic {
    pub fn new() -> Self
        ensures { view result.words ≡ new_state rules.Cascade }
    {
        EmulatedPic::new_rule(PicRule::Cascade)
    }

    pub fn new_rule(rule: PicRule) -> Self
        ensures { view result.words ≡ new_state rule }
    {
        let mut words = [0; 4];
        new_rule(&mut words, rule);
        EmulatedPic { words }
    }

    pub fn port_ranges() -> PortRanges
        ensures { result ≡ port_ranges }
    {
        port_ranges()
    }

    pub fn claim_irq(mut self, irq: PicLine) -> (Self, Option<PicInterruptClaim>)
        ensures { claim_outcome (view result.0.words) result.1 ≡ with_claim (claim_irq (view self.words) irq) }
    {
        let claim = claim_irq(&mut self.words, irq);
        (self, claim)
    }

    pub fn claim_pending_interrupt(mut self) -> (Self, Option<PicInterruptClaim>)
        ensures { claim_outcome (view result.0.words) result.1 ≡ with_claim (claim_pending (view self.words)) }
    {
        let claim = claim_pending_interrupt(&mut self.words);
        (self, claim)
    }

    pub fn pulse_irq(mut self, irq: PicLine) -> (Self, Option<Vector>)
        ensures { vector_outcome (view result.0.words) result.1 ≡ with_vector (claim_irq (view self.words) irq) }
    {
        let vector = pulse_irq(&mut self.words, irq);
        (self, vector)
    }

    pub fn next_interrupt(mut self) -> (Self, Option<Vector>)
        ensures { vector_outcome (view result.0.words) result.1 ≡ with_vector (claim_pending (view self.words)) }
    {
        let vector = next_interrupt(&mut self.words);
        (self, vector)
    }

    pub fn restore_interrupt(mut self, claim: PicInterruptClaim) -> (Self, Result<(), Refusal>)
        ensures { done_outcome (view result.0.words) result.1 ≡ restore_interrupt (view self.words) claim }
    {
        let done = restore_interrupt(&mut self.words, claim);
        (self, done)
    }

    pub fn handle_read(mut self, port: u16, width: u8) -> (Self, Result<u8, Refusal>)
        ensures { value_outcome (view result.0.words) result.1 ≡ handle_read (view self.words) port width }
    {
        let value = handle_read(&mut self.words, u64::from(port), u64::from(width));
        (self, value)
    }

    pub fn handle_write(mut self, port: u16, width: u8, value: u64) -> (Self, Result<(), Refusal>)
        ensures { done_outcome (view result.0.words) result.1 ≡ handle_write (view self.words) port width value }
    {
        let done = handle_write(&mut self.words, u64::from(port), u64::from(width), value);
        (self, done)
    }
}
