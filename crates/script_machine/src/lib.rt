// A machine of the three interrupt controllers, and a board apart from them, in place over the words of each, and runs of scripts on it (document 01, "Scripts"). Not in the Rust crate.

#![tactic(auto)]

ghost use Rattle.std.specs.Prelude.{◌≡◌};
ghost use Rattle.types.specs.Reply.{outcome_of};
ghost use Rattle.vioapic.specs.State as io-words;
ghost use Rattle.vioapic.specs.Calls.{outcome};
ghost use Rattle.vpic.specs.Words as pic-words;
ghost use Rattle.vlapic.specs.Answers.{write_reply};
ghost use Rattle.board.specs.Board.{board_in};
ghost use Rattle.board.specs.Calls as board;
ghost use Rattle.script_format.specs.declared.ApicCall.TheVariants as local;
ghost use Rattle.script_machine.specs.Machine.{machine_of, new_machine, io_call, board_call, pic_outcome, local_in, local_outcome, performed};
ghost use Rattle.script_machine.specs.Late.{was_used, now_used, is_late, taken, field_for};
ghost use Rattle.script_machine.specs.Run.{step_of, step_in, stop_reply, run_outcome, ended, run_in};

use script_format::{ApicCall, BadField, BoardCall, Call, Chip, Cursor, Field, IoCall, PicCall};
use types::{Refusal, Reply, ToReply, VcpuId};
use vioapic::{IOAPIC_BASE, IOAPIC_SIZE};
use vlapic_icr::Ipi;

// Whether a field of the I/O APIC, or of the pair, was performed.
#[derive(Clone, Copy, Debug, PartialEq, Eq, Hash)]
pub struct Used {
    pub io: bool,
    pub pic: bool,
}

impl Used {
    fn has(self, chip: Chip) -> bool
        ensures { result ≡ was_used self chip }
    {
        match chip {
            Chip::IoApic => self.io,
            Chip::Pic => self.pic,
            Chip::LocalApic => false,
            Chip::Board => false,
        }
    }

    fn with(self, chip: Chip) -> Used
        ensures { result ≡ now_used self chip }
    {
        match chip {
            Chip::IoApic => Used { io: true, ..self },
            Chip::Pic => Used { pic: true, ..self },
            Chip::LocalApic => self,
            Chip::Board => self,
        }
    }
}

// What a machine has beside its chips: how many vCPUs the VM has, which of them are active, and which chips were used.
#[derive(Clone, Copy, Debug, PartialEq, Eq, Hash)]
pub struct Vm {
    pub vcpu_num: usize,
    pub active_vcpus: u64,
    pub used: Used,
}

// The words of the three chips and of the board's two, and the rest of the machine.
#[derive(Clone, Copy, Debug, PartialEq, Eq, Hash)]
pub struct Machine {
    pub ioapic: [u64; 32],
    pub pic: [u64; 4],
    pub apic: [u64; 48],
    pub board_ioapic: [u64; 32],
    pub board_apic: [u64; 48],
    pub vm: Vm,
}

// Why a run ended.
#[derive(Clone, Copy, Debug, PartialEq, Eq, Hash)]
pub enum Stop {
    Allowance,
    BadField,
    End,
}

// In document 01's numbers: 6 for a bad field.
impl ToReply for Stop {
    ghost reply_of = { stop_reply };

    fn reply(self) -> Reply {
        match self {
            Stop::Allowance | Stop::End => Reply::Nothing,
            Stop::BadField => Reply::Refused(Refusal::BadField),
        }
    }
}

// A field was performed: its tag, and what its call said back.
#[derive(Clone, Copy, Debug, PartialEq, Eq, Hash)]
pub struct Did {
    pub tag: u8,
    pub reply: Reply,
}

// What a run says: how many fields were performed, where the next one starts, and why the run ended.
#[derive(Clone, Copy, Debug, PartialEq, Eq, Hash)]
pub struct Ended {
    pub done: usize,
    pub next: Cursor,
    pub stop: Stop,
}

// ---- one call on one chip

fn call_ioapic(ioapic: &mut [u64; 32], call: IoCall) -> Reply
    ensures { outcome_of (io-words.view ioapic.new) result ≡ outcome (io-words.view ioapic.old) (io_call call) }
{
    match call {
        IoCall::HandleRead { addr, width } => vioapic::handle_read(
            ioapic,
            addr,
            u64::from(width),
        ).reply(),
        IoCall::HandleWrite { addr, width, value } => {
            vioapic::handle_write(ioapic, addr, u64::from(width), value).reply()
        }
        IoCall::SetGsiLevel(gsi, up) => vioapic::set_gsi_level(ioapic, gsi, up).reply(),
        IoCall::AssertGsi(gsi) => vioapic::assert_gsi(ioapic, gsi).reply(),
        IoCall::EndOfInterrupt(vector) => vioapic::end_of_interrupt(ioapic, vector).reply(),
    }
}

fn call_pic(pic: &mut [u64; 4], call: PicCall) -> Reply
    ensures { outcome_of (pic-words.view pic.new) result ≡ pic_outcome (pic-words.view pic.old) call }
{
    match call {
        PicCall::HandleRead { port, width } => vpic::handle_read(
            pic,
            u64::from(port),
            u64::from(width),
        ).reply(),
        PicCall::HandleWrite { port, width, value } => {
            vpic::handle_write(pic, u64::from(port), u64::from(width), value).reply()
        }
        PicCall::ClaimIrq(irq) => vpic::claim_irq(pic, irq).reply(),
        PicCall::ClaimPendingInterrupt => vpic::claim_pending_interrupt(pic).reply(),
        PicCall::RestoreInterrupt(claim) => vpic::restore_interrupt(pic, claim).reply(),
    }
}

// A new local APIC, with the count and the active mask that go with it; refused, all three stay.
fn set_up(
    apic: &mut [u64; 48],
    vm: &mut Vm,
    x2apic: bool,
    vcpu_id: VcpuId,
    vcpu_num: usize,
    active_vcpus: u64,
) -> Result<Option<Ipi>, Refusal>
    ensures reply_after { outcome_of (local_in apic.new vm.new) (write_reply result) ≡ local_outcome (local_in apic.old vm.old) (local.Setup x2apic vcpu_id vcpu_num active_vcpus) }
    ensures used_value { vm.new.used ≡ vm.old.used }
{
    let ipi = vlapic_words::setup(apic, x2apic, vcpu_id, vcpu_num)?;
    vm.vcpu_num = vcpu_num;
    vm.active_vcpus = active_vcpus;
    Ok(ipi)
}

fn call_apic(apic: &mut [u64; 48], vm: &mut Vm, call: ApicCall) -> Reply
    ensures reply_after { outcome_of (local_in apic.new vm.new) result ≡ local_outcome (local_in apic.old vm.old) call }
    ensures used_value { vm.new.used ≡ vm.old.used }
{
    match call {
        ApicCall::AcceptInterrupt(vector, level_triggered) => {
            vlapic_words::accept_interrupt(apic, vector, level_triggered);
            Reply::Nothing
        }
        ApicCall::HandleWrite {
            offset,
            width,
            value,
        } => {
            vlapic_words::handle_write(
                apic,
                offset,
                value,
                width,
                vm.vcpu_num,
                vm.active_vcpus,
            ).reply()
        }
        ApicCall::HandleEoi => vlapic_words::handle_eoi(apic).reply(),
        ApicCall::HandleRead(offset) => vlapic_words::handle_read(apic, offset).reply(),
        ApicCall::Setup {
            x2apic,
            vcpu_id,
            vcpu_num,
            active_vcpus,
        } => set_up(apic, vm, x2apic, vcpu_id, vcpu_num, active_vcpus).reply(),
    }
}

fn call_board(ioapic: &mut [u64; 32], apic: &mut [u64; 48], call: BoardCall) -> Reply
    ensures { outcome_of (board_in ioapic.new apic.new) result ≡ board.outcome (board_in ioapic.old apic.old) (board_call call) }
{
    match call {
        BoardCall::SetGsiLevel(gsi, up) => board::set_gsi_level(ioapic, apic, gsi, up).reply(),
        BoardCall::AcceptInterrupt => board::accept_interrupt(apic).reply(),
        BoardCall::HandleEoi => board::handle_eoi(ioapic, apic).reply(),
        BoardCall::WriteTpr(value) => {
            board::write_tpr(apic, u32::from(value));
            Reply::Nothing
        }
        BoardCall::HandleWrite { addr, width, value } => board::handle_write(
            ioapic,
            apic,
            addr,
            u64::from(width),
            value,
        ).reply(),
        BoardCall::Receive(vector, level) => {
            board::receive(apic, vector, level);
            Reply::Nothing
        }
    }
}

// ---- a field that comes too late

// What a chip is, is chosen before any other field of it is performed.
fn is_late(call: Call, used: Used) -> bool
    ensures { result ≡ is_late used call }
{
    call.is_choice() && used.has(call.chip())
}

// A field as a machine takes it some of whose chips were used before.
fn taken(
    field: Result<Option<Field<Call>>, BadField>,
    used: Used,
) -> Result<Option<Field<Call>>, BadField>
    ensures { result ≡ taken used field }
{
    let Some(field) = field? else {
        return Ok(None);
    };
    if is_late(field.call, used) {
        return Err(BadField);
    }
    Ok(Some(field))
}

// What stands at a place of the script for such a machine: a field, or nothing at the script's end.
pub fn next_field(script: &[u8], used: Used, at: Cursor) -> Result<Option<Field<Call>>, BadField>
    ensures { result ≡ field_for script.now used at.at }
{
    taken(at.read(script), used)
}

// ---- the machine

impl Machine {
    // A new machine: the I/O APIC of version 0x20 at its usual address; the pair by the cascade rule; the local APIC of vCPU 0, the only one, in xAPIC mode; a new board.
    pub fn new() -> Machine
        ensures { machine_of result ≡ new_machine }
    {
        let mut machine = Machine {
            ioapic: [0; 32],
            pic: [0; 4],
            apic: [0; 48],
            board_ioapic: [0; 32],
            board_apic: [0; 48],
            vm: Vm {
                vcpu_num: 1,
                active_vcpus: 1,
                used: Used {
                    io: false,
                    pic: false,
                },
            },
        };
        // It fits at its usual address, so that it is never refused (`Makes`).
        let _made = vioapic::new_default(&mut machine.ioapic);
        vpic::new(&mut machine.pic);
        vlapic_words::new(&mut machine.apic);
        board::new(&mut machine.board_ioapic, &mut machine.board_apic);
        machine
    }

    // Performs one call, and remembers its chip. Whether a choice comes too late is said where its field is read.
    pub fn perform(&mut self, call: Call) -> Reply
        ensures { outcome_of (machine_of self.new) result ≡ performed (machine_of self.old) call }
    {
        self.vm.used = self.vm.used.with(call.chip());
        match call {
            Call::Io(c) => call_ioapic(&mut self.ioapic, c),
            Call::IoVersion(version) => vioapic::new_version(
                &mut self.ioapic,
                IOAPIC_BASE,
                IOAPIC_SIZE,
                version,
            ).reply(),
            Call::Pic(c) => call_pic(&mut self.pic, c),
            Call::PicRule(rule) => {
                vpic::new_rule(&mut self.pic, rule);
                Reply::Nothing
            }
            Call::Apic(c) => call_apic(&mut self.apic, &mut self.vm, c),
            Call::Board(c) => call_board(&mut self.board_ioapic, &mut self.board_apic, c),
        }
    }

    // Reads the field at a place and performs it: where the next one starts, and what is said. At a bad field and at the script's end nothing is performed, and the place stays.
    pub fn step(&mut self, script: &[u8], from: Cursor) -> (Cursor, Result<Did, Stop>)
        ensures { step_in self.new result ≡ step_of script.now (machine_of self.old) from.at }
    {
        match next_field(script, self.vm.used, from) {
            Ok(Some(field)) => {
                let reply = self.perform(field.call);
                let tag = field.tag;
                (field.next, Ok(Did { tag, reply }))
            }
            Ok(None) => (from, Err(Stop::End)),
            Err(_) => (from, Err(Stop::BadField)),
        }
    }

    // Performs the fields of a script from a place on, as many as are allowed, up to the first bad one or the end.
    pub fn run(&mut self, script: &[u8], from: Cursor, allowance: usize) -> Ended
        ensures { ended (run_in self.new result) ≡ run_outcome script.now (machine_of self.old) from.at allowance }
    {
        let mut next = from;
        for done in 0..allowance {
            let (behind, said) = self.step(script, next);
            next = behind;
            if let Err(stop) = said {
                return Ended { done, next, stop };
            }
        }
        Ended {
            done: allowance,
            next,
            stop: Stop::Allowance,
        }
    }

    // ---- The same by value.

    pub fn performed(mut self, call: Call) -> (Self, Reply)
        ensures { outcome_of (machine_of result.0) result.1 ≡ performed (machine_of self) call }
    {
        let reply = self.perform(call);
        (self, reply)
    }

    pub fn ran(mut self, script: &[u8], from: Cursor, allowance: usize) -> (Self, Ended)
        ensures { ended (run_in result.0 result.1) ≡ run_outcome script.now (machine_of self) from.at allowance }
    {
        let ended = self.run(script, from, allowance);
        (self, ended)
    }
}
