// A whole board: an I/O APIC of version 0x20, one local APIC and its request register, in place over the words of both
// chips. An interrupt goes from its line through the I/O APIC's entry to a request, is accepted, and its EOI goes back
// to the entry. Not in the Rust crate; each call is made of the chips' own calls.

#![tactic(auto)]

ghost use Rattle.std.specs.Prelude.{List, ℕ, Option, Result};
ghost use Rattle.types.specs.Reply.{outcome_of};
ghost use Rattle.types.specs.declared.Refusal.{Refusal};
ghost use Rattle.types.specs.declared.Vector.{Vector};
ghost use Rattle.vioapic_entry.specs.Answers.{routed_reply};
ghost use Rattle.vioapic_entry.specs.declared.IoApicInterrupt.{IoApicInterrupt};
ghost use Rattle.vioapic.specs.Answers.{eoi_reply, written_reply};
ghost use Rattle.vioapic.specs.State as io-words;
ghost use Rattle.vioapic.specs.Table.{end_of};
ghost use Rattle.vioapic.specs.declared.Eoi.{Eoi};
ghost use Rattle.vioapic.specs.declared.Written.{Written};
ghost use Rattle.vlapic_words.specs.Words as apic-words;
ghost use Rattle.vlapic_words.specs.Calls.{Leaves};
ghost use Rattle.vlapic_requests.specs.Promise as registers;
ghost use Rattle.board.specs.Board.{board_in, requested, resent, requested_by_eoi, requested_by_write, ended_to, set_gsi_level, accept_interrupt, handle_eoi, write_tpr, handle_write, receive};
ghost use Rattle.board.specs.Promise.{acceptance_reply, Gives, Becomes, Makes};

use types::{Gsi, Refusal, Vector};
use vioapic::{Eoi, IOAPIC_BASE, IOAPIC_SIZE, IoApicVersion, Written};
use vioapic_entry::IoApicInterrupt;

// A new board in these words.
pub fn new(ioapic: &mut [u64; 32], apic: &mut [u64; 48])
    ensures { Makes ioapic.new apic.new }
{
    // These addresses fit, so that it is never refused (`Makes`).
    let _ = vioapic::new_version(ioapic, IOAPIC_BASE, IOAPIC_SIZE, IoApicVersion::V20);
    vlapic_words::new(apic);
}

// ---- What the I/O APIC sends becomes a request

fn request_routed(apic: &mut [u64; 48], routed: Option<IoApicInterrupt>)
    ensures { registers.Becomes apic.old apic.new (requested (apic-words.view apic.old) routed) }
{
    if let Some(interrupt) = routed {
        vlapic_requests::request(apic, interrupt.vector, interrupt.level_triggered);
    }
}

// By an EOI of the vector, with the set of the GSIs that are sent again.
fn request_resent(apic: &mut [u64; 48], vector: Vector, sent: u32)
    ensures { registers.Becomes apic.old apic.new (resent (apic-words.view apic.old) vector sent) }
{
    if sent != 0 {
        vlapic_requests::request(apic, vector, true);
    }
}

fn request_ended(apic: &mut [u64; 48], vector: Vector, eoi: Option<Eoi>)
    ensures { registers.Becomes apic.old apic.new (requested_by_eoi (apic-words.view apic.old) vector eoi) }
{
    match eoi {
        None => {}
        Some(Eoi::Ended(ended)) => request_routed(apic, ended.pending),
        Some(Eoi::EndedAll(ended)) => request_resent(apic, vector, ended.sent),
    }
}

fn request_written(apic: &mut [u64; 48], value: u64, written: Result<Written, Refusal>)
    ensures { Leaves apic.old apic.old apic.new (written_reply written) (outcome_of (requested_by_write (apic-words.view apic.old) value written) (written_reply written)) }
{
    match written {
        Ok(Written::Sent(interrupt)) => {
            vlapic_requests::request(apic, interrupt.vector, interrupt.level_triggered)
        }
        Ok(Written::EndedAll(ended)) => {
            request_resent(apic, Vector((value % 0x100) as u8), ended.sent)
        }
        Ok(Written::Done) | Err(_) => {}
    }
}

// ---- The calls, over the words of both chips as C lends them, two arrays side by side.

// Updates one input line of the I/O APIC.
// Stays: the C interface (`ioapic` and `apic` are two parameters of each call: board_c hands on what C lends).
#[tactic(auto, using(crate::proofs::Ways::line_way))]
pub fn set_gsi_level(
    ioapic: &mut [u64; 32],
    apic: &mut [u64; 48],
    gsi: Gsi,
    asserted: bool,
) -> Option<IoApicInterrupt>
    ensures { Gives (Option IoApicInterrupt) routed_reply ioapic.old ioapic.new apic.old apic.new result (set_gsi_level (board_in ioapic.old apic.old) gsi asserted) }
{
    let routed = vioapic::set_gsi_level(ioapic, gsi, asserted);
    request_routed(apic, routed);
    routed
}

// The guest accepts an interrupt, whatever the I/O APIC holds.
pub fn accept_interrupt(apic: &mut [u64; 48]) -> Option<Vector>
    ensures { (io : List ℕ) → Gives (Option Vector) acceptance_reply io io apic.old apic.new result (accept_interrupt (board_in io apic.old)) }
{
    vlapic_requests::accept(apic)
}

// The EOI message goes to the I/O APIC.
#[tactic(auto, using(crate::proofs::Ways::broadcast_way))]
fn broadcast(ioapic: &mut [u64; 32], apic: &mut [u64; 48], vector: Vector) -> Option<Eoi>
    ensures { Gives (Option Eoi) eoi_reply ioapic.old ioapic.new apic.old apic.new result (ended_to (apic-words.view apic.old) vector (end_of (io-words.view ioapic.old) vector)) }
{
    let eoi = vioapic::end_of_interrupt(ioapic, vector);
    request_ended(apic, vector, eoi);
    eoi
}

// The guest's EOI.
#[tactic(auto, using(crate::proofs::Ways::eoi_silent))]
pub fn handle_eoi(ioapic: &mut [u64; 32], apic: &mut [u64; 48]) -> Option<Eoi>
    ensures { Gives (Option Eoi) eoi_reply ioapic.old ioapic.new apic.old apic.new result (handle_eoi (board_in ioapic.old apic.old)) }
{
    let Some(vector) = vlapic_requests::end_highest(apic) else {
        return None;
    };
    broadcast(ioapic, apic, vector)
}

// The guest writes TPR, whatever the I/O APIC holds.
#[tactic(auto, using(crate::proofs::Ways::tpr_way))]
pub fn write_tpr(apic: &mut [u64; 48], value: u32)
    ensures { (io : List ℕ) → Becomes io io apic.old apic.new (write_tpr (board_in io apic.old) value) }
{
    vlapic_requests::write_tpr(apic, value);
}

// Handles an I/O APIC MMIO write.
#[tactic(auto, using(crate::proofs::Ways::write_way))]
pub fn handle_write(
    ioapic: &mut [u64; 32],
    apic: &mut [u64; 48],
    addr: u64,
    width: u64,
    value: u64,
) -> Result<Written, Refusal>
    ensures { Gives (Result Written Refusal) written_reply ioapic.old ioapic.new apic.old apic.new result (handle_write (board_in ioapic.old apic.old) addr width value) }
{
    let written = vioapic::handle_write(ioapic, addr, width, value);
    request_written(apic, value, written);
    written
}

// A message, whatever the I/O APIC holds: a vector below 16 is dropped.
#[tactic(auto, using(crate::proofs::Ways::receive_way))]
pub fn receive(apic: &mut [u64; 48], vector: Vector, level: bool)
    ensures { (io : List ℕ) → Becomes io io apic.old apic.new (receive (board_in io apic.old) vector level) }
{
    vlapic_requests::receive(apic, vector, level);
}

// ---- The same by value: the board after a call, and the call's answer

#[derive(Clone, Copy, Debug, PartialEq, Eq, Hash)]
pub struct VirtualBoard {
    pub ioapic: [u64; 32],
    pub apic: [u64; 48],
}

impl VirtualBoard {
    // A new board.
    pub fn new() -> VirtualBoard
        ensures { Makes result.ioapic result.apic }
    {
        let mut ioapic = [0; 32];
        let mut apic = [0; 48];
        new(&mut ioapic, &mut apic);
        VirtualBoard { ioapic, apic }
    }

    // Updates one input line of the I/O APIC.
    pub fn set_gsi_level(
        mut self,
        gsi: Gsi,
        asserted: bool,
    ) -> (VirtualBoard, Option<IoApicInterrupt>)
        ensures { Gives (Option IoApicInterrupt) routed_reply self.ioapic result.0.ioapic self.apic result.0.apic result.1 (set_gsi_level (board_in self.ioapic self.apic) gsi asserted) }
    {
        let answer = set_gsi_level(&mut self.ioapic, &mut self.apic, gsi, asserted);
        (self, answer)
    }

    // The guest accepts an interrupt.
    pub fn accept_interrupt(mut self) -> (VirtualBoard, Option<Vector>)
        ensures { Gives (Option Vector) acceptance_reply self.ioapic result.0.ioapic self.apic result.0.apic result.1 (accept_interrupt (board_in self.ioapic self.apic)) }
    {
        let answer = accept_interrupt(&mut self.apic);
        (self, answer)
    }

    // The guest's EOI.
    pub fn handle_eoi(mut self) -> (VirtualBoard, Option<Eoi>)
        ensures { Gives (Option Eoi) eoi_reply self.ioapic result.0.ioapic self.apic result.0.apic result.1 (handle_eoi (board_in self.ioapic self.apic)) }
    {
        let answer = handle_eoi(&mut self.ioapic, &mut self.apic);
        (self, answer)
    }

    // The guest writes TPR.
    pub fn write_tpr(mut self, value: u32) -> VirtualBoard
        ensures { Becomes self.ioapic result.ioapic self.apic result.apic (write_tpr (board_in self.ioapic self.apic) value) }
    {
        write_tpr(&mut self.apic, value);
        self
    }

    // Handles an I/O APIC MMIO write.
    pub fn handle_write(
        mut self,
        addr: u64,
        width: u64,
        value: u64,
    ) -> (VirtualBoard, Result<Written, Refusal>)
        ensures { Gives (Result Written Refusal) written_reply self.ioapic result.0.ioapic self.apic result.0.apic result.1 (handle_write (board_in self.ioapic self.apic) addr width value) }
    {
        let answer = handle_write(&mut self.ioapic, &mut self.apic, addr, width, value);
        (self, answer)
    }

    // A message: a vector below 16 is dropped.
    pub fn receive(mut self, vector: Vector, level: bool) -> VirtualBoard
        ensures { Becomes self.ioapic result.ioapic self.apic result.apic (receive (board_in self.ioapic self.apic) vector level) }
    {
        receive(&mut self.apic, vector, level);
        self
    }
}
