// Ported to Rattle from vpic.rs of the Rust crate x86_vlapic 0.5.4 (Apache License, Version 2.0; the text stands in LICENSE).
//
// Changed: one 8259 chip, `PicChip`, has a crate of its own, and its fields are registers of one word, so that a chip is the same by value and in the words that a caller
// lends; methods take the chip by value and hand it back; ICWs and OCWs became functions of their own; a line is a `PicLine`, and one that a chip doesn't have changes
// nothing; each function has its contract. A set of the chip's eight lines is a byte.

#![tactic(auto)]

ghost use Rattle.std.specs.Prelude.{◌≡◌, false, cond, ◌||◌, ◌<◌, ◌*◌, ◌/◌, ◌%◌, ◌^◌, eqb};
ghost use Rattle.utils.specs.Set.{bit, with, without, set_of, lowest};
ghost use Rattle.vpic_chip.specs.Registers.{with_base, with_mask, with_request, with_in_service, with_step, with_auto_eoi, with_read_isr, with_lowest, with_auto_rotation, with_special_mask, with_poll, with_nested, chip_in, full_in, placed};
ghost use Rattle.vpic_chip.specs.Chip.{turned, blocks, blocks_line, opened, icw1, ocw3, specific_eoi, non_specific_eoi, ocw2, commanded, after_icw3, icw2, icw3, icw4, ocw1, fed, command_read, pulsed, cascade_irq, counts, asks, driven, pending_irq, acknowledged, acknowledge, acknowledge_outcome, full_outcome, unacknowledged, poll_outcome, poll_read};

use types::{PicLine, Vector};
use utils::{Set, set8};

// The master's line that the slave's output drives.
pub const CASCADE_IRQ: u8 = 2;

// A chip: specs/Registers.antt says which registers the word holds. None but the accessors and setters look into it.
#[derive(Clone, Copy, Debug, PartialEq, Eq, Hash)]
pub struct PicChip(pub u64);

// ---- The registers.

impl PicChip {
    pub fn vector_base(self) -> u8
        ensures { result ≡ (chip_in self.0).vector_base }
    {
        (self.0 % 0x100) as u8
    }

    // Byte k of the word.
    fn register(self, k: u32) -> u8
        requires { k < 8 }
        ensures { result ≡ self.0 / 2 ^ (8 * k) % 2 ^ 8 }
    {
        ((self.0 >> (8 * k)) % 0x100) as u8
    }

    // Stays: what may not change: each register has a public accessor with its clause, one line over `register`.
    #[tactic(auto, unfolding(crate::specs::Registers::chip_in))]
    pub fn mask(self) -> u8
        ensures { result ≡ (chip_in self.0).mask }
    {
        self.register(1)
    }

    #[tactic(auto, unfolding(crate::specs::Registers::chip_in))]
    pub fn request(self) -> u8
        ensures { result ≡ (chip_in self.0).request }
    {
        self.register(2)
    }

    #[tactic(auto, unfolding(crate::specs::Registers::chip_in))]
    pub fn in_service(self) -> u8
        ensures { result ≡ (chip_in self.0).in_service }
    {
        self.register(3)
    }

    // Stays: what may not change (`Registers.chip_in`: a lent word may hold any step, and from 4 up it is none).
    #[tactic(auto, unfolding(crate::specs::Registers::chip_in))]
    pub fn init_step(self) -> u8
        ensures { result ≡ (chip_in self.0).init_step }
    {
        self.register(4)
    }

    // Whether no ICW is waited for, asked of the word: of a step that is asked for 0 to 3 the compiler makes a table of jumps.
    fn is_ready(self) -> bool
        ensures { result ≡ eqb (chip_in self.0).init_step 0 }
    {
        self.0 / 0x1_0000_0000 % 0x100 == 0
    }

    // Stays: what may not change: each flag has a public accessor with its clause, one line over `Set::has`.
    #[tactic(auto, unfolding(crate::specs::Registers::chip_in))]
    pub fn needs_icw4(self) -> bool
        ensures { result ≡ (chip_in self.0).needs_icw4 }
    {
        self.0.has(40)
    }

    #[tactic(auto, unfolding(crate::specs::Registers::chip_in))]
    pub fn single(self) -> bool
        ensures { result ≡ (chip_in self.0).single }
    {
        self.0.has(41)
    }

    #[tactic(auto, unfolding(crate::specs::Registers::chip_in))]
    pub fn auto_eoi(self) -> bool
        ensures { result ≡ (chip_in self.0).auto_eoi }
    {
        self.0.has(42)
    }

    #[tactic(auto, unfolding(crate::specs::Registers::chip_in))]
    pub fn read_isr(self) -> bool
        ensures { result ≡ (chip_in self.0).read_isr }
    {
        self.0.has(43)
    }

    fn with_vector_base(self, base: u8) -> Self
        ensures { chip_in result.0 ≡ with_base (chip_in self.0) base }
    {
        PicChip(self.0 / 0x100 * 0x100 + u64::from(base))
    }

    fn with_mask(self, mask: u8) -> Self
        ensures { chip_in result.0 ≡ with_mask (chip_in self.0) mask }
    {
        PicChip(self.0 / 0x1_0000 * 0x1_0000 + u64::from(mask) * 0x100 + self.0 % 0x100)
    }

    fn with_in_service(self, in_service: u8) -> Self
        ensures { chip_in result.0 ≡ with_in_service (chip_in self.0) in_service }
    {
        PicChip(
            self.0 / 0x1_0000_0000 * 0x1_0000_0000
                + u64::from(in_service) * 0x100_0000
                + self.0 % 0x100_0000,
        )
    }

    fn with_init_step(self, step: u8) -> Self
        ensures { chip_in result.0 ≡ with_step (chip_in self.0) step }
    {
        PicChip(
            self.0 / 0x100_0000_0000 * 0x100_0000_0000
                + u64::from(step) * 0x1_0000_0000
                + self.0 % 0x1_0000_0000,
        )
    }

    // Stays: the new form is no plainer: each flag's setter is one line over `Set::marked`, and has its own clause.
    #[tactic(auto, using(crate::proofs::Packing::auto_put))]
    fn with_auto_eoi(self, up: bool) -> Self
        ensures { chip_in result.0 ≡ with_auto_eoi (chip_in self.0) up }
    {
        PicChip(self.0.marked(42, up))
    }

    #[tactic(auto, using(crate::proofs::Packing::read_put))]
    fn with_read_isr(self, up: bool) -> Self
        ensures { chip_in result.0 ≡ with_read_isr (chip_in self.0) up }
    {
        PicChip(self.0.marked(43, up))
    }

    // One line of a set is a bit of the word.
    // Stays: the new form is no plainer: each is one line over `Set`, of another register; a type of the chip's lines
    // beside `PicLine` would be made anew before each of these calls.
    #[tactic(auto, using(crate::proofs::Packing::requested_put))]
    fn requested(self, irq: PicLine) -> Self
        requires { irq.0 < 8 }
        ensures { chip_in result.0 ≡ with_request (chip_in self.0) (with (chip_in self.0).request irq.0) }
    {
        PicChip(self.0.with(u32::from(irq.0) + 16))
    }

    #[tactic(auto, using(crate::proofs::Packing::unrequested_put))]
    fn unrequested(self, irq: PicLine) -> Self
        requires { irq.0 < 8 }
        ensures { chip_in result.0 ≡ with_request (chip_in self.0) (without (chip_in self.0).request irq.0) }
    {
        PicChip(self.0.without(u32::from(irq.0) + 16))
    }

    #[tactic(auto, using(crate::proofs::Packing::served_put))]
    fn served(self, irq: PicLine) -> Self
        requires { irq.0 < 8 }
        ensures { chip_in result.0 ≡ with_in_service (chip_in self.0) (with (chip_in self.0).in_service irq.0) }
    {
        PicChip(self.0.with(u32::from(irq.0) + 24))
    }

    // The line is no longer in service.
    // Stays: the new form is no plainer: as `unrequested`, of another register.
    #[tactic(auto, using(crate::proofs::Packing::ended_put))]
    fn end(self, irq: PicLine) -> Self
        requires { irq.0 < 8 }
        ensures { chip_in result.0 ≡ specific_eoi (chip_in self.0) irq.0 }
    {
        PicChip(self.0.without(u32::from(irq.0) + 24))
    }

    // A chip as the Rust opens it, at any base byte.
    pub fn new(vector_base: u8) -> Self
        ensures { chip_in result.0 ≡ opened vector_base }
    {
        PicChip(u64::from(vector_base) + 0xff00)
    }

    // ICW1 puts all registers but two: base and mask stay.
    fn icw1(self, value: u8) -> Self
        ensures { chip_in result.0 ≡ icw1 (chip_in self.0) value }
    {
        PicChip(
            self.0 / 0x1000_0000_0000 * 0x1000_0000_0000
                + u64::from(value) % 4 * 0x100_0000_0000
                + 0x1_0000_0000
                + self.0 % 0x1_0000,
        )
    }
}

// ---- The ports.

impl PicChip {
    // A byte written to the command port.
    pub fn command(self, value: u8) -> Self
        ensures { chip_in result.0 ≡ commanded (chip_in self.0) value }
    {
        // As guests mostly do, and found at once.
        if value == 0x20 {
            return self.end_highest();
        }
        if value / 16 % 2 == 1 {
            return self.icw1(value);
        }
        if value / 8 % 2 == 1 {
            return self.ocw3(value);
        }
        self.ocw2(value)
    }

    fn ocw3(self, value: u8) -> Self
        ensures { chip_in result.0 ≡ ocw3 (chip_in self.0) value }
    {
        self.with_read_isr(value / 2 % 2 == 1)
    }

    fn ocw2(self, value: u8) -> Self
        ensures { chip_in result.0 ≡ ocw2 (chip_in self.0) value }
    {
        if value / 32 % 2 != 1 {
            return self;
        }
        if value / 64 % 2 == 1 {
            return self.end(PicLine(value % 8));
        }
        self.end_highest()
    }

    // The highest line in service ends.
    fn end_highest(self) -> Self
        ensures { chip_in result.0 ≡ non_specific_eoi (chip_in self.0) false }
    {
        let set = self.in_service();
        let ended = set - set8::without_lowest(set);
        PicChip(self.0 - ended as u64 * 0x100_0000)
    }

    // A byte written to the data port.
    // Stays: what may not change (docs/DECISIONS.md, "What the question costs": no table of jumps of the four steps).
    pub fn data(self, value: u8) -> Self
        ensures { chip_in result.0 ≡ fed (chip_in self.0) value }
    {
        // As guests mostly do, and found at once.
        if self.is_ready() {
            return self.ocw1(value);
        }
        let step = self.init_step();
        if step == 1 {
            return self.icw2(value);
        }
        if step == 2 {
            return self.icw3();
        }
        if step == 3 {
            return self.icw4(value);
        }
        self.ocw1(value)
    }

    fn ocw1(self, value: u8) -> Self
        ensures { chip_in result.0 ≡ ocw1 (chip_in self.0) value }
    {
        self.with_mask(value)
    }

    fn after_icw3(self) -> u8
        ensures { result ≡ after_icw3 (chip_in self.0) }
    {
        if self.needs_icw4() {
            return 3;
        }
        0
    }

    fn icw2(self, value: u8) -> Self
        ensures { chip_in result.0 ≡ icw2 (chip_in self.0) value }
    {
        let based = self.with_vector_base(value / 8 * 8);
        if self.single() {
            return based.with_init_step(self.after_icw3());
        }
        based.with_init_step(2)
    }

    fn icw3(self) -> Self
        ensures { chip_in result.0 ≡ icw3 (chip_in self.0) }
    {
        self.with_init_step(self.after_icw3())
    }

    fn icw4(self, value: u8) -> Self
        ensures { chip_in result.0 ≡ icw4 (chip_in self.0) value }
    {
        let chosen = self.with_auto_eoi(value / 2 % 2 == 1);
        chosen.with_init_step(0)
    }

    // What a read of the command port shows.
    pub fn read_command(self) -> u8
        ensures { result ≡ command_read (chip_in self.0) }
    {
        // The lines in service stand a byte above the requests.
        let from = self.0 / 0x800_0000_0000 % 2 * 8 + 16;
        ((self.0 >> from) % 0x100) as u8
    }
}

// ---- Requests and their acknowledgement.

impl PicChip {
    // An edge on a line.
    pub fn pulse(self, irq: PicLine) -> Self
        ensures { chip_in result.0 ≡ pulsed (chip_in self.0) irq }
    {
        if irq.0 >= 8 {
            return self;
        }
        self.requested(irq)
    }

    // The requests that count: the unmasked ones above every line in service.
    fn waiting(self) -> u8
        ensures { result ≡ set_of 8 (counts (chip_in self.0)) }
    {
        let open = set8::outside(self.request(), self.mask());
        set8::below_lowest(open, self.in_service())
    }

    // The line whose request would be acknowledged next.
    pub fn pending_irq(self) -> Option<PicLine>
        ensures { result ≡ pending_irq (chip_in self.0) }
    {
        let irq = highest_priority(self.waiting());
        if irq.0 < 8 {
            return Some(irq);
        }
        None
    }

    // The output, INT: whether a request counts.
    pub fn asks(self) -> bool
        ensures { result ≡ asks (chip_in self.0) }
    {
        self.waiting() != 0
    }

    // The cascade line is driven by a level: its request stands exactly while that is up.
    // Stays: the new form is no plainer: `up` is the level that is stored, no step to run.
    pub fn drive_cascade(self, up: bool) -> Self
        ensures { chip_in result.0 ≡ driven (chip_in self.0) cascade_irq.0 up }
    {
        if up {
            return self.requested(PicLine(CASCADE_IRQ));
        }
        self.unrequested(PicLine(CASCADE_IRQ))
    }

    // The interrupt acknowledge sequence of a line: the chip after it, and the vector that it gave.
    pub fn acknowledge(self, irq: PicLine) -> (Self, Option<Vector>)
        ensures { acknowledge_outcome result ≡ acknowledge (chip_in self.0) irq }
    {
        if irq.0 >= 8 {
            return (self, None);
        }
        let vector = irq.vector(self.vector_base());
        (self.acknowledged(irq), Some(vector))
    }

    // The chip after its line was acknowledged.
    fn acknowledged(self, irq: PicLine) -> Self
        requires { irq.0 < 8 }
        ensures { chip_in result.0 ≡ acknowledged (chip_in self.0) irq.0 }
    {
        let left = self.unrequested(irq);
        if self.auto_eoi() {
            return left;
        }
        left.served(irq)
    }

    // The chip with a line's acknowledgement taken back: requested again and, if that had put it there, out of service.
    pub fn unacknowledge(self, irq: PicLine, in_service: bool) -> Self
        ensures { chip_in result.0 ≡ unacknowledged (chip_in self.0) irq in_service }
    {
        let again = self.pulse(irq);
        if !in_service {
            return again;
        }
        if irq.0 >= 8 {
            return again;
        }
        again.end(irq)
    }
}

// ---- The full profile: the same registers, and behind them priorities that rotate and the modes of OCW3 and ICW4. A pair of that rule makes these calls, and no other pair does:
// what the plain ones do stays as short as it is. Where the full profile does no more than the others, there is the plain function alone.

impl PicChip {
    pub fn lowest_line(self) -> u8
        ensures { result ≡ (full_in self.0).lowest_line }
    {
        ((self.0 / 0x1000_0000_0000 + 7) % 8) as u8
    }

    #[tactic(auto, using(crate::proofs::Packing::auto_rotation_read))]
    pub fn auto_rotation(self) -> bool
        ensures { result ≡ (full_in self.0).auto_rotation }
    {
        self.0.has(47)
    }

    #[tactic(auto, using(crate::proofs::Packing::special_mask_read))]
    pub fn special_mask(self) -> bool
        ensures { result ≡ (full_in self.0).special_mask }
    {
        self.0.has(48)
    }

    // Whether a poll waits for the next read.
    #[tactic(auto, using(crate::proofs::Packing::poll_read_lem))]
    pub fn poll(self) -> bool
        ensures { result ≡ (full_in self.0).poll }
    {
        self.0.has(49)
    }

    #[tactic(auto, using(crate::proofs::Packing::nested_read))]
    pub fn nested(self) -> bool
        ensures { result ≡ (full_in self.0).nested }
    {
        self.0.has(50)
    }

    fn with_lowest(self, irq: PicLine) -> Self
        requires { irq.0 < 8 }
        ensures { full_in result.0 ≡ with_lowest (full_in self.0) irq.0 }
    {
        PicChip(
            self.0 / 0x8000_0000_0000 * 0x8000_0000_0000
                + (u64::from(irq.0) + 1) % 8 * 0x1000_0000_0000
                + self.0 % 0x1000_0000_0000,
        )
    }

    #[tactic(auto, using(crate::proofs::Packing::rotation_put))]
    fn with_auto_rotation(self, up: bool) -> Self
        ensures { full_in result.0 ≡ with_auto_rotation (full_in self.0) up }
    {
        PicChip(self.0.marked(47, up))
    }

    #[tactic(auto, using(crate::proofs::Packing::special_put))]
    fn with_special_mask(self, up: bool) -> Self
        ensures { full_in result.0 ≡ with_special_mask (full_in self.0) up }
    {
        PicChip(self.0.marked(48, up))
    }

    #[tactic(auto, using(crate::proofs::Packing::poll_put))]
    fn with_poll(self, up: bool) -> Self
        ensures { full_in result.0 ≡ with_poll (full_in self.0) up }
    {
        PicChip(self.0.marked(49, up))
    }

    #[tactic(auto, using(crate::proofs::Packing::nested_put))]
    fn with_nested(self, up: bool) -> Self
        ensures { full_in result.0 ≡ with_nested (full_in self.0) up }
    {
        PicChip(self.0.marked(50, up))
    }

    // ICW1 puts all registers but the base.
    // Stays: the new form is no plainer: `icw1` keeps the mask, and the registers that are the full profile's alone.
    fn full_icw1(self, value: u8) -> Self
        ensures { full_in result.0 ≡ icw1 (full_in self.0) value }
    {
        PicChip(
            self.0 / 0x8_0000_0000_0000 * 0x8_0000_0000_0000
                + u64::from(value) % 4 * 0x100_0000_0000
                + 0x1_0000_0000
                + self.0 % 0x100,
        )
    }

    // A byte written to the command port.
    pub fn full_command(self, value: u8) -> Self
        ensures { full_in result.0 ≡ commanded (full_in self.0) value }
    {
        if value / 16 % 2 == 1 {
            return self.full_icw1(value);
        }
        if value / 8 % 2 == 1 {
            return self.full_ocw3(value);
        }
        self.full_ocw2(value)
    }

    fn full_ocw3(self, value: u8) -> Self
        ensures { full_in result.0 ≡ ocw3 (full_in self.0) value }
    {
        let chosen = self.choose_register(value);
        let masking = chosen.choose_special_mask(value);
        masking.choose_poll(value)
    }

    // Bit 1 enables the choice of the register that is read next, bit 0.
    fn choose_register(self, value: u8) -> Self
        ensures { full_in result.0 ≡ with_read_isr (full_in self.0) (cond (bit value 1) (bit value 0) (full_in self.0).read_isr) }
    {
        if value / 2 % 2 == 1 {
            return self.with_read_isr(value % 2 == 1);
        }
        self
    }

    // Bit 6 enables the choice of special mask mode, bit 5.
    fn choose_special_mask(self, value: u8) -> Self
        ensures { full_in result.0 ≡ with_special_mask (full_in self.0) (cond (bit value 6) (bit value 5) (full_in self.0).special_mask) }
    {
        if value / 64 % 2 == 1 {
            return self.with_special_mask(value / 32 % 2 == 1);
        }
        self
    }

    // Bit 2 polls, and no write ends a poll that waits.
    fn choose_poll(self, value: u8) -> Self
        ensures { full_in result.0 ≡ with_poll (full_in self.0) (bit value 2 || (full_in self.0).poll) }
    {
        if value / 4 % 2 == 1 {
            return self.with_poll(true);
        }
        self
    }

    fn full_ocw2(self, value: u8) -> Self
        ensures { full_in result.0 ≡ ocw2 (full_in self.0) value }
    {
        let rotates = value / 128 % 2 == 1;
        if value / 32 % 2 == 1 {
            if value / 64 % 2 == 1 {
                return self.full_end(PicLine(value % 8), rotates);
            }
            return self.full_end_highest(rotates);
        }
        if value / 64 % 2 != 1 {
            return self.with_auto_rotation(rotates);
        }
        if rotates {
            return self.with_lowest(PicLine(value % 8));
        }
        self
    }

    // The line is no longer in service and, if the command rotates, lowest.
    // Stays: the new form is no plainer: `rotates` is the command's bit R, as `turned` has it.
    fn full_end(self, irq: PicLine, rotates: bool) -> Self
        requires { irq.0 < 8 }
        ensures { full_in result.0 ≡ turned (specific_eoi (full_in self.0) irq.0) rotates irq.0 }
    {
        let ended = self.end(irq);
        if rotates {
            return ended.with_lowest(irq);
        }
        ended
    }

    // The highest line in service ends; in special mask mode the highest that isn't masked.
    fn full_end_highest(self, rotates: bool) -> Self
        ensures { full_in result.0 ≡ non_specific_eoi (full_in self.0) rotates }
    {
        let irq = vpic_priority::first_line(self.lowest_line(), self.blocking());
        if irq >= 8 {
            return self;
        }
        self.full_end(PicLine(irq), rotates)
    }

    // A byte written to the data port: ICW4 alone does more than without the full profile.
    pub fn full_data(self, value: u8) -> Self
        ensures { full_in result.0 ≡ fed (full_in self.0) value }
    {
        if self.init_step() == 3 {
            return self.full_icw4(value);
        }
        self.data(value)
    }

    fn full_icw4(self, value: u8) -> Self
        ensures { full_in result.0 ≡ icw4 (full_in self.0) value }
    {
        let ready = self.icw4(value);
        ready.with_nested(value / 16 % 2 == 1)
    }

    // The lines in service that are in the way of others: in special mask mode not the masked ones.
    fn blocking(self) -> u8
        ensures { result ≡ set_of 8 (blocks (full_in self.0)) }
    {
        if self.special_mask() {
            return set8::outside(self.in_service(), self.mask());
        }
        self.in_service()
    }

    // Those in the way of one line: in special fully nested mode the master's cascade line isn't in its own. Whether this is the master says the caller, here and below.
    // Stays: the new form is no plainer: `cascades` is the chip's place in the pair, as `placed` has it.
    fn blocking_line(self, cascades: bool, line: u8) -> u8
        ensures { result ≡ set_of 8 (blocks_line (placed cascades (full_in self.0)) line) }
    {
        let all = self.blocking();
        if line != CASCADE_IRQ {
            return all;
        }
        if !cascades {
            return all;
        }
        if !self.nested() {
            return all;
        }
        all.without(u32::from(CASCADE_IRQ))
    }

    // The line whose request would be acknowledged next, the highest that counts: the highest unmasked request, where it is above every line that is in its way. Where it isn't, no
    // other is: what is in its way is in the way of those below it too.
    pub fn full_pending_irq(self, cascades: bool) -> Option<PicLine>
        ensures { result ≡ pending_irq (placed cascades (full_in self.0)) }
    {
        let open = set8::outside(self.request(), self.mask());
        // As mostly, and found at once: each search lays out its table.
        if open == 0 {
            return None;
        }
        let lowest = self.lowest_line();
        let asked = vpic_priority::first_line(lowest, open);
        let served = vpic_priority::first_line(lowest, self.blocking_line(cascades, asked));
        if vpic_priority::is_above(lowest, asked, served) {
            return Some(PicLine(asked));
        }
        None
    }

    // The output, INT: whether a request counts.
    pub fn full_asks(self, cascades: bool) -> bool
        ensures { result ≡ asks (placed cascades (full_in self.0)) }
    {
        self.full_pending_irq(cascades).is_some()
    }

    // The interrupt acknowledge sequence of a line: the chip after it, and the vector that it gave.
    pub fn full_acknowledge(self, irq: PicLine) -> (Self, Option<Vector>)
        ensures { full_outcome result ≡ acknowledge (full_in self.0) irq }
    {
        if irq.0 >= 8 {
            return (self, None);
        }
        let vector = irq.vector(self.vector_base());
        (self.full_acknowledged(irq), Some(vector))
    }

    fn full_acknowledged(self, irq: PicLine) -> Self
        requires { irq.0 < 8 }
        ensures { full_in result.0 ≡ acknowledged (full_in self.0) irq.0 }
    {
        let left = self.unrequested(irq);
        if !self.auto_eoi() {
            return left.served(irq);
        }
        if self.auto_rotation() {
            return left.with_lowest(irq);
        }
        left
    }

    // A poll's read: the line that counts is acknowledged, and shown with bit 7. The chip after it, and what the read shows.
    pub fn full_poll(self, cascades: bool) -> (Self, u8)
        ensures { poll_outcome cascades result ≡ poll_read (placed cascades (full_in self.0)) }
    {
        let Some(irq) = self.full_pending_irq(cascades) else {
            return (self.with_poll(false), 0);
        };
        let taken = self.full_acknowledged(irq);
        (taken.with_poll(false), 0x80 + irq.0)
    }
}

// The lowest line of the set, line 0 being the highest in priority, or 8 where the set is empty. Three tests find it: of four lines, then of two, then of one,
// each whether no line below is in the set, as none of lines 0 to 3 is where `bits % 16 == 0`.
// Stays: what may not change (docs/DECISIONS.md, "Numbers as sets": 8 where there is none; `lowest 8`).
pub fn highest_priority(bits: u8) -> PicLine
    ensures { result.0 ≡ lowest 8 bits }
{
    if bits == 0 {
        return PicLine(8);
    }
    if bits % 16 == 0 {
        if bits % 64 == 0 {
            if bits % 128 == 0 {
                return PicLine(7);
            }
            return PicLine(6);
        }
        if bits % 32 == 0 {
            return PicLine(5);
        }
        return PicLine(4);
    }
    if bits % 4 == 0 {
        if bits % 8 == 0 {
            return PicLine(3);
        }
        return PicLine(2);
    }
    if bits % 2 == 0 {
        return PicLine(1);
    }
    PicLine(0)
}
