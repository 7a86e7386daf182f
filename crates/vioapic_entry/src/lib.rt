// Ported to Rattle from vioapic.rs of the Rust crate x86_vlapic 0.5.4 (Apache License, Version 2.0; the text stands in LICENSE).
//
// Changed: one entry of the redirection table with its two flags is a struct, `Entry`, in the place of the Rust's three arrays. Here
// are the fields of its register; its flags are members of the word as a set, and other masks became divisions and remainders by
// powers of two. Its rules are definitions of one entry (specs/Redirection.antt), and the code of crate `vioapic` does them in place.
// The trait `ToReply` of `types` says the reply of each answer.

#![tactic(auto)]

ghost use Rattle.std.specs.Prelude.{◌≡◌, cond};
ghost use Rattle.utils.specs.Set.{bit};
ghost use Rattle.vioapic_entry.specs.Answers.{interrupt_reply};
ghost use Rattle.vioapic_entry.specs.Redirection.{vector_of, remote_irr, is_level, is_masked, with_remote_irr, without_remote_irr, is_fit, same_low, replace_low, replace_high, without_status, keeps_deferred, awaits};

use types::{Reply, ToReply, Vector};
use utils::Set;

// A redirection entry: its register, whether a level interrupt was deferred, and the level of its input line.
#[derive(Clone, Copy, Debug, PartialEq, Eq, Hash)]
pub struct Entry {
    pub word: u64,
    pub pending_level: bool,
    pub input_level: bool,
}

// A routed interrupt from the virtual IO APIC: what an entry asks to inject.
#[derive(Clone, Copy, Debug, PartialEq, Eq, Hash)]
pub struct IoApicInterrupt {
    pub vector: Vector,
    pub level_triggered: bool,
}

// The vector, and 1 where it is level-triggered or 0.
impl ToReply for IoApicInterrupt {
    ghost reply_of = { interrupt_reply };

    fn reply(self) -> Reply {
        Reply::Two(u64::from(self.vector.0), u64::from(self.level_triggered))
    }
}

// ---- The fields of the register

const DELIVERY_STATUS: u32 = 12;

const REMOTE_IRR: u32 = 14;

const TRIGGER_MODE: u32 = 15;

const MASK: u32 = 16;

pub fn vector_of(word: u64) -> Vector
    ensures { result ≡ vector_of word }
{
    Vector((word % 0x100) as u8)
}

pub fn remote_irr(word: u64) -> bool
    ensures { result ≡ remote_irr word }
{
    word.has(REMOTE_IRR)
}

pub fn is_level(word: u64) -> bool
    ensures { result ≡ is_level word }
{
    word.has(TRIGGER_MODE)
}

pub fn is_masked(word: u64) -> bool
    ensures { result ≡ is_masked word }
{
    word.has(MASK)
}

#[tactic(auto, using(crate::proofs::Fields::with_irr))]
pub fn with_remote_irr(word: u64) -> u64
    ensures { result ≡ with_remote_irr word }
{
    word.with(REMOTE_IRR)
}

#[tactic(auto, using(crate::proofs::Fields::without_irr))]
pub fn without_remote_irr(word: u64) -> u64
    ensures { result ≡ without_remote_irr word }
{
    word.without(REMOTE_IRR)
}

// Unmasked, of fixed delivery, with a vector that can be delivered: the mask, the delivery mode and the vector's upper
// half in one number, since every send asks it.
// Stays: it would miss a bar of speed (docs/DECISIONS.md, "Two tests became one comparison"): every send asks it (`fit_is`).
pub fn is_fit(word: u64) -> bool
    ensures { result ≡ is_fit word }
{
    let fields = word / 0x1_0000 % 2 * 0x1_0000 + word / 0x10 % 0x80 * 0x10;
    if fields < 0x10 {
        return false;
    }
    fields < 0x100
}

// Whether the low word written is the one that is there, Remote IRR apart.
// Stays: the new form is no plainer: no fact binds a register to the value that the guest writes over half of it, and a struct
// of both would be made for each call.
pub fn same_low(word: u64, value: u64) -> bool
    ensures { result ≡ same_low word value }
{
    without_remote_irr(word % 0x1_0000_0000) == without_remote_irr(value)
}

pub fn replace_low(word: u64, value: u32) -> u64
    ensures { result ≡ replace_low word value }
{
    word / 0x1_0000_0000 * 0x1_0000_0000 + without_remote_irr(u64::from(value))
}

pub fn replace_high(word: u64, value: u32) -> u64
    ensures { result ≡ replace_high word value }
{
    u64::from(value) * 0x1_0000_0000 + word % 0x1_0000_0000
}

// Version 0x20, in which Delivery Status and Remote IRR are read-only.

pub fn has_status(word: u64) -> bool
    ensures { result ≡ bit word 12 }
{
    word.has(DELIVERY_STATUS)
}

#[tactic(auto, using(crate::proofs::Fields::without_status_bit))]
pub fn without_status(word: u64) -> u64
    ensures { result ≡ without_status word }
{
    word.without(DELIVERY_STATUS)
}

// The register of an entry that isn't in flight.
pub fn replace_resting(word: u64, value: u32) -> u64
    ensures { result ≡ replace_low word (without_status value) }
{
    replace_low(word, without_status(u64::from(value)) as u32)
}

// With a level word: Remote IRR stays as it is. By the word alone, and not by what `replace_resting` gives, so that nothing waits for that.
pub fn replace_level(word: u64, value: u32) -> u64
    ensures { result ≡ cond (remote_irr word) (with_remote_irr (replace_low word (without_status value))) (replace_low word (without_status value)) }
{
    word / 0x1_0000_0000 * 0x1_0000_0000
        + word / 0x4000 % 2 * 0x4000
        + without_remote_irr(without_status(u64::from(value)))
}

pub fn keeps_deferred(word: u64, value: u32) -> bool
    ensures { result ≡ keeps_deferred word value }
{
    same_low(without_status(word), without_status(u64::from(value))) && !is_masked(u64::from(value))
}

impl Entry {
    // Whether an EOI of the vector ends it: level, in flight and of that vector, all in one comparison, since an EOI asks
    // it of every entry in flight.
    // Stays: it would miss a bar of speed (docs/DECISIONS.md, "Two tests became one comparison"): `awaits_sum`.
    pub fn awaits(self, vector: Vector) -> bool
        ensures { result ≡ awaits vector self }
    {
        let word = self.word;
        word / 0x4000 % 4 * 0x4000 + word % 0x100 == 0xc000 + u64::from(vector.0)
    }
}
