// The rules that an image's chips must keep (document 02, T-11), each chip's as a test of its words.

#![tactic(auto)]

ghost use Rattle.std.specs.Prelude.{◌≡◌, ◌↔◌, ℕ, cond, true, ◌<◌, IsTrue};
ghost use Rattle.vioapic_theorems.specs.Rules.{implies};
ghost use Rattle.vioapic.specs.State.{view};
ghost use Rattle.vlapic_regs.specs.Register.{top_byte};
ghost use Rattle.vpic_chip.specs.Registers.{chip_in, full_in};
ghost use Rattle.vpic.specs.Words.{view as pairView};
ghost use Rattle.image_rules.specs.Rules.{
  may_fly,
  is_v20,
  entry_keeps,
  entry_kept,
  ioapic_keeps,
  id_kept,
  errors,
  legal,
  kept_of,
  word_keeps,
  ppr_keeps,
  apic_keeps,
  chip_keeps,
  cascade_keeps,
  keeps_pair,
};

use types::Gsi;
use utils::Set;
use vioapic::IoApicVersion;
use vioapic_entry::Entry;
use vlapic_regs::{lvt, register};
use vpic::PicRule;

// ---- Tests

fn implies(a: bool, b: bool) -> bool
    ensures { result ≡ implies a b }
{
    !a || b
}

// ---- The I/O APIC

// Delivery Status: an entry that waits to be sent.
const DELIVERY_STATUS: u32 = 12;

// An entry in flight is level, and in version 0x11 fit to be sent.
fn may_fly(word: u64, version20: bool) -> bool
    ensures { result ≡ may_fly version20 word }
{
    vioapic_entry::is_level(word) && (version20 || vioapic_entry::is_fit(word))
}

fn entry_keeps(e: Entry, flies: bool, version20: bool) -> bool
    ensures { result ≡ entry_keeps version20 flies e }
{
    let flying = vioapic_entry::remote_irr(e.word);
    flying == flies
        && implies(e.pending_level, flying)
        && implies(flying, may_fly(e.word, version20))
        && implies(version20, !e.word.has(DELIVERY_STATUS))
}

fn is_20(version: IoApicVersion) -> bool
    ensures { result ≡ is_v20 version }
{
    matches!(version, IoApicVersion::V20)
}

#[tactic(auto, unfolding(crate::specs::Rules::entry_kept))]
fn entry_at_keeps(words: &[u64; 32], g: usize) -> bool
    requires { g < 24 }
    ensures { result ≡ entry_kept words.now g }
{
    let flies = vioapic::in_flight(words).has(g as u32);
    let e = vioapic::entry(words, Gsi(g));
    entry_keeps(e, flies, is_20(vioapic::version(words)))
}

// Each entry of the table keeps the rules of entries.
fn entries_keep(words: &[u64; 32]) -> bool
    ensures { IsTrue result ↔ ((g : ℕ) → g < 24 → entry_kept words.now g ≡ true) }
{
    (0..24).all(|g| entry_at_keeps(words, g))
}

/// Whether an I/O APIC's words keep its rules: a version, and each entry's.
pub fn ioapic_keeps(words: &[u64; 32]) -> bool
    ensures { result ≡ ioapic_keeps (view words.now) }
{
    IoApicVersion::try_from(words[29]).is_ok() && entries_keep(words)
}

// ---- The local APIC

// The id: a byte in xAPIC mode.
fn id(x2apic: bool, x: u32) -> u32
    ensures { result ≡ id_kept x2apic x }
{
    if x2apic {
        return x;
    }
    x % 0x100
}

// The ICR's high word: the top byte in xAPIC mode.
fn destination(x2apic: bool, x: u32) -> u32
    ensures { result ≡ cond x2apic x (top_byte x) }
{
    if x2apic {
        return x;
    }
    register::icr_hi(x)
}

fn errors(x: u32) -> u32
    ensures { result ≡ errors x }
{
    x / 32 % 4 * 32
}

// Of the vectors below 32, those from 16 up.
fn legal(x: u32) -> u32
    ensures { result ≡ legal x }
{
    x / 0x10000 * 0x10000
}

// What the register of word k keeps of a value.
#[tactic(auto, unfolding(crate::specs::Rules::kept_of))]
fn kept(x2apic: bool, k: usize, x: u32) -> u32
    ensures { result ≡ kept_of x2apic k x }
{
    match k {
        1 => id(x2apic, x),
        2 => register::tpr(x),
        4 => register::ldr(x),
        5 => register::dfr(x),
        7 | 8 => errors(x),
        9 => vlapic_icr::fields::idle(x),
        10 => destination(x2apic, x),
        11 | 13 | 14 => lvt::monitor(x),
        12 => lvt::timer(x),
        15 | 16 => lvt::pin(x),
        17 => lvt::error(x),
        18 | 34 => legal(x),
        _ => x,
    }
}

#[tactic(auto, unfolding(vlapic_words::specs::Words::view))]
fn word_keeps(words: &[u64; 48], k: usize) -> bool
    requires { k < 48 }
    ensures { result ≡ word_keeps words.now k }
{
    let x = utils::low(words, k);
    kept(words[0] != 0, k, x) == x
}

fn ppr_keeps(words: &[u64; 48]) -> bool
    ensures { result ≡ ppr_keeps words.now }
{
    let mut copy = *words;
    vlapic_requests::write_tpr(&mut copy, utils::low(words, 2));
    utils::low(&copy, 3) == utils::low(words, 3)
}

// Each of the first 42 words keeps its register's rule.
fn words_keep(words: &[u64; 48]) -> bool
    ensures { IsTrue result ↔ ((k : ℕ) → k < 42 → word_keeps words.now k ≡ true) }
{
    (0..42).all(|k| word_keeps(words, k))
}

/// Whether a local APIC's words keep its rules: each register's, and PPR's.
pub fn apic_keeps(words: &[u64; 48]) -> bool
    ensures { result ≡ apic_keeps words.now }
{
    words_keep(words) && ppr_keeps(words)
}

// ---- The pair

// Stays: `full` chooses which bits stand for nothing, and no step; a type parameter or a closure is no plainer.
#[tactic(auto, unfolding(vpic_chip::specs::Registers::chip_in))]
fn chip_keeps(word: u64, full: bool) -> bool
    ensures { result ≡ chip_keeps (cond full (full_in word) (chip_in word)) }
{
    let base = word % 0x100;
    let step = word / 0x1_0000_0000 % 0x100;
    let rest = word / 0x1000_0000_0000;
    let spare = if full { rest / 0x80 } else { rest };
    base % 8 == 0 && step < 4 && spare == 0
}

fn cascade_keeps(words: &[u64; 4]) -> bool
    ensures { result ≡ cascade_keeps (pairView words.now) }
{
    let requested = vpic::master(words).request().has(2);
    match vpic::rule(words) {
        PicRule::Latch => true,
        PicRule::Cascade => requested == vpic::slave(words).asks(),
        PicRule::Full => requested == vpic::slave(words).full_asks(false),
    }
}

/// Whether a pair's words keep its rules: a rule of the pair, each chip's, and the cascade's.
#[tactic(auto, using(crate::proofs::Pair::chip_placed), unfolding(crate::specs::Rules::keeps_pair, vpic::specs::Words::view))]
pub fn pair_keeps(words: &[u64; 4]) -> bool
    ensures { result ≡ keeps_pair (pairView words.now) }
{
    let full = words[2] == 2;
    PicRule::is_number(words[2])
        && words[3] == 0
        && chip_keeps(words[0], full)
        && chip_keeps(words[1], full)
        && cascade_keeps(words)
}
