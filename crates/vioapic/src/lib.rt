// Ported to Rattle from vioapic.rs of the Rust crate x86_vlapic 0.5.4 (Apache License, Version 2.0; the text stands in LICENSE).
//
// Changed: the state is 32 words that the caller lends (specs/State.antt), without a lock, or by value (`EmulatedIoApic`, which
// lends its own); it has a version, 0x11 or 0x20, and a word of the lines in flight, so that an EOI looks at these alone; a
// redirection entry with its two flags is a struct (crate `vioapic_entry`), which a call takes out of the words and puts back;
// GSIs and vectors are the types' counters; the error is the types' `Refusal`, and each kind of answer has document 01's number and
// values (`ToReply` of `types`); an access width is a number; an address below the base, and a base and size whose sum doesn't fit,
// are refused instead of overflowing. Each function has its contract, and logging is left out.

#![tactic(auto)]

ghost use Rattle.std.specs.Prelude.{◌≡◌, true, false, ◌<◌, ◌%◌, ◌^◌, Some, Ok, MatchOption};
ghost use Rattle.vioapic_entry.specs.Answers.{routed_reply};
ghost use Rattle.vioapic_entry.specs.Redirection.{vector_of, remote_irr, is_level, with_remote_irr, without_remote_irr, with_word, with_deferred, with_input, awaits, send_entry, raise_entry, lower_entry, end_entry, end_entry20, write_low, write_high, is_owed, replace_low20, write_low20};
ghost use Rattle.vioapic.specs.Answers.{ended_reply, every_reply, ends_reply, eoi_reply, gsi_vector_reply, read_reply, served_reply, written_reply, new_reply, between_reply, range_reply};
ghost use Rattle.vioapic.specs.declared.IoApicVersion.TheVariants.{V20};
ghost use Rattle.vioapic.specs.State.{view, new_words};
ghost use Rattle.vioapic.specs.Table.{is_version20, entry_at, put, routing, route_at, ending, first_awaiting, end_of_entry, every_answer, end_of_every, vector_of_entry};
ghost use Rattle.vioapic.specs.Registers.{is_entry_word, is_low, entry_of, version_word, read_fixed, read_low, read_selected, writing, written_send, write_selected, read_at, written_by, write_eoi, write_at};
ghost use Rattle.vioapic.specs.IoApic.{good_width, fits, version_number, version_of, is_version, NamesVersion, chip_of, chip_at, new_default, Leaves, Wrote, Makes, created_version, vector_for_gsi, address_range, assert_gsi, set_gsi_level, end_of_interrupt, handle_read, handle_writing};
ghost use Rattle.vioapic.specs.Inside.{Keeps, put_flag, with_low, NoneDeferred, Quiet, Flown, forgetting, every_end, end_next, every_ending, cleared_in, sent_in};

use types::{Gsi, Place, Refusal, Reply, ToReply, Vector};
use utils::{Members, Set};
use vioapic_entry::{Entry, IoApicInterrupt};

pub const IOAPIC_BASE: u64 = 0xfec0_0000;

pub const IOAPIC_SIZE: u64 = 0x1000;

pub const IOREGSEL: u64 = 0x00;

pub const IOWIN: u64 = 0x10;

// The EOI register of version 0x20.
pub const IOEOI: u64 = 0x40;

const IOAPIC_ID: u32 = 0x00;

const IOAPIC_VER: u32 = 0x01;

const IOAPIC_ARB: u32 = 0x02;

const IOREDTBL_BASE: u32 = 0x10;

const IOREDTBL_LAST: u32 = 0x3f;

const IOAPIC_ID_VALUE: u64 = 0x0100_0000;

const IOAPIC_VERSION_VALUE: u64 = 0x0017_0011;

const IOAPIC_VERSION_20_VALUE: u64 = 0x0017_0020;

const VERSION_11: u64 = 0x11;

const VERSION_20: u64 = 0x20;

const PENDING: usize = 24;

const INPUT: usize = 25;

const SELECTOR: usize = 26;

const BASE: usize = 27;

const SIZE: usize = 28;

const VERSION: usize = 29;

const IN_FLIGHT: usize = 30;

// The versions that there are.
#[derive(Clone, Copy, Debug, PartialEq, Eq, Hash)]
pub enum IoApicVersion {
    // The 82093AA's.
    V11,
    // That of Intel's I/O Controller Hubs.
    V20,
}

impl IoApicVersion {
    // As IOAPICVER has it.
    // Stays: the new form is no plainer: `u64::from(version)` wouldn't say which number.
    pub fn number(self) -> u64
        ensures { result ≡ version_number self }
    {
        match self {
            IoApicVersion::V11 => VERSION_11,
            IoApicVersion::V20 => VERSION_20,
        }
    }

    // That of a lent word, where any number but 0x20 stands for 0x11. What a caller names goes by `try_from`, which
    // refuses a number of no version.
    // Stays: what may not change (`version_of`; a lent word is never refused).
    pub fn of(number: u64) -> IoApicVersion
        ensures { result ≡ version_of number }
    {
        if number == VERSION_20 {
            return IoApicVersion::V20;
        }
        IoApicVersion::V11
    }
}

// The version of that number, or where there is none `Unsupported`.
impl TryFrom<u64> for IoApicVersion {
    type Error = Refusal;

    ghost try_from_gives = { NamesVersion };

    fn try_from(number: u64) -> Result<IoApicVersion, Refusal> {
        match number {
            VERSION_11 => Ok(IoApicVersion::V11),
            VERSION_20 => Ok(IoApicVersion::V20),
            _ => Err(Refusal::Unsupported),
        }
    }
}

// Whether there is a version of that number.
// Stays: the new form is no plainer: the scripts' table and the images' rules ask whether, and not which.
#[tactic(auto, using(crate::proofs::Ways::names_ok))]
pub fn is_version(number: u64) -> bool
    ensures { result ≡ is_version number }
{
    IoApicVersion::try_from(number).is_ok()
}

// Result of a virtual IO APIC EOI broadcast: the GSI whose remote-IRR state was cleared, and the interrupt that should be injected now.
#[derive(Clone, Copy, Debug, PartialEq, Eq, Hash)]
pub struct IoApicEoi {
    pub gsi: Gsi,
    pub pending: Option<IoApicInterrupt>,
}

// The GSI, and with an interrupt its vector and trigger mode.
impl ToReply for IoApicEoi {
    ghost reply_of = { ended_reply };

    fn reply(self) -> Reply {
        let gsi = self.gsi.0 as u64;
        match self.pending {
            None => Reply::One(gsi),
            Some(interrupt) => Reply::Three(
                gsi,
                u64::from(interrupt.vector.0),
                u64::from(interrupt.level_triggered),
            ),
        }
    }
}

// The same in version 0x20, one bit a GSI: those whose remote-IRR state was cleared, and those of them whose interrupt should be injected now.
#[derive(Clone, Copy, Debug, PartialEq, Eq, Hash)]
pub struct IoApicEois {
    pub cleared: u32,
    pub sent: u32,
}

impl ToReply for IoApicEois {
    ghost reply_of = { every_reply };

    fn reply(self) -> Reply {
        Reply::Two(u64::from(self.cleared), u64::from(self.sent))
    }
}

// What an EOI has ended: one entry in version 0x11, all that awaited it in version 0x20.
#[derive(Clone, Copy, Debug, PartialEq, Eq, Hash)]
pub enum Eoi {
    Ended(IoApicEoi),
    EndedAll(IoApicEois),
}

impl ToReply for Eoi {
    ghost reply_of = { ends_reply };

    fn reply(self) -> Reply {
        match self {
            Eoi::Ended(eoi) => eoi.reply(),
            Eoi::EndedAll(eois) => eois.reply(),
        }
    }
}

// What a write that is served has done.
#[derive(Clone, Copy, Debug, PartialEq, Eq, Hash)]
pub enum Written {
    Done,
    // Version 0x20: the entry whose low word was written is owed its interrupt.
    Sent(IoApicInterrupt),
    // The EOI register's write.
    EndedAll(IoApicEois),
}

impl ToReply for Written {
    ghost reply_of = { served_reply };

    fn reply(self) -> Reply {
        match self {
            Written::Done => Reply::Nothing,
            Written::Sent(interrupt) => interrupt.reply(),
            Written::EndedAll(eois) => eois.reply(),
        }
    }
}

// A write that may have sent an entry.
impl From<Option<IoApicInterrupt>> for Written {
    ghost from_gives = { λ answer w. w ≡ written_send answer };

    fn from(answer: Option<IoApicInterrupt>) -> Written {
        match answer {
            None => Written::Done,
            Some(interrupt) => Written::Sent(interrupt),
        }
    }
}

// A write that was an EOI.
impl From<Option<Eoi>> for Written {
    ghost from_gives = { λ answer w. w ≡ written_by answer };

    fn from(answer: Option<Eoi>) -> Written {
        match answer {
            None | Some(Eoi::Ended(_)) => Written::Done,
            Some(Eoi::EndedAll(eois)) => Written::EndedAll(eois),
        }
    }
}

// Guest-physical addresses from the start up to, and without, the end.
#[derive(Clone, Copy, Debug, PartialEq, Eq, Hash)]
pub struct AddressRange {
    pub start: u64,
    pub end: u64,
}

impl ToReply for AddressRange {
    ghost reply_of = { between_reply };

    fn reply(self) -> Reply {
        Reply::Two(self.start, self.end)
    }
}

// ---- The words

#[tactic(auto, unfolding(crate::specs::State::view))]
pub fn base(words: &[u64; 32]) -> u64
    ensures { result ≡ (view words.now).base }
{
    words[BASE]
}

#[tactic(auto, unfolding(crate::specs::State::view))]
pub fn size(words: &[u64; 32]) -> u64
    ensures { result ≡ (view words.now).size }
{
    words[SIZE]
}

#[tactic(auto, using(crate::proofs::Ways::version_held))]
pub fn version(words: &[u64; 32]) -> IoApicVersion
    ensures { result ≡ version_of (view words.now).version }
{
    IoApicVersion::of(words[VERSION])
}

#[tactic(auto, unfolding(crate::specs::State::view))]
pub fn selector(words: &[u64; 32]) -> u32
    ensures { result ≡ (view words.now).selector }
{
    (words[SELECTOR] % 0x1_0000_0000) as u32
}

// The lines in flight of the 24: whatever else the word holds isn't looked at.
pub fn in_flight(words: &[u64; 32]) -> u32
    ensures { (result ≡ (view words.now).in_flight) × (result < 2 ^ 24) }
{
    (words[IN_FLIGHT] % 0x100_0000) as u32
}

// The entry of the redirection table with its two flags, and a blank one for a GSI from 24 up.
pub fn entry(words: &[u64; 32], gsi: Gsi) -> Entry
    ensures { result ≡ entry_at (view words.now) gsi.0 }
{
    match gsi.place() {
        Some(place) => entry_in(words, place),
        None => Entry {
            word: 0,
            pending_level: false,
            input_level: false,
        },
    }
}

// Stays: the C interface lends the words, and what isn't looked at in them stays as it is (`Leaves`): so each function
// takes them beside a place.
#[tactic(auto, using(crate::proofs::Words::entry_is))]
fn entry_in(words: &[u64; 32], place: Place) -> Entry
    ensures { result ≡ entry_at (view words.now) place.index }
{
    Entry {
        word: words[place.index],
        pending_level: words[PENDING].has(place.index as u32),
        input_level: words[INPUT].has(place.index as u32),
    }
}

#[tactic(auto, using(crate::proofs::Words::word_at_lem))]
fn word_at(words: &[u64; 32], place: Place) -> u64
    ensures { result ≡ (entry_at (view words.now) place.index).word }
{
    words[place.index]
}

fn set_flag(words: &mut [u64; 32], at: usize, place: Place, up: bool)
    requires { at < 32 }
    ensures { words.new ≡ put_flag words.old at place.index up }
{
    words[at] = words[at].marked(place.index as u32, up);
}

// What is done to an entry, part by part. `word` is its register, which the caller has read.

fn set_deferred(words: &mut [u64; 32], place: Place, deferred: bool)
    ensures { Keeps words.old words.new (view words.new ≡ put (view words.old) place.index (with_deferred (entry_at (view words.old) place.index) deferred)) }
{
    set_flag(words, PENDING, place, deferred);
}

fn set_input(words: &mut [u64; 32], place: Place, up: bool)
    ensures { Keeps words.old words.new (view words.new ≡ put (view words.old) place.index (with_input (entry_at (view words.old) place.index) up)) }
{
    set_flag(words, INPUT, place, up);
}

// Remote IRR is set, and the line is in flight.
// Stays: the new form is no plainer: that `word` is the entry's register is a fact of two arguments, and a type of both
// would have to borrow the words.
fn fly(words: &mut [u64; 32], place: Place, word: u64)
    requires { (word ≡ (entry_at (view words.old) place.index).word) × (remote_irr word ≡ false) }
    ensures { Keeps words.old words.new (view words.new ≡ put (view words.old) place.index (with_word (entry_at (view words.old) place.index) (with_remote_irr word))) }
{
    set_flag(words, IN_FLIGHT, place, true);
    words[place.index] = vioapic_entry::with_remote_irr(words[place.index]);
}

// It is clear, and the line isn't.
fn rest(words: &mut [u64; 32], place: Place, word: u64)
    requires { (word ≡ (entry_at (view words.old) place.index).word) × (remote_irr word ≡ true) }
    ensures { Keeps words.old words.new (view words.new ≡ put (view words.old) place.index (with_word (entry_at (view words.old) place.index) (without_remote_irr word))) }
{
    words[place.index] = vioapic_entry::without_remote_irr(word);
    set_flag(words, IN_FLIGHT, place, false);
}

#[tactic(auto, using(crate::proofs::Words::deferred_at))]
fn is_deferred(words: &[u64; 32], place: Place) -> bool
    ensures { result ≡ (entry_at (view words.now) place.index).pending_level }
{
    words[PENDING].has(place.index as u32)
}

// Stays: the new form is no plainer: it converts nothing, but reads a bit of the words.
#[tactic(auto, using(crate::proofs::Words::input_at))]
fn is_up(words: &[u64; 32], place: Place) -> bool
    ensures { result ≡ (entry_at (view words.now) place.index).input_level }
{
    words[INPUT].has(place.index as u32)
}

// Nothing is deferred on any line, as is usual.
fn none_deferred(words: &[u64; 32]) -> bool
    ensures { result ≡ true → NoneDeferred (view words.now) }
{
    words[PENDING] == 0
}

fn interrupt(word: u64, level: bool) -> Option<IoApicInterrupt>
    ensures { result ≡ Some (record { vector = vector_of word; level_triggered = level }) }
{
    Some(IoApicInterrupt {
        vector: vioapic_entry::vector_of(word),
        level_triggered: level,
    })
}

// ---- Lines

// An entry is sent, if it can be, its line left as it is.
fn interrupt_for_entry(words: &mut [u64; 32], place: Place, word: u64) -> Option<IoApicInterrupt>
    requires { word ≡ (entry_at (view words.old) place.index).word }
    ensures { Keeps words.old words.new (routing (view words.new) result ≡ route_at (view words.old) place.index (send_entry (entry_at (view words.old) place.index))) }
{
    if !vioapic_entry::is_fit(word) {
        return None;
    }
    if !vioapic_entry::is_level(word) {
        return interrupt(word, false);
    }
    if vioapic_entry::remote_irr(word) {
        set_deferred(words, place, true);
        return None;
    }
    fly(words, place, word);
    interrupt(word, true)
}

// Its line goes up.
fn raise(words: &mut [u64; 32], place: Place) -> Option<IoApicInterrupt>
    ensures { Keeps words.old words.new (routing (view words.new) result ≡ route_at (view words.old) place.index (raise_entry (entry_at (view words.old) place.index))) }
{
    let word = word_at(words, place);
    // The usual case first: not in flight.
    if !vioapic_entry::remote_irr(word) {
        set_input(words, place, true);
        return interrupt_for_entry(words, place, word);
    }
    if is_up(words, place) {
        set_deferred(words, place, true);
        return None;
    }
    set_input(words, place, true);
    interrupt_for_entry(words, place, word)
}

// Its line goes down.
fn lower(words: &mut [u64; 32], place: Place) -> Option<IoApicInterrupt>
    ensures { Keeps words.old words.new (routing (view words.new) result ≡ route_at (view words.old) place.index (lower_entry (entry_at (view words.old) place.index))) }
{
    if is_deferred(words, place) {
        set_deferred(words, place, false);
        set_input(words, place, false);
        return None;
    }
    set_input(words, place, false);
    None
}

// Assert an IO APIC input line and return the interrupt to inject.
pub fn assert_gsi(words: &mut [u64; 32], gsi: Gsi) -> Option<IoApicInterrupt>
    ensures { Leaves words.old words.new (routed_reply result) (assert_gsi (view words.old) gsi) }
{
    let line = gsi.place()?;
    let word = word_at(words, line);
    interrupt_for_entry(words, line, word)
}

// Updates one IO APIC input line and returns a newly routable interrupt.
//
// Level-triggered inputs remain asserted across guest EOI. Deasserting a line before EOI cancels any deferred redelivery.
pub fn set_gsi_level(words: &mut [u64; 32], gsi: Gsi, asserted: bool) -> Option<IoApicInterrupt>
    ensures { Leaves words.old words.new (routed_reply result) (set_gsi_level (view words.old) gsi asserted) }
{
    let place = gsi.place()?;
    if asserted {
        raise(words, place)
    } else {
        lower(words, place)
    }
}

// Return the guest interrupt vector programmed for a GSI.
pub fn vector_for_gsi(words: &[u64; 32], gsi: Gsi) -> Option<Vector>
    ensures { gsi_vector_reply result ≡ vector_for_gsi (view words.now) gsi }
{
    vector_of_entry(words[gsi.place()?.index])
}

// ---- EOIs

#[tactic(auto, using(crate::proofs::Ways::version_is))]
fn is_version_20(words: &[u64; 32]) -> bool
    ensures { result ≡ is_version20 (view words.now) }
{
    words[VERSION] == VERSION_20
}

// Whether an entry awaits the EOI: its flags aren't looked at.
#[tactic(auto, using(crate::proofs::Words::awaits_is))]
fn awaits_at(words: &[u64; 32], place: Place, vector: Vector) -> bool
    ensures { result ≡ awaits vector (entry_at (view words.now) place.index) }
{
    let entry = Entry {
        word: words[place.index],
        pending_level: false,
        input_level: false,
    };
    entry.awaits(vector)
}

// The lowest entry that an EOI of the vector ends. Only those in flight are looked at.
fn first_awaiting(words: &[u64; 32], vector: Vector) -> Option<Place>
    ensures { MatchOption result (first_awaiting (view words.now) vector ≡ 24) (λ place. place.index ≡ first_awaiting (view words.now) vector) }
{
    for k in Members(in_flight(words)) {
        let place = Place { index: k as usize };
        if awaits_at(words, place, vector) {
            return Some(place);
        }
    }
    None
}

// An entry that awaits the EOI is sent again if it can be: in flight as before, so that nothing moves. Else it is at rest.
fn resend(words: &mut [u64; 32], place: Place, word: u64) -> Option<IoApicInterrupt>
    requires { (word ≡ (entry_at (view words.old) place.index).word) × (remote_irr word ≡ true) × (is_level word ≡ true) }
    ensures { Keeps words.old words.new (routing (view words.new) result ≡ route_at (view words.old) place.index (send_entry (with_word (entry_at (view words.old) place.index) (without_remote_irr word)))) }
{
    if vioapic_entry::is_fit(word) {
        return interrupt(word, true);
    }
    rest(words, place, word);
    None
}

// Version 0x11: it ends.
fn end(words: &mut [u64; 32], place: Place) -> Option<IoApicInterrupt>
    requires { (remote_irr (entry_at (view words.old) place.index).word ≡ true) × (is_level (entry_at (view words.old) place.index).word ≡ true) }
    ensures { Keeps words.old words.new (routing (view words.new) result ≡ route_at (view words.old) place.index (end_entry (entry_at (view words.old) place.index))) }
{
    let word = word_at(words, place);
    if is_up(words, place) {
        return resend(words, place, word);
    }
    if !is_deferred(words, place) {
        rest(words, place, word);
        return None;
    }
    set_deferred(words, place, false);
    resend(words, place, word)
}

// The lowest of the entries that await the EOI does.
fn end_first(words: &mut [u64; 32], vector: Vector) -> Option<Eoi>
    ensures { Keeps words.old words.new (ending (view words.new) result ≡ end_of_entry (view words.old) vector) }
{
    let place = first_awaiting(words, vector)?;
    let pending = end(words, place);
    Some(Eoi::Ended(IoApicEoi {
        gsi: Gsi(place.index),
        pending,
    }))
}

// What an EOI of version 0x20 has ended so far, in one number: bit g is up where entry g was, and bit 24 + g where it is sent again.
#[derive(Clone, Copy, Debug, PartialEq, Eq, Hash)]
struct Ends(u64);

impl Ends {
    fn answer(self) -> Option<Eoi>
        ensures { result ≡ every_answer (cleared_in self) (sent_in self) }
    {
        let cleared = (self.0 % 0x100_0000) as u32;
        if cleared == 0 {
            return None;
        }
        let sent = (self.0 / 0x100_0000 % 0x100_0000) as u32;
        Some(Eoi::EndedAll(IoApicEois { cleared, sent }))
    }
}

// Version 0x20: an entry ends, and what was deferred goes.
fn end20(words: &mut [u64; 32], place: Place) -> Option<IoApicInterrupt>
    requires { (remote_irr (entry_at (view words.old) place.index).word ≡ true) × (is_level (entry_at (view words.old) place.index).word ≡ true) }
    ensures { Keeps words.old words.new (routing (view words.new) result ≡ route_at (view words.old) place.index (end_entry20 (entry_at (view words.old) place.index))) }
{
    let word = word_at(words, place);
    if is_deferred(words, place) {
        set_deferred(words, place, false);
        return resend(words, place, word);
    }
    if is_up(words, place) {
        return resend(words, place, word);
    }
    rest(words, place, word);
    None
}

// The turn of an entry, which ends if it awaits the EOI.
fn end_at(words: &mut [u64; 32], place: Place, vector: Vector, ends: Ends) -> Ends
    ensures { Keeps words.old words.new (every_end (view words.new) (cleared_in result) (sent_in result) ≡ end_next vector (every_end (view words.old) (cleared_in ends) (sent_in ends)) place.index) }
{
    if !awaits_at(words, place, vector) {
        return ends;
    }
    let answer = end20(words, place);
    let cleared = ends.0.with(place.index as u32);
    if answer.is_some() {
        return Ends(cleared.with(place.index as u32 + 24));
    }
    Ends(cleared)
}

// All of them end.
fn end_every(words: &mut [u64; 32], vector: Vector) -> Ends
    ensures { Keeps words.old words.new (every_ending (every_end (view words.new) (cleared_in result) (sent_in result)) ≡ end_of_every (view words.old) vector) }
{
    let mut ends = Ends(0);
    for k in Members(in_flight(words)) {
        ends = end_at(words, Place { index: k as usize }, vector, ends);
    }
    ends
}

// Process an EOI broadcast from the local APIC.
pub fn end_of_interrupt(words: &mut [u64; 32], vector: Vector) -> Option<Eoi>
    ensures { Leaves words.old words.new (eoi_reply result) (end_of_interrupt (view words.old) vector) }
{
    if is_version_20(words) {
        return end_every(words, vector).answer();
    }
    end_first(words, vector)
}

// ---- The memory map

// Returns the IO APIC MMIO range.
pub fn address_range(words: &[u64; 32]) -> Result<AddressRange, Refusal>
    ensures { range_reply result ≡ address_range (view words.now) }
{
    let start = base(words);
    let length = size(words);
    if fits(start, length) {
        return Ok(AddressRange {
            start,
            end: start + length,
        });
    }
    Err(Refusal::InvalidAddress)
}

fn read_selected_register(words: &[u64; 32]) -> u64
    ensures { result ≡ read_selected (view words.now) }
{
    let selected = selector(words);
    if is_entry_word(selected) {
        let word = word_at(words, entry_of(selected));
        if is_low(selected) {
            return read_low(words, word % 0x1_0000_0000);
        }
        return word / 0x1_0000_0000;
    }
    read_fixed(words[VERSION], selected)
}

// The low word of an entry. The usual case first: Delivery Status is clear, so that the version doesn't matter.
fn read_low(words: &[u64; 32], low: u64) -> u64
    ensures { result ≡ read_low (is_version20 (view words.now)) low }
{
    if !vioapic_entry::has_status(low) {
        return low;
    }
    if is_version_20(words) {
        return vioapic_entry::without_status(low);
    }
    low
}

fn read_at(words: &[u64; 32], offset: u64) -> u64
    ensures { result ≡ read_at (view words.now) offset }
{
    if offset == IOREGSEL {
        return u64::from(selector(words));
    }
    if offset == IOWIN {
        return read_selected_register(words);
    }
    0
}

// A read of a good width.
fn read_within(words: &[u64; 32], addr: u64) -> Result<u64, Refusal>
    ensures { read_reply result ≡ handle_read (view words.now) addr 4 }
{
    let start = base(words);
    if addr < start {
        return Err(Refusal::InvalidAddress);
    }
    Ok(read_at(words, addr - start))
}

// Handles an IO APIC MMIO read.
pub fn handle_read(words: &[u64; 32], addr: u64, width: u64) -> Result<u64, Refusal>
    ensures { read_reply result ≡ handle_read (view words.now) addr width }
{
    // In two arms, of which the compiler asks the second first: the usual width.
    if width == 8 {
        return read_within(words, addr);
    }
    if width == 4 {
        return read_within(words, addr);
    }
    Err(Refusal::Unsupported)
}

// The register is `after`, which isn't in flight.
fn ground(words: &mut [u64; 32], place: Place, word: u64, after: u64)
    requires { (word ≡ (entry_at (view words.old) place.index).word) × (remote_irr after ≡ false) }
    ensures { Keeps words.old words.new (view words.new ≡ put (view words.old) place.index (with_word (entry_at (view words.old) place.index) after)) }
{
    words[place.index] = after;
    if vioapic_entry::remote_irr(word) {
        set_flag(words, IN_FLIGHT, place, false);
    }
}

fn write_low(words: &mut [u64; 32], place: Place, value: u32)
    ensures { Keeps words.old words.new (view words.new ≡ put (view words.old) place.index (write_low (entry_at (view words.old) place.index) value)) }
{
    // As mostly, and found at once: nothing is there to be forgotten.
    if none_deferred(words) {
        let register = word_at(words, place);
        if !vioapic_entry::same_low(register, u64::from(value)) {
            ground(
                words,
                place,
                register,
                vioapic_entry::replace_low(register, value),
            );
        }
        return;
    }
    let word = word_at(words, place);
    if !vioapic_entry::same_low(word, u64::from(value)) {
        set_deferred(words, place, false);
        ground(words, place, word, vioapic_entry::replace_low(word, value));
        return;
    }
    if vioapic_entry::is_masked(word) {
        set_deferred(words, place, false);
    }
}

// Version 0x20: the register takes a low word. First as one that isn't in flight, whatever it was: so it is one store of the lower half. `word` is the register before.
// Answers whether that is all, as mostly of an entry in flight: it stays in flight, and nothing is there to be forgotten.
// Stays: the new form is no plainer: between its answers it stores, and that `word` is the register is a fact of two
// arguments.
fn lay(words: &mut [u64; 32], selected: u32, place: Place, word: u64, value: u32) -> bool
    requires { (is_entry_word selected ≡ true) × (place.index ≡ entry_of selected) × (word ≡ (entry_at (view words.old) place.index).word) }
    ensures { Keeps words.old words.new (view words.new ≡ put (view words.old) place.index (with_word (entry_at (view words.old) place.index) (replace_low20 word value))) × (result ≡ true → Flown word (entry_at (view words.old) place.index)) }
{
    words[place.index] = vioapic_entry::replace_resting(word, value);
    if !vioapic_entry::remote_irr(word) {
        return false;
    }
    if !vioapic_entry::is_level(u64::from(value)) {
        set_flag(words, IN_FLIGHT, place, false);
        return false;
    }
    if none_deferred(words) {
        // Remote IRR again, where it lies. The entry is named by the selector: where the compiler sees that it is the one just stored, it puts the register together anew.
        let again = selected as usize / 2 - 8;
        words[again] = vioapic_entry::with_remote_irr(words[again]);
        return true;
    }
    words[place.index] = vioapic_entry::replace_level(word, value);
    false
}

// What was deferred is forgotten, unless the low word that was there is written, unmasked. `word` is the register before.
fn forget(words: &mut [u64; 32], place: Place, word: u64, value: u32)
    ensures { Keeps words.old words.new (view words.new ≡ put (view words.old) place.index (forgetting word (entry_at (view words.old) place.index) value)) }
{
    // As mostly, and found at once.
    if none_deferred(words) {
        return;
    }
    if vioapic_entry::keeps_deferred(word, value) {
        return;
    }
    set_deferred(words, place, false);
}

// A level entry, its line up, that isn't in flight. `word` is its register.
fn is_owed(words: &[u64; 32], place: Place, word: u64) -> bool
    requires { word ≡ (entry_at (view words.now) place.index).word }
    ensures { result ≡ is_owed (entry_at (view words.now) place.index) }
{
    is_up(words, place) && vioapic_entry::is_level(word) && !vioapic_entry::remote_irr(word)
}

// The line is down, and nothing is deferred.
fn is_quiet(words: &[u64; 32], place: Place) -> bool
    ensures { result ≡ true → Quiet (entry_at (view words.now) place.index) }
{
    // By the lower half of the word: the compiler then doesn't make the line's bit for what comes after.
    none_deferred(words) && !((words[INPUT] % 0x1_0000_0000) as u32).has(place.index as u32)
}

// And the entry is sent if it is owed that. One in flight isn't: with a level word it stays in flight, and an edge one isn't owed anything. Else the usual case first:
// the line is down.
fn write_low20(
    words: &mut [u64; 32],
    selected: u32,
    place: Place,
    value: u32,
) -> Option<IoApicInterrupt>
    requires { (is_entry_word selected ≡ true) × (place.index ≡ entry_of selected) }
    ensures { Keeps words.old words.new (routing (view words.new) result ≡ route_at (view words.old) place.index (write_low20 (entry_at (view words.old) place.index) value)) }
{
    let word = word_at(words, place);
    if lay(words, selected, place, word, value) {
        return None;
    }
    if vioapic_entry::remote_irr(word) {
        forget(words, place, word, value);
        return None;
    }
    if is_quiet(words, place) {
        return None;
    }
    forget(words, place, word, value);
    let after = vioapic_entry::replace_resting(word, value);
    if is_owed(words, place, after) {
        return interrupt_for_entry(words, place, after);
    }
    None
}

fn write_high(words: &mut [u64; 32], place: Place, value: u32)
    ensures { Keeps words.old words.new (view words.new ≡ put (view words.old) place.index (write_high (entry_at (view words.old) place.index) value)) }
{
    words[place.index] = vioapic_entry::replace_high(words[place.index], value);
}

fn write_selected_register(words: &mut [u64; 32], value: u32) -> Written
    ensures { Keeps words.old words.new (writing (view words.new) (Ok result) ≡ write_selected (view words.old) value) }
{
    let selected = selector(words);
    if is_entry_word(selected) {
        let place = entry_of(selected);
        if is_low(selected) {
            if is_version_20(words) {
                return Written::from(write_low20(words, selected, place, value));
            }
            write_low(words, place, value);
            return Written::Done;
        }
        write_high(words, place, value);
        return Written::Done;
    }
    Written::Done
}

// The EOI register, which version 0x20 alone has.
fn write_eoi(words: &mut [u64; 32], value: u32) -> Written
    ensures { Keeps words.old words.new (writing (view words.new) (Ok result) ≡ write_eoi (view words.old) value) }
{
    if !is_version_20(words) {
        return Written::Done;
    }
    Written::from(end_every(words, Vector((value % 0x100) as u8)).answer())
}

// The word with another lower half.
fn with_low(word: u64, value: u32) -> u64
    ensures { result ≡ with_low word value }
{
    word / 0x1_0000_0000 * 0x1_0000_0000 + u64::from(value)
}

// IOREGSEL.
fn select(words: &mut [u64; 32], value: u32) -> Written
    ensures { Keeps words.old words.new (writing (view words.new) (Ok result) ≡ write_at (view words.old) 0 value) }
{
    words[SELECTOR] = with_low(words[SELECTOR], value);
    Written::Done
}

// Any other offset. Of two tests in a row the compiler asks the second first: the window's.
fn write_at(words: &mut [u64; 32], offset: u64, value: u32) -> Written
    requires { 0 < offset }
    ensures { Keeps words.old words.new (writing (view words.new) (Ok result) ≡ write_at (view words.old) offset value) }
{
    if offset == IOEOI {
        return write_eoi(words, value);
    }
    if offset == IOWIN {
        return write_selected_register(words, value);
    }
    Written::Done
}

// Handles an IO APIC MMIO write.
pub fn handle_write(
    words: &mut [u64; 32],
    addr: u64,
    width: u64,
    value: u64,
) -> Result<Written, Refusal>
    ensures { Wrote words.old words.new result (handle_writing (view words.old) addr width value) }
{
    if !good_width(width) {
        return Err(Refusal::Unsupported);
    }
    let start = base(words);
    if addr == start {
        return Ok(select(words, (value % 0x1_0000_0000) as u32));
    }
    if addr < start {
        return Err(Refusal::InvalidAddress);
    }
    Ok(write_at(words, addr - start, (value % 0x1_0000_0000) as u32))
}

fn put_new(words: &mut [u64; 32], version: IoApicVersion, base: u64, size: u64)
    ensures { words.new ≡ new_words (version_number version) base size }
{
    let number = version.number();
    *words = [
        0x1_0000, 0x1_0000, 0x1_0000, 0x1_0000, 0x1_0000, 0x1_0000, 0x1_0000, 0x1_0000, 0x1_0000,
        0x1_0000, 0x1_0000, 0x1_0000, 0x1_0000, 0x1_0000, 0x1_0000, 0x1_0000, 0x1_0000, 0x1_0000,
        0x1_0000, 0x1_0000, 0x1_0000, 0x1_0000, 0x1_0000, 0x1_0000, 0, 0, 0, base, size, number, 0,
        0,
    ];
}

// Create a new IO APIC, of either version: its range alone can be refused.
// Stays: the C interface has base and size beside one another, as the Rust's `new` has them.
pub fn new_version(
    words: &mut [u64; 32],
    base: u64,
    size: u64,
    version: IoApicVersion,
) -> Result<(), Refusal>
    ensures { Makes words.old words.new (new_reply result) (created_version (view words.old) base size version) (new_words (version_number version) base size) }
{
    if !fits(base, size) {
        return Err(Refusal::InvalidAddress);
    }
    put_new(words, version, base, size);
    Ok(())
}

// Of version 0x20; the Rust's is 0x11 (`new_version`).
pub fn new(words: &mut [u64; 32], base: u64, size: u64) -> Result<(), Refusal>
    ensures { Makes words.old words.new (new_reply result) (created_version (view words.old) base size V20) (new_words 0x20 base size) }
{
    new_version(words, base, size, IoApicVersion::V20)
}

// Create an IO APIC at the default PC-compatible GPA.
pub fn new_default(words: &mut [u64; 32]) -> Result<(), Refusal>
    ensures { Makes words.old words.new (new_reply result) (created_version (view words.old) 0xfec00000 0x1000 V20) (new_words 0x20 0xfec00000 0x1000) }
{
    new(words, IOAPIC_BASE, IOAPIC_SIZE)
}

// The same of either version.
pub fn new_default_version(words: &mut [u64; 32], version: IoApicVersion) -> Result<(), Refusal>
    ensures { Makes words.old words.new (new_reply result) (created_version (view words.old) 0xfec00000 0x1000 version) (new_words (version_number version) 0xfec00000 0x1000) }
{
    new_version(words, IOAPIC_BASE, IOAPIC_SIZE, version)
}

// ---- What the registers say

// IOAPICVER.
// Stays: what may not change (`version_word`: of a lent word, which may be the number of no version).
fn version_word(version: u64) -> u64
    ensures { result ≡ version_word version }
{
    if version == VERSION_20 {
        return IOAPIC_VERSION_20_VALUE;
    }
    IOAPIC_VERSION_VALUE
}

// The registers that can't be written.
// Stays: what may not change (`read_fixed`: the version as it is lent, and any number as the selector).
#[tactic(auto, unfolding(crate::specs::Registers::read_fixed))]
fn read_fixed(version: u64, selector: u32) -> u64
    ensures { result ≡ read_fixed version selector }
{
    match selector {
        IOAPIC_ID | IOAPIC_ARB => IOAPIC_ID_VALUE,
        IOAPIC_VER => version_word(version),
        _ => 0,
    }
}

// The vector that an entry's register gives its line.
fn vector_of_entry(word: u64) -> Option<Vector>
    ensures { result ≡ vector_of_entry word }
{
    if vioapic_entry::is_fit(word) {
        return Some(vioapic_entry::vector_of(word));
    }
    None
}

fn is_entry_word(selector: u32) -> bool
    ensures { result ≡ is_entry_word selector }
{
    IOREDTBL_BASE <= selector && selector <= IOREDTBL_LAST
}

// Which entry the selector names: always one of the table's, so that the Rust's `InvalidInput` can't occur.
fn entry_of(selector: u32) -> Place
    requires { is_entry_word selector ≡ true }
    ensures { result.index ≡ entry_of selector }
{
    Place {
        index: ((selector - IOREDTBL_BASE) / 2) as usize,
    }
}

fn is_low(selector: u32) -> bool
    ensures { result ≡ is_low selector }
{
    selector % 2 == 0
}

fn good_width(width: u64) -> bool
    ensures { result ≡ good_width width }
{
    matches!(width, 4 | 8)
}

// base + size is at most 2^64 - 1.
fn fits(base: u64, size: u64) -> bool
    ensures { result ≡ fits base size }
{
    size <= 0xffff_ffff_ffff_ffff - base
}

// ---- The same by value

// A minimal emulated x86 IO APIC.
#[derive(Clone, Copy, Debug, PartialEq, Eq, Hash)]
pub struct EmulatedIoApic {
    pub words: [u64; 32],
}

impl EmulatedIoApic {
    // Create a new `EmulatedIoApic`, of version 0x20. Where base and size don't fit, nothing is created: beside the refusal stands
    // a chip that covers no address.
    pub fn new(base: u64, size: u64) -> (Self, Result<(), Refusal>)
        ensures { Makes (new_words 0x20 0 0) result.0.words (new_reply result.1) (created_version (chip_at 0 0) base size V20) (new_words 0x20 base size) }
    {
        EmulatedIoApic::new_version(base, size, IoApicVersion::V20)
    }

    // The same of either version.
    pub fn new_version(base: u64, size: u64, version: IoApicVersion) -> (Self, Result<(), Refusal>)
        ensures { Makes (new_words 0x20 0 0) result.0.words (new_reply result.1) (created_version (chip_at 0 0) base size version) (new_words (version_number version) base size) }
    {
        let mut words = [0; 32];
        put_new(&mut words, IoApicVersion::V20, 0, 0);
        let answer = new_version(&mut words, base, size, version);
        (EmulatedIoApic { words }, answer)
    }

    // Create an IO APIC at the default PC-compatible GPA.
    pub fn new_default() -> Self
        ensures { (view result.words ≡ new_default) × (result.words ≡ new_words 0x20 0xfec00000 0x1000) }
    {
        let mut words = [0; 32];
        put_new(&mut words, IoApicVersion::V20, IOAPIC_BASE, IOAPIC_SIZE);
        EmulatedIoApic { words }
    }

    // The same of either version.
    pub fn new_default_version(version: IoApicVersion) -> Self
        ensures { (view result.words ≡ chip_of (version_number version) 0xfec00000 0x1000) × (result.words ≡ new_words (version_number version) 0xfec00000 0x1000) }
    {
        let mut words = [0; 32];
        put_new(&mut words, version, IOAPIC_BASE, IOAPIC_SIZE);
        EmulatedIoApic { words }
    }

    // Return the guest interrupt vector programmed for a GSI.
    pub fn vector_for_gsi(self, gsi: Gsi) -> Option<Vector>
        ensures { gsi_vector_reply result ≡ vector_for_gsi (view self.words) gsi }
    {
        vector_for_gsi(&self.words, gsi)
    }

    // Assert an IO APIC input line and return the interrupt to inject.
    pub fn assert_gsi(mut self, gsi: Gsi) -> (Self, Option<IoApicInterrupt>)
        ensures { Leaves self.words result.0.words (routed_reply result.1) (assert_gsi (view self.words) gsi) }
    {
        let answer = assert_gsi(&mut self.words, gsi);
        (self, answer)
    }

    // Updates one IO APIC input line and returns a newly routable interrupt.
    pub fn set_gsi_level(mut self, gsi: Gsi, asserted: bool) -> (Self, Option<IoApicInterrupt>)
        ensures { Leaves self.words result.0.words (routed_reply result.1) (set_gsi_level (view self.words) gsi asserted) }
    {
        let answer = set_gsi_level(&mut self.words, gsi, asserted);
        (self, answer)
    }

    // Process an EOI broadcast from the local APIC.
    pub fn end_of_interrupt(mut self, vector: Vector) -> (Self, Option<Eoi>)
        ensures { Leaves self.words result.0.words (eoi_reply result.1) (end_of_interrupt (view self.words) vector) }
    {
        let answer = end_of_interrupt(&mut self.words, vector);
        (self, answer)
    }

    // Returns the IO APIC MMIO range.
    pub fn address_range(self) -> Result<AddressRange, Refusal>
        ensures { range_reply result ≡ address_range (view self.words) }
    {
        address_range(&self.words)
    }

    // Handles an IO APIC MMIO read.
    pub fn handle_read(self, addr: u64, width: u64) -> Result<u64, Refusal>
        ensures { read_reply result ≡ handle_read (view self.words) addr width }
    {
        handle_read(&self.words, addr, width)
    }

    // Handles an IO APIC MMIO write.
    pub fn handle_write(
        mut self,
        addr: u64,
        width: u64,
        val: u64,
    ) -> (Self, Result<Written, Refusal>)
        ensures { Wrote self.words result.0.words result.1 (handle_writing (view self.words) addr width val) }
    {
        let answer = handle_write(&mut self.words, addr, width, val);
        (self, answer)
    }
}
