// Copyright 2026 The Axvisor Team
//
// Licensed under the Apache License, Version 2.0 (the text stands in LICENSE).
//
// Changed: ported to Rattle from types.rs of the Rust crate x86_vlapic 0.5.4. Of that file's types, those of numbers that a call takes or
// answers are here; `X86InterruptVector` and `X86VcpuId` became structs of their own beside `Gsi` and `PicLine`, which the Rust has as plain
// numbers, so that one can't be passed for another; `X86VlapicError` became `Refusal`, with document 01's numbers; `Reply` was added.

#![tactic(auto)]

ghost use Rattle.std.specs.Prelude.{◌≡◌, ◌<◌, ◌↔◌, IsSome, IfSome};
ghost use Rattle.utils.specs.Set.{without};
ghost use Rattle.types.specs.Counters.{entry_index, place_of, line_vector, line_of, vcpu_mask, apic_id, vcpu_of};
ghost use Rattle.types.specs.Reply.{refusal_number, reply_number, flag, done_reply, number_reply, pair_reply, vector_reply, option_reply, result_reply};
ghost use Rattle.types.specs.declared.Reply.{Reply};

use utils::Set;

// A global system interrupt: an input of the I/O APIC.
#[derive(Clone, Copy, Debug, PartialEq, Eq, PartialOrd, Ord, Hash)]
pub struct Gsi(pub usize);

// A line of an 8259 chip, 0 to 7, or of the pair, 0 to 15.
#[derive(Clone, Copy, Debug, PartialEq, Eq, PartialOrd, Ord, Hash)]
pub struct PicLine(pub u8);

// An interrupt vector.
#[derive(Clone, Copy, Debug, PartialEq, Eq, PartialOrd, Ord, Hash)]
pub struct Vector(pub u8);

// A virtual processor's number.
#[derive(Clone, Copy, Debug, PartialEq, Eq, PartialOrd, Ord, Hash)]
pub struct VcpuId(pub usize);

// Which chip of the pair a line belongs to, and the line's number there.
#[derive(Clone, Copy, Debug, PartialEq, Eq, Hash)]
pub enum PicPlace {
    Master(PicLine),
    Slave(PicLine),
}

// An entry of the I/O APIC's redirection table, which has 24.
#[derive(Clone, Copy, Debug, PartialEq, Eq, PartialOrd, Ord, Hash)]
pub struct Place {
    pub index: usize,
    ghost in_table: { index < 24 },
}

impl Gsi {
    // The redirection entry, or 24 where the table has none.
    // Stays: what may not change: a public function with its clause, `entry_index`, which has 24; `place` answers an Option.
    pub fn entry_index(self) -> usize
        ensures { result ≡ entry_index self }
    {
        if self.0 < 24 { self.0 } else { 24 }
    }

    // The redirection entry, which has the GSI's number; none for a GSI from 24 up.
    pub fn place(self) -> Option<Place>
        ensures found { IsSome result ↔ (self.0 < 24) }
        ensures value { IfSome result (λ place. place.index ≡ self.0) }
    {
        if self.0 < 24 {
            return Some(Place { index: self.0 });
        }
        None
    }
}

impl PicLine {
    // The line of a number as C has them: any number from 16 up is line 16, which the pair hasn't.
    // Stays: the C interface: a line comes in as any number, and is never refused here.
    pub fn of_number(irq: u64) -> PicLine
        ensures { result ≡ line_of irq }
    {
        if irq < 16 {
            PicLine(irq as u8)
        } else {
            PicLine(16)
        }
    }

    // Where the line stands; none for a line from 16 up, which the pair hasn't.
    pub fn place(self) -> Option<PicPlace>
        ensures { result ≡ place_of self }
    {
        if self.0 < 8 {
            return Some(PicPlace::Master(self));
        }
        if self.0 < 16 {
            return Some(PicPlace::Slave(PicLine(self.0 - 8)));
        }
        None
    }

    // The vector that a chip with this base gives the line.
    // Stays: the new form is no plainer: no conversion, but a sum that wraps, with a base.
    pub fn vector(self, base: u8) -> Vector
        ensures { result ≡ line_vector base self }
    {
        Vector(std::num::wrapping_add_u8(base, self.0))
    }
}

impl VcpuId {
    // The set of this vCPU alone, empty from 64 up.
    pub fn mask(self) -> u64
        ensures { result ≡ vcpu_mask self }
    {
        if self.0 < 64 { 1 << self.0 } else { 0 }
    }

    // A set of vCPUs without this one.
    pub fn removed_from(self, set: u64) -> u64
        ensures { result ≡ without set self.0 }
    {
        if self.0 < 64 {
            return set.without(self.0 as u32);
        }
        set
    }

    // The id of its local APIC: the same number, in 32 bits.
    // Stays: the new form is no plainer: a `From` would make one counter of another (tests/mixups).
    pub fn apic_id(self) -> u32
        ensures { result ≡ apic_id self }
    {
        (self.0 % 0x1_0000_0000) as u32
    }

    // The vCPU whose local APIC has this id.
    pub fn of_apic(apic_id: u32) -> VcpuId
        ensures { result ≡ vcpu_of apic_id }
    {
        VcpuId(apic_id as usize)
    }
}

// Why a call is refused.
#[derive(Clone, Copy, Debug, PartialEq, Eq, Hash)]
pub enum Refusal {
    // Width, or PIC port: the Rust's `Unsupported`.
    Unsupported,
    // Local register not listed for that use, or written in the wrong mode or width, the Rust's `InvalidInput`; a line's lowest vector above its highest.
    InvalidRegister,
    // An interrupt command's delivery mode, or the destination format's model.
    InvalidDelivery,
    // An address below the I/O APIC, or an I/O APIC that doesn't fit below 2^64.
    InvalidAddress,
    // A destination, vCPU count or id, or PIC line that is too large; more than 24 lines to plan.
    OutOfRange,
    // A script's field.
    BadField,
    // A script.
    ScriptTooLong,
    // Lines that can't each have a vector of their own.
    NoPlan,
    // A vCPU's waiting list with no place left.
    ListFull,
    // An image that no state writes that keeps its chips' rules.
    BadImage,
    // A lent buffer with fewer bytes than what goes into it.
    TooShort,
}

impl From<Refusal> for u8 {
    ghost from_gives = { λ why n. n ≡ refusal_number why };

    fn from(why: Refusal) -> u8 {
        match why {
            Refusal::Unsupported => 1,
            Refusal::InvalidRegister => 2,
            Refusal::InvalidDelivery => 3,
            Refusal::InvalidAddress => 4,
            Refusal::OutOfRange => 5,
            Refusal::BadField => 6,
            Refusal::ScriptTooLong => 7,
            Refusal::NoPlan => 8,
            Refusal::ListFull => 9,
            Refusal::BadImage => 10,
            Refusal::TooShort => 11,
        }
    }
}

impl Refusal {
    // As `u8::from`.
    // Stays: what may not change: a public function with its clause; `reply_code` and `reply_text` call it.
    pub fn number(self) -> u8
        ensures { result ≡ refusal_number self }
    {
        u8::from(self)
    }
}

// What any call says back: refused, or done with up to three values.
#[derive(Clone, Copy, Debug, PartialEq, Eq, Hash)]
pub enum Reply {
    Refused(Refusal),
    Nothing,
    One(u64),
    Two(u64, u64),
    Three(u64, u64, u64),
}

impl Reply {
    // 0 for a call that is done, or the refusal's number.
    // Stays: the new form is no plainer: it leaves the values out, which a From would hide.
    pub fn number(self) -> u8
        ensures { result ≡ reply_number self }
    {
        match self {
            Reply::Refused(why) => why.number(),
            Reply::Nothing | Reply::One(_) | Reply::Two(_, _) | Reply::Three(_, _, _) => 0,
        }
    }
}

// A flag as a value of a reply.
// Stays: what may not change: a public function with its clause; `planner_c` calls it.
pub fn flag(up: bool) -> u64
    ensures { result ≡ flag up }
{
    u64::from(up)
}

// What a call answers, as a reply: a call that can be refused answers a `Result` with a `Refusal`, and one that may have nothing to say an `Option`.
pub trait ToReply {
    ghost reply_of: { Self → Reply };

    fn reply(self) -> Reply
        ensures { result ≡ reply_of self };
}

impl ToReply for () {
    ghost reply_of = { done_reply };

    fn reply(self) -> Reply {
        Reply::Nothing
    }
}

impl ToReply for u64 {
    ghost reply_of = { number_reply };

    fn reply(self) -> Reply {
        Reply::One(self)
    }
}

impl ToReply for u32 {
    ghost reply_of = { number_reply };

    fn reply(self) -> Reply {
        // Stays: the new form is no plainer: a trait of widths for two lines.
        u64::from(self).reply()
    }
}

impl ToReply for u8 {
    ghost reply_of = { number_reply };

    fn reply(self) -> Reply {
        u32::from(self).reply()
    }
}

impl ToReply for (u64, u64) {
    ghost reply_of = { pair_reply };

    fn reply(self) -> Reply {
        Reply::Two(self.0, self.1)
    }
}

impl ToReply for Vector {
    ghost reply_of = { vector_reply };

    fn reply(self) -> Reply {
        self.0.reply()
    }
}

impl<A: ToReply> ToReply for Option<A> {
    ghost reply_of = { option_reply A.reply_of };

    fn reply(self) -> Reply {
        match self {
            Some(answer) => answer.reply(),
            None => Reply::Nothing,
        }
    }
}

impl<A: ToReply> ToReply for Result<A, Refusal> {
    ghost reply_of = { result_reply A.reply_of };

    fn reply(self) -> Reply {
        match self {
            Ok(answer) => answer.reply(),
            Err(why) => Reply::Refused(why),
        }
    }
}
