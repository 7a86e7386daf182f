// Copyright 2025 The Axvisor Team
//
// Licensed under the Apache License, Version 2.0 (the text stands in LICENSE).
//
// Changed: ported to Rattle from regs/icr.rs of the Rust crate x86_vlapic 0.5.4: the fields of the interrupt command's
// low word, which the Rust declares for tock_registers, as functions of the word, the tests that `write_icr` makes of
// them, and by which width the words are written.

ghost use Rattle.std.specs.Prelude.{◌≡◌};
ghost use Rattle.vlapic_icr.specs.Fields.{vector_field, delivery_mode, is_logical, shorthand, idle, icr_width, icr_high, destination_field, all_ones, is_reserved_mode, is_illegal_vector, includes_self, is_invalid_shorthand, is_unsent};
ghost use Rattle.vlapic_icr.specs.Kinds.{mode_number, shorthand_number};

use types::Vector;

const XAPIC_BROADCAST_DEST_ID: u32 = 0xff;

const X2APIC_BROADCAST_DEST_ID: u32 = 0xffffffff;

// What an interrupt command sends: bits 10 to 8 of its low word. Two of the eight are reserved.
#[derive(Clone, Copy, Debug, PartialEq, Eq, Hash)]
pub enum DeliveryMode {
    Fixed,
    LowestPriority,
    Smi,
    Reserved3,
    Nmi,
    Init,
    StartUp,
    Reserved7,
}

impl From<DeliveryMode> for u8 {
    ghost from_gives = { λ mode n. n ≡ mode_number mode };

    fn from(mode: DeliveryMode) -> u8 {
        match mode {
            DeliveryMode::Fixed => 0,
            DeliveryMode::LowestPriority => 1,
            DeliveryMode::Smi => 2,
            DeliveryMode::Reserved3 => 3,
            DeliveryMode::Nmi => 4,
            DeliveryMode::Init => 5,
            DeliveryMode::StartUp => 6,
            DeliveryMode::Reserved7 => 7,
        }
    }
}

// A destination that an interrupt command names by its kind: bits 19 and 18 of its low word.
#[derive(Clone, Copy, Debug, PartialEq, Eq, Hash)]
pub enum DestinationShorthand {
    NoShorthand,
    OnlySelf,
    AllIncludingSelf,
    AllExcludingSelf,
}

// Stays: what may not change (tests/mixups: no `From` makes a counter of a number).
pub fn vector(lo: u32) -> Vector
    ensures { result.0 ≡ vector_field lo }
{
    Vector((lo % 256) as u8)
}

pub fn delivery_mode(lo: u32) -> DeliveryMode
    ensures { mode_number result ≡ delivery_mode lo }
{
    match lo / 256 % 8 {
        0 => DeliveryMode::Fixed,
        1 => DeliveryMode::LowestPriority,
        2 => DeliveryMode::Smi,
        3 => DeliveryMode::Reserved3,
        4 => DeliveryMode::Nmi,
        5 => DeliveryMode::Init,
        6 => DeliveryMode::StartUp,
        _ => DeliveryMode::Reserved7,
    }
}

pub fn is_logical(lo: u32) -> bool
    ensures { result ≡ is_logical lo }
{
    lo / 2048 % 2 == 1
}

pub fn shorthand(lo: u32) -> DestinationShorthand
    ensures { shorthand_number result ≡ shorthand lo }
{
    match lo / 262144 % 4 {
        0 => DestinationShorthand::NoShorthand,
        1 => DestinationShorthand::OnlySelf,
        2 => DestinationShorthand::AllIncludingSelf,
        _ => DestinationShorthand::AllExcludingSelf,
    }
}

// The delivery status, bit 12, cleared.
pub fn idle(lo: u32) -> u32
    ensures { result ≡ idle lo }
{
    lo / 8192 * 8192 + lo % 4096
}

// The ICR is written whole, by 8 bytes, in x2APIC mode, and never by 8 bytes in xAPIC mode.
pub fn is_icr_width(x2apic: bool, width: u64) -> bool
    ensures { result ≡ icr_width x2apic width }
{
    x2apic == (width == 8)
}

// The ICR's high word after that: the value's in x2APIC mode, else the one that stands there.
pub fn icr_high(x2apic: bool, val: u64, icr_hi: u32) -> u32
    ensures { result ≡ icr_high x2apic val icr_hi }
{
    if x2apic {
        (val / 0x100000000) as u32
    } else {
        icr_hi
    }
}

// The destination that stands in the high word: the top byte in xAPIC mode, the whole word in x2APIC mode.
pub fn destination(x2apic: bool, icr_hi: u32) -> u32
    ensures { result ≡ destination_field x2apic icr_hi }
{
    if x2apic { icr_hi } else { icr_hi / 0x1000000 }
}

// Whether that is all ones: every vCPU, in either destination mode.
pub fn is_broadcast(x2apic: bool, icr_hi: u32) -> bool
    ensures { result ≡ all_ones x2apic icr_hi }
{
    let everybody = if x2apic {
        X2APIC_BROADCAST_DEST_ID
    } else {
        XAPIC_BROADCAST_DEST_ID
    };
    destination(x2apic, icr_hi) == everybody
}

pub fn is_reserved_mode(lo: u32) -> bool
    ensures { result ≡ is_reserved_mode lo }
{
    let mode = delivery_mode(lo);
    mode == DeliveryMode::Reserved3 || mode == DeliveryMode::Reserved7
}

// A fixed interrupt with a vector below 16.
pub fn is_illegal_vector(lo: u32) -> bool
    ensures { result ≡ is_illegal_vector lo }
{
    delivery_mode(lo) == DeliveryMode::Fixed && vector(lo).0 < 16
}

// NMI, INIT or startup to self or to all including self.
pub fn is_invalid_shorthand(lo: u32) -> bool
    ensures { result ≡ is_invalid_shorthand lo }
{
    includes_self(lo)
        && matches!(
            delivery_mode(lo),
            DeliveryMode::Nmi | DeliveryMode::Init | DeliveryMode::StartUp
        )
}

fn includes_self(lo: u32) -> bool
    ensures { result ≡ includes_self lo }
{
    matches!(
        shorthand(lo),
        DestinationShorthand::OnlySelf | DestinationShorthand::AllIncludingSelf
    )
}

// Lowest priority and SMI.
pub fn is_unsent(lo: u32) -> bool
    ensures { result ≡ is_unsent lo }
{
    matches!(
        delivery_mode(lo),
        DeliveryMode::LowestPriority | DeliveryMode::Smi
    )
}
