// Copyright 2025 The Axvisor Team
//
// Licensed under the Apache License, Version 2.0 (the text stands in LICENSE).
//
// Changed: ported to Rattle from consts.rs of the Rust crate x86_vlapic 0.5.4. The enum `ApicRegOffset`, whose decoder
// panics at an offset that has no register, became the offsets themselves, of the registers that document 01 lists for
// reading or writing, under the enum's names.

pub const ID: u64 = 0x20;

pub const TPR: u64 = 0x80;

pub const PPR: u64 = 0xa0;

pub const EOI: u64 = 0xb0;

pub const LDR: u64 = 0xd0;

pub const DFR: u64 = 0xe0;

pub const SIVR: u64 = 0xf0;

// Each the first of eight words, 0x10 apart.
pub const ISR: u64 = 0x100;

pub const TMR: u64 = 0x180;

pub const ESR: u64 = 0x280;

pub const LVT_CMCI: u64 = 0x2f0;

pub const ICR_LOW: u64 = 0x300;

pub const ICR_HI: u64 = 0x310;

pub const LVT_TIMER: u64 = 0x320;

pub const LVT_THERMAL: u64 = 0x330;

pub const LVT_PMC: u64 = 0x340;

pub const LVT_LINT0: u64 = 0x350;

pub const LVT_LINT1: u64 = 0x360;

pub const LVT_ERR: u64 = 0x370;

pub const SELF_IPI: u64 = 0x3f0;

pub const RESET_LVT_REG: u32 = 0x10000;

pub const RESET_SPURIOUS_INTERRUPT_VECTOR: u32 = 0xff;
