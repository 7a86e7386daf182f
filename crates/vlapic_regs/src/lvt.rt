// Copyright 2025 The Axvisor Team
//
// Licensed under the Apache License, Version 2.0 (the text stands in LICENSE).
//
// Changed: ported to Rattle from `write_lvt` of vlapic.rs of the Rust crate x86_vlapic 0.5.4: the mask of each entry,
// by the fields that it has, as a function of the value.

ghost use Rattle.std.specs.Prelude.{◌≡◌, ◌<◌, ◌≤◌, ◌+◌, ◌*◌, ◌/◌, ◌%◌};
ghost use Rattle.vlapic_regs.specs.Lvt.{lvt_timer, lvt_error, lvt_pin, lvt_monitor};

// What an entry keeps: the value below `low`, the delivery status, and of the bits from the mask on those below `high`.
fn kept(val: u32, low: u32, high: u32) -> u32
    requires low { (0 < low) × (low ≤ 0x1000) }
    requires high { (0 < high) × (high ≤ 8) }
    ensures { result ≡ val % low + val / 0x1000 % 2 * 0x1000 + val / 0x10000 % high * 0x10000 }
{
    val % low + val / 0x1000 % 2 * 0x1000 + val / 0x10000 % high * 0x10000
}

// Vector, delivery status, mask and timer mode.
// Stays: what may not change (`timer`, `error` and `monitor` are public; each is one call of `kept`).
pub fn timer(val: u32) -> u32
    ensures { result ≡ lvt_timer val }
{
    kept(val, 0x100, 8)
}

// Vector, delivery status and mask.
pub fn error(val: u32) -> u32
    ensures { result ≡ lvt_error val }
{
    kept(val, 0x100, 2)
}

// CMCI, performance counters, thermal sensor: vector, delivery mode, delivery status and mask.
pub fn monitor(val: u32) -> u32
    ensures { result ≡ lvt_monitor val }
{
    kept(val, 0x800, 2)
}

// LINT0 and LINT1: vector, delivery mode, and all from delivery status to mask.
pub fn pin(val: u32) -> u32
    ensures { result ≡ lvt_pin val }
{
    val % 0x800 + val / 0x1000 % 32 * 0x1000
}
