// The boundary of the I/O APIC: each call is the chip's own over 32 words that a caller in C or Rust lends (include/sillwander.h has
// their layout), its reply as a code.

#![tactic(auto)]

ghost use Rattle.std.specs.Prelude.{◌≡◌};
ghost use Rattle.reply_code.specs.Lent.{reply_code, is_up, lent};
ghost use Rattle.vioapic.specs.declared.IoApicVersion.TheVariants.{V20};
ghost use Rattle.vioapic.specs.State.{view, new_words};
ghost use Rattle.vioapic.specs.IoApic.{created_version, vector_for_gsi, assert_gsi, set_gsi_level, handle_read, handle_write};
ghost use Rattle.vioapic_c.specs.Calls.{Coded, Made, new_number, end_number, range_words};

use reply_code::{code, is_up};
use types::{Gsi, Refusal, Reply, ToReply, Vector};
use vioapic::{IOAPIC_BASE, IOAPIC_SIZE, IoApicVersion};

// Stays: the C interface: a version comes as its number.
#[unsafe(no_mangle)]
pub extern "C" fn sillwander_ioapic_new_version(
    words: &mut [u64; 32],
    base: u64,
    size: u64,
    version: u64,
) -> u64
    ensures { Made words.old words.new result (new_number (view words.old) base size version) (new_words version base size) }
{
    match IoApicVersion::try_from(version) {
        Ok(version) => code(vioapic::new_version(words, base, size, version).reply()),
        Err(why) => code(Reply::Refused(why)),
    }
}

#[unsafe(no_mangle)]
pub extern "C" fn sillwander_ioapic_new(words: &mut [u64; 32], base: u64, size: u64) -> u64
    ensures { Made words.old words.new result (created_version (view words.old) base size V20) (new_words 0x20 base size) }
{
    code(vioapic::new(words, base, size).reply())
}

#[unsafe(no_mangle)]
pub extern "C" fn sillwander_ioapic_new_default(words: &mut [u64; 32]) -> u64
    ensures { Made words.old words.new result (created_version (view words.old) 0xfec00000 0x1000 V20) (new_words 0x20 0xfec00000 0x1000) }
{
    code(vioapic::new_default(words).reply())
}

// Stays: the C interface: a version comes as its number.
#[unsafe(no_mangle)]
pub extern "C" fn sillwander_ioapic_new_default_version(words: &mut [u64; 32], version: u64) -> u64
    ensures { Made words.old words.new result (new_number (view words.old) 0xfec00000 0x1000 version) (new_words version 0xfec00000 0x1000) }
{
    sillwander_ioapic_new_version(words, IOAPIC_BASE, IOAPIC_SIZE, version)
}

#[unsafe(no_mangle)]
pub extern "C" fn sillwander_ioapic_vector_for_gsi(words: &[u64; 32], gsi: usize) -> u64
    ensures { result ≡ reply_code (vector_for_gsi (view words.now) (record { 0 = gsi })) }
{
    code(vioapic::vector_for_gsi(words, Gsi(gsi)).reply())
}

#[unsafe(no_mangle)]
pub extern "C" fn sillwander_ioapic_assert_gsi(words: &mut [u64; 32], gsi: usize) -> u64
    ensures { Coded words.old words.new result (assert_gsi (view words.old) (record { 0 = gsi })) }
{
    code(vioapic::assert_gsi(words, Gsi(gsi)).reply())
}

#[unsafe(no_mangle)]
pub extern "C" fn sillwander_ioapic_set_gsi_level(
    words: &mut [u64; 32],
    gsi: usize,
    asserted: u64,
) -> u64
    ensures { Coded words.old words.new result (set_gsi_level (view words.old) (record { 0 = gsi }) (is_up asserted)) }
{
    code(vioapic::set_gsi_level(words, Gsi(gsi), is_up(asserted)).reply())
}

#[unsafe(no_mangle)]
pub extern "C" fn sillwander_ioapic_end_of_interrupt(words: &mut [u64; 32], vector: u64) -> u64
    ensures { Coded words.old words.new result (end_number (view words.old) vector) }
{
    if 256 <= vector {
        return code(Reply::Refused(Refusal::OutOfRange));
    }
    code(vioapic::end_of_interrupt(words, Vector(vector as u8)).reply())
}

#[unsafe(no_mangle)]
pub extern "C" fn sillwander_ioapic_address_range(words: &[u64; 32], range: &mut [u64; 2]) -> u64
    ensures { lent range.new result ≡ range_words words.now range.old }
{
    match vioapic::address_range(words) {
        Ok(between) => {
            *range = [between.start, between.end];
            code(Reply::Nothing)
        }
        Err(refusal) => code(Reply::Refused(refusal)),
    }
}

#[unsafe(no_mangle)]
pub extern "C" fn sillwander_ioapic_handle_read(words: &[u64; 32], addr: u64, width: u64) -> u64
    ensures { result ≡ reply_code (handle_read (view words.now) addr width) }
{
    code(vioapic::handle_read(words, addr, width).reply())
}

#[unsafe(no_mangle)]
pub extern "C" fn sillwander_ioapic_handle_write(
    words: &mut [u64; 32],
    addr: u64,
    width: u64,
    value: u64,
) -> u64
    ensures { Coded words.old words.new result (handle_write (view words.old) addr width value) }
{
    code(vioapic::handle_write(words, addr, width, value).reply())
}
