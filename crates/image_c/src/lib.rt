// What C and Rust link: a board's and a pair's words as an image in lent bytes, and back (include/sillwander.h has the
// layouts), each reply as a code.

#![tactic(auto)]

ghost use Rattle.std.specs.Prelude.{◌≡◌};
ghost use Rattle.image.specs.Save.{saved};
ghost use Rattle.image.specs.Restore.{chips, restored};
ghost use Rattle.image_c.specs.Calls.{shown, coded};

use reply_code::code;
use types::ToReply;

#[unsafe(no_mangle)]
pub extern "C" fn sillwander_image_save(
    ioapic: &[u64; 32],
    apic: &[u64; 48],
    pic: &[u64; 4],
    bytes: &mut [u8],
) -> u64
    ensures { shown bytes.new result ≡ coded (saved ioapic.now apic.now pic.now bytes.old) }
{
    code(image::save(ioapic, apic, pic, bytes).reply())
}

#[unsafe(no_mangle)]
pub extern "C" fn sillwander_image_restore(
    bytes: &[u8],
    ioapic: &mut [u64; 32],
    apic: &mut [u64; 48],
    pic: &mut [u64; 4],
) -> u64
    ensures { shown (chips ioapic.new apic.new pic.new) result ≡ coded (restored bytes.now (chips ioapic.old apic.old pic.old)) }
{
    code(image::restore(bytes, ioapic, apic, pic).reply())
}
