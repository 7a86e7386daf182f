// What C and Rust link: each call is that of vlapic_words over the words that the caller lends (include/sillwander.h
// has their layout), its reply as a code.

#![tactic(auto)]

ghost use Rattle.std.specs.Prelude.{◌≡◌};
ghost use Rattle.reply_code.specs.Lent.{reply_code, is_up};
ghost use Rattle.vlapic.specs.Answers.{write_reply};
ghost use Rattle.vlapic.specs.Priority.{handle_eoi};
ghost use Rattle.vlapic.specs.Registers.{handle_read};
ghost use Rattle.vlapic.specs.Calls.{setup};
ghost use Rattle.vlapic_words.specs.Words.{view};
ghost use Rattle.vlapic_words.specs.Calls.{IsNew};
ghost use Rattle.vlapic_c.specs.Calls.{Lent, accepting, sent_code, sent_mask, LentSent, writing, writing_refused};

use reply_code::{code, is_up};
use types::{Refusal, Reply, ToReply, VcpuId, Vector};
use vlapic_icr::Ipi;

#[unsafe(no_mangle)]
pub extern "C" fn sillwander_lapic_new(words: &mut [u64; 48]) -> u64
    ensures { IsNew words.new × (result ≡ 0) }
{
    vlapic_words::new(&mut *words);
    0
}

#[unsafe(no_mangle)]
pub extern "C" fn sillwander_lapic_setup(
    words: &mut [u64; 48],
    x2apic: u64,
    vcpu_id: usize,
    vcpu_num: usize,
) -> u64
    ensures { Lent words.old words.old words.new result (setup (view words.old) (is_up x2apic) (record { 0 = vcpu_id }) vcpu_num) }
{
    code(vlapic_words::setup(&mut *words, is_up(x2apic), VcpuId(vcpu_id), vcpu_num).reply())
}

#[unsafe(no_mangle)]
pub extern "C" fn sillwander_lapic_accept_interrupt(
    words: &mut [u64; 48],
    vector: u64,
    level_triggered: u64,
) -> u64
    ensures { Lent words.old words.old words.new result (accepting (view words.old) vector level_triggered) }
{
    if vector > 255 {
        return code(Reply::Refused(Refusal::OutOfRange));
    }
    vlapic_words::accept_interrupt(&mut *words, Vector(vector as u8), is_up(level_triggered));
    0
}

#[unsafe(no_mangle)]
pub extern "C" fn sillwander_lapic_handle_eoi(words: &mut [u64; 48]) -> u64
    ensures { Lent words.old words.old words.new result (handle_eoi (view words.old)) }
{
    code(vlapic_words::handle_eoi(&mut *words).reply())
}

#[unsafe(no_mangle)]
pub extern "C" fn sillwander_lapic_handle_read(words: &[u64; 48], offset: u64) -> u64
    ensures { result ≡ reply_code (handle_read (view words.now) offset) }
{
    code(vlapic_words::handle_read(words, offset).reply())
}

// A write's answer as a code; of an IPI the mask goes to `ipi`.
fn sent(answer: Result<Option<Ipi>, Refusal>, ipi: &mut [u64; 1]) -> u64
    ensures { (result ≡ sent_code (write_reply answer)) × (ipi.new ≡ sent_mask ipi.old (write_reply answer)) }
{
    match answer {
        Ok(None) => 0,
        Ok(Some(sent)) => {
            ipi[0] = sent.mask;
            code(Reply::Two(u64::from(u8::from(sent.kind)), u64::from(sent.vector.0)))
        }
        Err(why) => code(Reply::Refused(why)),
    }
}

#[unsafe(no_mangle)]
pub extern "C" fn sillwander_lapic_handle_write(
    words: &mut [u64; 48],
    offset: u64,
    value: u64,
    width: u64,
    vcpu_num: usize,
    active_vcpus: u64,
    ipi: &mut [u64; 1],
) -> u64
    ensures { LentSent words.old (writing_refused words.old offset value width vcpu_num) words.new ipi.old ipi.new result (writing (view words.old) offset value width vcpu_num active_vcpus) }
{
    if width > 255 {
        return code(Reply::Refused(Refusal::InvalidRegister));
    }
    sent(
        vlapic_words::handle_write(
            &mut *words,
            offset,
            value,
            width as u8,
            vcpu_num,
            active_vcpus,
        ),
        &mut *ipi,
    )
}
