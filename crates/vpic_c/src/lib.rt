// The pair of 8259s over four words that the caller lends: what C and Rust link. `include/sillwander.h` has the layout and the codes.
//
// Each call is the core's over those words, and the code of its reply. Numbers come in at their full width, and none is cut.

#![tactic(auto)]

ghost use Rattle.std.specs.Prelude.{◌≡◌};
ghost use Rattle.vpic.specs.Words.{view};
ghost use Rattle.vpic.specs.declared.PicRule.TheVariants.{Cascade};
ghost use Rattle.vpic.specs.Pair.{claim_irq, claim_pending, with_claim, with_vector, handle_read, handle_write};
ghost use Rattle.reply_code.specs.Lent.{lent};
ghost use Rattle.vpic_c.specs.Calls.{shown, coded, made, new_rule, line, line_of, range_words, is_claim, claimed_line, claim_of, restore_code};

use reply_code::code;
use types::{PicLine, Reply, ToReply, Vector};
use vpic::{PicInterruptClaim, PicRule};

// A line: any number from 16 up is one that the pair hasn't.
// Stays: the C interface: a line comes in as any number (`line_of`).
fn line(irq: u64) -> PicLine
    ensures { result ≡ line_of irq }
{
    if irq < 16 {
        return PicLine(irq as u8);
    }
    PicLine(16)
}

// Whether a number is what a claim answers: three values, the vector below 256, the line below 16, the flags below 4. All in one comparison: no bit but theirs.
// Stays: the C interface: a claim comes in as the number that it was answered by (`Calls.is_claim`).
fn is_claim(claim: u64) -> bool
    ensures { result ≡ is_claim claim }
{
    claim / 0x4_0000_0000 * 0x4_0000_0000
        + claim / 0x10_0000 % 0x1000 * 0x10_0000
        + claim / 0x100 % 0x100 * 0x100
        == 0x3_0000_0000_0000
}

// The line of a claim's answer: any other number has one that the pair hasn't.
// Stays: the C interface: a claim comes in as the number that it was answered by (`claimed_line`).
fn claimed_line(claim: u64) -> PicLine
    ensures { result ≡ claimed_line claim }
{
    if !is_claim(claim) {
        return PicLine(16);
    }
    PicLine((claim / 0x1_0000 % 16) as u8)
}

// The claim that a number answers.
// Stays: the C interface: a claim comes in as the number that it was answered by (`Calls.claim_of`).
fn claim_of(claim: u64) -> PicInterruptClaim
    ensures { result ≡ claim_of claim }
{
    PicInterruptClaim {
        vector: Vector((claim % 0x100) as u8),
        irq: claimed_line(claim),
        master_in_service: claim / 0x1_0000_0000 % 2 == 1,
        slave_in_service: claim / 0x2_0000_0000 % 2 == 1,
    }
}

// A rule comes in as a number, and one that no rule has is refused here: the core's rule is an enum.
// Stays: the C interface: the rule is a number.
#[unsafe(no_mangle)]
pub extern "C" fn sillwander_pic_new_rule(words: &mut [u64; 4], rule: u64) -> u64
    ensures { shown (view words.new) result ≡ coded (new_rule (view words.old) rule) }
{
    match PicRule::try_from(rule) {
        Ok(rule) => {
            vpic::new_rule(words, rule);
            code(Reply::Nothing)
        }
        Err(why) => code(Reply::Refused(why)),
    }
}

#[unsafe(no_mangle)]
pub extern "C" fn sillwander_pic_new(words: &mut [u64; 4]) -> u64
    ensures { shown (view words.new) result ≡ coded (made Cascade) }
{
    vpic::new(words);
    code(Reply::Nothing)
}

#[unsafe(no_mangle)]
pub extern "C" fn sillwander_pic_port_ranges(ranges: &mut [u64; 4]) -> u64
    ensures { lent ranges.new result ≡ range_words ranges.old }
{
    let ports = vpic::port_ranges();
    ranges[0] = u64::from(ports.master.start);
    ranges[1] = u64::from(ports.master.end);
    ranges[2] = u64::from(ports.slave.start);
    ranges[3] = u64::from(ports.slave.end);
    code(Reply::Nothing)
}

#[unsafe(no_mangle)]
pub extern "C" fn sillwander_pic_claim_irq(words: &mut [u64; 4], irq: u64) -> u64
    ensures { shown (view words.new) result ≡ coded (with_claim (claim_irq (view words.old) (record { 0 = irq }))) }
{
    vpic::claim_irq_number(words, line(irq))
}

#[unsafe(no_mangle)]
pub extern "C" fn sillwander_pic_claim_pending_interrupt(words: &mut [u64; 4]) -> u64
    ensures { shown (view words.new) result ≡ coded (with_claim (claim_pending (view words.old))) }
{
    vpic::claim_pending_number(words)
}

#[unsafe(no_mangle)]
pub extern "C" fn sillwander_pic_pulse_irq(words: &mut [u64; 4], irq: u64) -> u64
    ensures { shown (view words.new) result ≡ coded (with_vector (claim_irq (view words.old) (record { 0 = irq }))) }
{
    code(vpic::pulse_irq(words, line(irq)).reply())
}

#[unsafe(no_mangle)]
pub extern "C" fn sillwander_pic_next_interrupt(words: &mut [u64; 4]) -> u64
    ensures { shown (view words.new) result ≡ coded (with_vector (claim_pending (view words.old))) }
{
    code(vpic::next_interrupt(words).reply())
}

// The claim is the code that a claim answered.
#[unsafe(no_mangle)]
pub extern "C" fn sillwander_pic_restore_interrupt(words: &mut [u64; 4], claim: u64) -> u64
    ensures { shown (view words.new) result ≡ coded (restore_code (view words.old) claim) }
{
    code(vpic::restore_interrupt(words, claim_of(claim)).reply())
}

// A read, of any kind.
// Stays: the C interface: words, port and width are parameters of the exported calls.
fn read(words: &mut [u64; 4], port: u64, width: u64) -> u64
    ensures { shown (view words.new) result ≡ coded (handle_read (view words.old) port width) }
{
    code(vpic::handle_read(words, port, width).reply())
}

// As mostly, and found at once: a byte that a register shows. The rest is a function of its own, called where this one ends and in two places, so that the compiler doesn't take it
// in.
#[unsafe(no_mangle)]
pub extern "C" fn sillwander_pic_handle_read(words: &mut [u64; 4], port: u64, width: u64) -> u64
    ensures { shown (view words.new) result ≡ coded (handle_read (view words.old) port width) }
{
    if width != 1 {
        return read(words, port, width);
    }
    let Some(shown) = vpic::plain_read(words, port) else {
        return read(words, port, 1);
    };
    code(Reply::One(u64::from(shown)))
}

#[unsafe(no_mangle)]
pub extern "C" fn sillwander_pic_handle_write(
    words: &mut [u64; 4],
    port: u64,
    width: u64,
    value: u64,
) -> u64
    ensures { shown (view words.new) result ≡ coded (handle_write (view words.old) port width value) }
{
    code(vpic::handle_write(words, port, width, value).reply())
}
