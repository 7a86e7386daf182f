// Examples 7, 8 and 9 of document 01 on the pair by rule 0, and 7 and 8 again on a new one, by the cascade rule (document 02, T-02 and T-14): each line is what was asked, the number, and the values.

#![tactic(auto)]

use std::io::{self, Write};
use types::{PicLine, ToReply};
use vpic::{EmulatedPic, PicInterruptClaim, PicRule};

const MASTER_COMMAND: u16 = 0x20;

const MASTER_DATA: u16 = 0x21;

const SLAVE_COMMAND: u16 = 0xa0;

const SLAVE_DATA: u16 = 0xa1;

fn main(rt: HostRuntime) -> io::Result<()> {
    let mut out = io::writer(&rt);
    let old = EmulatedPic::new_rule(PicRule::Latch);
    example_7(&mut out, old)?;
    example_8(&mut out, old)?;
    example_9(&mut out, old)?;
    reply_text::print_text(&mut out, b"by rule 1\n")?;
    let new = EmulatedPic::new();
    example_7(&mut out, new)?;
    example_8(&mut out, new)
}

// A byte written to a port.
fn write(pic: EmulatedPic, port: u16, value: u64) -> EmulatedPic {
    pic.handle_write(port, 1, value).0
}

fn masks_0(pic: EmulatedPic) -> EmulatedPic {
    write(write(pic, MASTER_DATA, 0), SLAVE_DATA, 0)
}

// An EOI to the slave, then to the master.
fn eoi_both(pic: EmulatedPic) -> EmulatedPic {
    write(write(pic, SLAVE_COMMAND, 0x20), MASTER_COMMAND, 0x20)
}

fn print_claim<W: Write>(
    out: &mut W,
    name: &[u8],
    claim: Option<PicInterruptClaim>,
) -> io::Result<()> {
    reply_text::print_text(out, name)?;
    reply_text::print_reply(out, claim.reply())
}

// Stays: the new form is no plainer: three functions print one line each of the pair that they are given.
fn claim<W: Write>(
    out: &mut W,
    name: &[u8],
    pic: EmulatedPic,
    line: u8,
) -> io::Result<EmulatedPic> {
    let (after, claim) = pic.claim_irq(PicLine(line));
    print_claim(out, name, claim)?;
    Ok(after)
}

fn claim_pending<W: Write>(out: &mut W, name: &[u8], pic: EmulatedPic) -> io::Result<EmulatedPic> {
    let (after, claim) = pic.claim_pending_interrupt();
    print_claim(out, name, claim)?;
    Ok(after)
}

fn read<W: Write>(out: &mut W, name: &[u8], pic: EmulatedPic, port: u16) -> io::Result<()> {
    let (_, value) = pic.handle_read(port, 1);
    reply_text::print_text(out, name)?;
    reply_text::print_reply(out, value.reply())
}

fn example_7<W: Write>(out: &mut W, new: EmulatedPic) -> io::Result<()> {
    let mut pic = masks_0(new);
    pic = claim(out, b"7 claim 12: ", pic, 12)?;
    pic = claim(out, b"7 claim 13: ", pic, 13)?;
    pic = claim(out, b"7 claim 14: ", pic, 14)?;
    pic = claim_pending(out, b"7 EOIs, claim pending: ", eoi_both(pic))?;
    pic = claim_pending(out, b"7 EOIs, claim pending: ", eoi_both(pic))?;
    read(out, b"7 slave requests: ", pic, SLAVE_COMMAND)
}

fn example_8<W: Write>(out: &mut W, new: EmulatedPic) -> io::Result<()> {
    let (after, claim) = masks_0(new).claim_irq(PicLine(2));
    print_claim(out, b"8 claim 2: ", claim)?;
    let Some(taken) = claim else {
        return Ok(());
    };
    let (pic, done) = after.restore_interrupt(taken);
    reply_text::print_text(out, b"8 restore: ")?;
    reply_text::print_reply(out, done.reply())?;
    read(out, b"8 requests: ", pic, MASTER_COMMAND)?;
    read(
        out,
        b"8 in service: ",
        write(pic, MASTER_COMMAND, 0x0b),
        MASTER_COMMAND,
    )
}

fn example_9<W: Write>(out: &mut W, new: EmulatedPic) -> io::Result<()> {
    let mut pic = write(new, MASTER_DATA, 0xf8);
    pic = write(pic, MASTER_COMMAND, 0x11);
    pic = write(pic, MASTER_DATA, 0x20);
    pic = write(pic, MASTER_DATA, 4);
    pic = write(pic, MASTER_DATA, 1);
    read(out, b"9 mask: ", pic, MASTER_DATA)?;
    claim(out, b"9 claim 0: ", pic, 0)?;
    Ok(())
}
