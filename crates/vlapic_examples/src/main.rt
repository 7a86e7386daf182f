// Runs the numbered examples 10, 11 and 12 of document 01 on the local APIC, through its public calls alone, and prints
// what they answer. A line has the example's number, what was asked, the refusal number (0: done), and the answer's
// values, or - where there is none.

#![tactic(auto)]

use std::io::{self, Write};
use types::{ToReply, Vector};
use vlapic::VirtualApicRegs;

const TPR: u64 = 0x80;

const PPR: u64 = 0xa0;

const ISR: u64 = 0x100;

const ESR: u64 = 0x280;

const ICR_LOW: u64 = 0x300;

// A write by four bytes in a VM of one vCPU.
fn write(regs: VirtualApicRegs, offset: u64, val: u64) -> VirtualApicRegs {
    regs.handle_write(offset, val, 4, 1, 1).0
}

fn show_read<W: Write>(out: &mut W, regs: VirtualApicRegs, offset: u64) -> io::Result<()> {
    reply_text::print_reply(out, regs.handle_read(offset).reply())
}

fn show_eoi<W: Write>(out: &mut W, regs: VirtualApicRegs) -> io::Result<VirtualApicRegs> {
    let (next, told) = regs.handle_eoi();
    reply_text::print_reply(out, told.reply())?;
    Ok(next)
}

// TPR written, then 0x31 accepted, level-triggered: PPR. Then an EOI.
fn priority<W: Write>(out: &mut W, tpr: u64) -> io::Result<()> {
    let regs = write(VirtualApicRegs::new(), TPR, tpr).accept_interrupt(Vector(0x31), true);
    reply_text::print_text(out, b"10 PPR ")?;
    show_read(out, regs, PPR)?;
    reply_text::print_text(out, b"10 EOI ")?;
    show_eoi(out, regs)?;
    Ok(())
}

// 0x1f accepted, and an EOI: it is in service still.
fn unseen<W: Write>(out: &mut W) -> io::Result<()> {
    let regs = VirtualApicRegs::new().accept_interrupt(Vector(0x1f), false);
    reply_text::print_text(out, b"11 EOI ")?;
    let next = show_eoi(out, regs)?;
    reply_text::print_text(out, b"11 ISR ")?;
    show_read(out, next, ISR)
}

// A fixed interrupt with vector 15 to vCPU 0; ESR before and after it is written.
fn illegal<W: Write>(out: &mut W) -> io::Result<()> {
    let (regs, answer) = VirtualApicRegs::new().handle_write(ICR_LOW, 15, 4, 1, 1);
    reply_text::print_text(out, b"12 ICR ")?;
    reply_text::print_reply(out, answer.reply())?;
    reply_text::print_text(out, b"12 ESR ")?;
    show_read(out, regs, ESR)?;
    let shown = write(regs, ESR, 0);
    reply_text::print_text(out, b"12 ESR ")?;
    show_read(out, shown, ESR)
}

fn main(rt: HostRuntime) -> io::Result<()> {
    let mut out = io::writer(&rt);
    priority(&mut out, 0x2f)?;
    priority(&mut out, 0x35)?;
    unseen(&mut out)?;
    illegal(&mut out)
}
