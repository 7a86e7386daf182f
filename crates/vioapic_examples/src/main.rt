// Runs document 01's numbered examples 1 to 6 on the I/O APIC of version 0x11, and document 02's masking (T-08) on a new one, which is of version
// 0x20, and prints the number and the values of each reply.

#![tactic(auto)]

use std::io::{self, Write};
use types::{Gsi, Reply, ToReply, Vector};
use vioapic::{EmulatedIoApic, IoApicVersion};

const IOREGSEL: u64 = 0xfec0_0000;

const IOWIN: u64 = 0xfec0_0010;

// A line: what was done, the reply's number, and its values or `-`.
fn say<W: Write>(out: &mut W, what: &[u8], reply: Reply) -> io::Result<()> {
    reply_text::print_text(out, what)?;
    reply_text::print_text(out, b": ")?;
    reply_text::print_reply(out, reply)
}

fn select(chip: EmulatedIoApic, register: u64) -> EmulatedIoApic {
    let (chip, _done) = chip.handle_write(IOREGSEL, 4, register);
    chip
}

fn write(chip: EmulatedIoApic, value: u64) -> EmulatedIoApic {
    let (chip, _done) = chip.handle_write(IOWIN, 4, value);
    chip
}

// IOWIN is read, and the reply told; the calls below tell theirs likewise.
// Stays: the new form is no plainer: a struct of the writer and a chip would hide that a chip by value goes in and comes
// out.
fn read<W: Write>(out: &mut W, chip: EmulatedIoApic) -> io::Result<()> {
    say(out, b"read", chip.handle_read(IOWIN, 4).reply())
}

fn raise<W: Write>(out: &mut W, chip: EmulatedIoApic, gsi: usize) -> io::Result<EmulatedIoApic> {
    let (chip, answer) = chip.set_gsi_level(Gsi(gsi), true);
    say(out, b"raise", answer.reply())?;
    Ok(chip)
}

fn lower<W: Write>(out: &mut W, chip: EmulatedIoApic, gsi: usize) -> io::Result<EmulatedIoApic> {
    let (chip, answer) = chip.set_gsi_level(Gsi(gsi), false);
    say(out, b"lower", answer.reply())?;
    Ok(chip)
}

fn eoi<W: Write>(out: &mut W, chip: EmulatedIoApic, vector: u8) -> io::Result<EmulatedIoApic> {
    let (chip, answer) = chip.end_of_interrupt(Vector(vector));
    say(out, b"EOI", answer.reply())?;
    Ok(chip)
}

// A new chip of document 01's version.
fn old() -> EmulatedIoApic {
    EmulatedIoApic::new_default_version(IoApicVersion::V11)
}

// The same with the low words of one entry written, which stays selected.
fn with_entry(selector: u64, low: u64) -> EmulatedIoApic {
    write(select(old(), selector), low)
}

fn example_1<W: Write>(out: &mut W) -> io::Result<()> {
    let chip = old();
    read(out, select(chip, 0x10))?;
    read(out, select(chip, 0x40))
}

fn example_2<W: Write>(out: &mut W) -> io::Result<()> {
    let chip = raise(out, with_entry(0x14, 0x8030), 2)?;
    read(out, chip)?;
    let chip = raise(out, chip, 2)?;
    let chip = eoi(out, chip, 0x30)?;
    let chip = lower(out, chip, 2)?;
    let chip = eoi(out, chip, 0x30)?;
    eoi(out, chip, 0x30)?;
    Ok(())
}

fn example_3<W: Write>(out: &mut W) -> io::Result<()> {
    let chip = raise(out, with_entry(0x14, 0x8030), 2)?;
    let chip = write(chip, 0x8030);
    read(out, chip)?;
    let chip = write(chip, 0x18030);
    read(out, chip)?;
    eoi(out, chip, 0x30)?;
    Ok(())
}

fn example_4<W: Write>(out: &mut W) -> io::Result<()> {
    let chip = write(select(with_entry(0x16, 0x8041), 0x1a), 0x8041);
    let chip = raise(out, chip, 3)?;
    let chip = raise(out, chip, 5)?;
    let chip = eoi(out, chip, 0x41)?;
    let chip = eoi(out, chip, 0x41)?;
    eoi(out, chip, 0x41)?;
    Ok(())
}

fn example_5<W: Write>(out: &mut W) -> io::Result<()> {
    raise(out, with_entry(0x10, 15), 0)?;
    raise(out, with_entry(0x10, 16), 0)?;
    Ok(())
}

fn example_6<W: Write>(out: &mut W) -> io::Result<()> {
    let chip = old();
    let narrow = chip.handle_read(0xfebf_ffff, 2);
    say(out, b"read of width 2 below the base", narrow.reply())?;
    let wide = chip.handle_read(0xfebf_ffff, 4);
    say(out, b"read of width 4 below the base", wide.reply())?;
    let (chip, narrow) = chip.handle_write(0xfebf_ffff, 2, 0);
    say(out, b"write of width 2 below the base", narrow.reply())?;
    let (_chip, wide) = chip.handle_write(0xfebf_ffff, 4, 0);
    say(out, b"write of width 4 below the base", wide.reply())
}

// A write whose reply is told.
fn tell<W: Write>(out: &mut W, chip: EmulatedIoApic, value: u64) -> io::Result<EmulatedIoApic> {
    let (chip, answer) = chip.handle_write(IOWIN, 4, value);
    say(out, b"write", answer.reply())?;
    Ok(chip)
}

// A threaded handler: the guest masks the entry, ends the interrupt, and unmasks the entry when its thread has run. The device still holds
// its line, so that the unmasking sends (82093AA: Remote IRR is read-only, and a level that is up is delivered once it isn't masked). Then the
// same with the end after the unmasking.
fn threaded<W: Write>(out: &mut W) -> io::Result<()> {
    let made = EmulatedIoApic::new_default();
    let chip = raise(out, write(select(made, 0x14), 0x8030), 2)?;
    let chip = tell(out, chip, 0x18030)?;
    read(out, chip)?;
    let chip = eoi(out, chip, 0x30)?;
    let chip = tell(out, chip, 0x8030)?;
    read(out, chip)?;
    let chip = tell(out, chip, 0x18030)?;
    let chip = tell(out, chip, 0x8030)?;
    let chip = eoi(out, chip, 0x30)?;
    let chip = lower(out, chip, 2)?;
    eoi(out, chip, 0x30)?;
    Ok(())
}

fn main(rt: HostRuntime) -> io::Result<()> {
    let mut out = io::writer(&rt);
    reply_text::print_text(&mut out, b"example 1\n")?;
    example_1(&mut out)?;
    reply_text::print_text(&mut out, b"example 2\n")?;
    example_2(&mut out)?;
    reply_text::print_text(&mut out, b"example 3\n")?;
    example_3(&mut out)?;
    reply_text::print_text(&mut out, b"example 4\n")?;
    example_4(&mut out)?;
    reply_text::print_text(&mut out, b"example 5\n")?;
    example_5(&mut out)?;
    reply_text::print_text(&mut out, b"example 6\n")?;
    example_6(&mut out)?;
    reply_text::print_text(&mut out, b"version 0x20, a threaded handler\n")?;
    threaded(&mut out)
}
