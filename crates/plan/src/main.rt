// A vector for each line of an I/O APIC, or why there is none (document 02, T-10). On standard input a row for each line: its name, the lowest and the highest vector
// that it may have, and its input of the I/O APIC if that isn't its place among the lines, from 0. The vectors of rows whose name is `taken` are taken. Numbers are
// decimal, or hexadecimal behind 0x; `#` starts a comment.
//
// The plan is printed as what to write: for each line the low register of its entry, and the vector for its bits 7..0 (82093AA, IOREDTBL). What is planned, and why
// there is no plan, is proved in the crate planner; here it is only read and written. An input that can't be read and an output that can't be written are told on
// standard error.

#![tactic(auto)]

use input::Input;
use rows::{LINES, Line, Setup};
use std::io::{self, Write};
use types::{Refusal, Vector};
use utils::Set;

mod rows;

// Stays: what may not change: `input::read_all` promises how many bytes of a lent buffer were read, and `plan` asks for
// no memory, so that it can't run out of it.
fn main(rt: HostRuntime) -> io::Result<()> {
    let mut text = [0u8; 65_536];
    let Input { length, ended } = input::read_all(&mut rt.reader(), &mut text);
    if let Err(error) = ended {
        return eprintln!(rt; "plan: standard input: {error}");
    }
    let mut out = io::writer(&rt);
    let written = if length > 65_535 {
        writeln!(out, "plan: the text is longer than 65,535 bytes")
    } else {
        run(&mut out, &text[..length])
    };
    if let Err(error) = written {
        return eprintln!(rt; "plan: standard output: {error}");
    }
    Ok(())
}

// ---- planning

fn run<W: Write>(out: &mut W, text: &[u8]) -> io::Result<()> {
    let mut setup = Setup::new();
    match setup.read(text) {
        Ok(()) => setup.answer(out),
        Err(bad) => write!(out, "{bad}"),
    }
}

// ---- writing: the first write that fails ends it

impl<'a> Setup<'a> {
    fn answer<W: Write>(&self, out: &mut W) -> io::Result<()> {
        let ranges = self.ranges();
        // Stays: a rule of the project: no heap.
        let mut plan = [0u8; LINES];
        match planner::plan(&ranges, &self.taken, &mut plan) {
            Ok(()) => {
                for (line, vector) in self.lines.iter().zip(&plan) {
                    line.entry(out, Vector(*vector))?;
                }
                Ok(())
            }
            Err(why) => self.explain(out, &ranges, why),
        }
    }

    // Why there is no plan.
    fn explain<W: Write>(&self, out: &mut W, ranges: &[u16], why: Refusal) -> io::Result<()> {
        match why {
            Refusal::OutOfRange => writeln!(out, "refused, 5: more than 24 lines"),
            Refusal::InvalidRegister => {
                writeln!(
                    out,
                    "refused, 2: the lowest vector is above the highest for:"
                )?;
                for line in &self.lines {
                    if planner::highest(line.range).0 < planner::lowest(line.range).0 {
                        line.name(out)?;
                    }
                }
                Ok(())
            }
            Refusal::NoPlan => {
                writeln!(out, "refused, 8: there is no plan.")?;
                self.shortage(out, ranges)
            }
            _ => writeln!(out, "refused"),
        }
    }

    fn shortage<W: Write>(&self, out: &mut W, ranges: &[u16]) -> io::Result<()> {
        let Ok(Some(crowded)) = planner::shortage::shortage(ranges, &self.taken) else {
            return Ok(());
        };
        let lowest = crowded.lowest.0;
        let highest = crowded.highest.0;
        let free = planner::shortage::count_free(&self.taken, crowded.lowest, crowded.highest);
        let confined = planner::shortage::count_confined(ranges, crowded.lowest, crowded.highest);
        write!(out, "vectors ")?;
        write!(out, "0x{lowest:02x} to ")?;
        write!(out, "0x{highest:02x}")?;
        writeln!(
            out,
            ": {free} free; lines that may have no other: {confined}"
        )?;
        for (k, line) in self.lines.iter().enumerate() {
            if k < 64 && crowded.lines.has(k as u32) {
                line.name(out)?;
            }
        }
        Ok(())
    }
}

impl<'a> Line<'a> {
    // Stays: what may not change (a name is written byte by byte as it was read, and `Display` writes text alone).
    fn entry<W: Write>(&self, out: &mut W, vector: Vector) -> io::Result<()> {
        let input = self.input;
        let register = 16 + 2 * u32::from(input);
        let number = vector.0;
        write!(out, "entry {input}, register 0x{register:02x}: vector ")?;
        write!(out, "0x{number:02x}    ")?;
        out.write_all(self.name)?;
        writeln!(out)
    }

    fn name<W: Write>(&self, out: &mut W) -> io::Result<()> {
        write!(out, "  ")?;
        out.write_all(self.name)?;
        writeln!(out)
    }
}
