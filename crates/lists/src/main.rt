// What waits for stopped vCPUs, step by step: it reads a script of at most 65,536 bytes from standard input as the program `script` does, in which fields 40 to 45 are those of the
// waiting lists of four vCPUs, and prints for each field its line and a line for each vCPU: the vectors that wait for it after the field, the oldest first. What a step prints is
// worked out, and proved, in the crate script_lists; here it is only read and written. An input that can't be read and an output that can't be written are told on standard error.

#![tactic(auto)]

use input::Input;
use script_format::Cursor;
use script_lists::{BYTES, SPACE};
use script_machine::Machine;
use std::io::{self, Write};

// The longest script, in bytes.
const LIMIT: usize = 65536;

// Stays: what may not change: `input::read_all` promises how many bytes of a lent buffer were read.
fn main(rt: HostRuntime) -> io::Result<()> {
    let mut script = [0u8; 65537];
    let Input { length, ended } = input::read_all(&mut rt.reader(), &mut script);
    if let Err(error) = ended {
        return eprintln!(rt; "lists: standard input: {error}");
    }
    let mut out = io::writer(&rt);
    let written = if length > LIMIT {
        refuse(&mut out)
    } else {
        run(&mut out, &script[..length])
    };
    if let Err(error) = written {
        return eprintln!(rt; "lists: standard output: {error}");
    }
    Ok(())
}

// A script that is too long.
// Stays: what may not change: `put_refusal` fills a lent buffer (`puts`).
fn refuse<W: Write>(out: &mut W) -> io::Result<()> {
    let mut text = [0u8; script_states::SPACE];
    let end = script_states::put_refusal(&mut text);
    out.write_all(&text[..end])
}

// Stays: what may not change: `put_step` fills a lent buffer (`puts`); and the new form of the loop is no plainer: it
// has no count, since the script's end or a bad field ends it.
fn run<W: Write>(out: &mut W, script: &[u8]) -> io::Result<()> {
    let mut text = [0u8; SPACE];
    let mut lists = [0u8; BYTES];
    let mut machine = Machine::new();
    let mut next = Cursor { at: 0 };
    loop {
        let (behind, said, end) = script_lists::put_step(
            &mut lists,
            &mut machine,
            script,
            next,
            &mut text,
        );
        next = behind;
        out.write_all(&text[..end])?;
        if let Err(_) = said {
            return Ok(());
        }
    }
}
