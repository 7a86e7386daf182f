// A guest that is moved between hosts (document 02, T-11; docs/IMAGE.md): it reads a script from standard input as the program `script` does, or an image of 628 bytes with a script behind
// it, and prints the lines that `script` prints, and behind them the image of the board and of the pair after the script, 628 bytes. Before an image that is refused it prints `10`, and nothing
// else. What is printed is worked out, and proved, in the crate script_resume; here it is only read and written. An input that can't be read and an output that can't be written are told on standard
// error.

#![tactic(auto)]

use input::Input;
use script_machine::Machine;
use script_print::SPACE;
use script_resume::IMAGE;
use std::io::{self, Write};

// Stays: what may not change: `input::read_all` promises how many bytes of a lent buffer were read.
fn main(rt: HostRuntime) -> io::Result<()> {
    let mut input = [0u8; 66165];
    let Input { length, ended } = input::read_all(&mut rt.reader(), &mut input);
    if let Err(error) = ended {
        return eprintln!(rt; "resume: standard input: {error}");
    }
    if let Err(error) = run(&mut io::writer(&rt), &input[..length]) {
        return eprintln!(rt; "resume: standard output: {error}");
    }
    Ok(())
}

// Stays: what may not change: `go_on` fills lent buffers (`goes`).
fn run<W: Write>(out: &mut W, input: &[u8]) -> io::Result<()> {
    let mut text = [0u8; SPACE];
    let mut after = [0u8; IMAGE];
    let head = script_resume::head_size(input);
    match script_resume::go_on(
        &input[..head],
        &input[head..],
        &mut Machine::new(),
        &mut text,
        &mut after,
    ) {
        Ok(resumed) => {
            out.write_all(&text[..resumed.end])?;
            out.write_all(&after[..resumed.size])
        }
        Err(_) => out.write_all(b"10\n"),
    }
}
