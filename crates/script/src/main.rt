// The program of document 01, "Scripts": it reads a script of at most 65,536 bytes from standard input and prints a line for each field. What is printed is worked out, and
// proved, in the crate script_print, all of it; here it is only read and written. An input that can't be read and an output that can't be written are told on standard error.

#![tactic(auto)]

use input::Input;
use script_print::SPACE;
use std::io::{self, Write};

// Stays: what may not change: `input::read_all` promises how many bytes of a lent buffer were read, and `print` fills
// one (`puts`).
fn main(rt: HostRuntime) -> io::Result<()> {
    let mut script = [0u8; 65537];
    let Input { length, ended } = input::read_all(&mut rt.reader(), &mut script);
    if let Err(error) = ended {
        return eprintln!(rt; "script: standard input: {error}");
    }
    let mut text = [0u8; SPACE];
    let end = script_print::print(&script[..length], &mut text);
    if let Err(error) = io::writer(&rt).write_all(&text[..end]) {
        return eprintln!(rt; "script: standard output: {error}");
    }
    Ok(())
}
