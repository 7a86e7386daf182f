// A run that is cut and continued (document 01, "Scripts": a run is told how many fields it may perform, and answers how many it did and where the next starts). The script on
// standard input is run three fields at a time, and then, by another machine, at once. Printed are, for each run, how many fields were performed and where the next starts, and
// why it ended, by its number; and at the end what the pair has pending, which is the same for both.

#![tactic(auto)]

use input::Input;
use script_format::{Call, Cursor, PicCall};
use script_machine::Machine;
use std::io::{self, Write};
use types::{Reply, ToReply};

// Stays: what may not change: `input::read_all` promises how many bytes of a lent buffer were read.
fn main(rt: HostRuntime) -> io::Result<()> {
    let mut script = [0u8; 4096];
    let Input { length, ended } = input::read_all(&mut rt.reader(), &mut script);
    ended?;
    let mut out = io::writer(&rt);
    print_runs(&mut out, &script[..length], 3, 4)?;
    print_runs(&mut out, &script[..length], 100, 1)
}

fn print_runs<W: Write>(
    out: &mut W,
    script: &[u8],
    allowance: usize,
    runs: usize,
) -> io::Result<()> {
    let mut machine = Machine::new();
    let mut next = Cursor { at: 0 };
    for _ in 0..runs {
        let ended = machine.run(script, next, allowance);
        next = ended.next;
        reply_text::print_reply(out, Reply::Two(ended.done as u64, next.at as u64))?;
        reply_text::print_reply(out, ended.stop.reply())?;
    }
    let pending = Call::Pic(PicCall::ClaimPendingInterrupt);
    reply_text::print_reply(out, machine.perform(pending))
}
