// What the program prints for a script (document 01, "Scripts"), all of it, into a buffer that is lent and large enough for any script's lines.

#![tactic(auto)]

ghost use Rattle.std.specs.Prelude.{suc, ◌+◌, ◌≤◌, ◌≡◌, length};
ghost use Rattle.io.specs.Counts.{IsPrefixLen};
ghost use Rattle.reply_text.specs.Text.{Puts, in_room};
ghost use Rattle.script_print.specs.Printed.{stop_text, lines_from, printed_from, printed, machine_after};
ghost use Rattle.script_machine.specs.Machine.{machine_of};
ghost use Rattle.script_machine.specs.Run.{run_of};

use script_format::Cursor;
use script_machine::{Machine, Stop};

// The longest script, in bytes.
const LIMIT: usize = 65536;

// A line's 80 bytes for each three of the longest script, since no field has fewer, and one line more.
pub const SPACE: usize = 1747760;

// Runs a script on a new machine, puts all that is printed for it at the buffer's start, and answers how many bytes that are.
// Stays: what may not change: it can't fail, and `puts` names every byte of the lent buffer; `write!` may fail.
pub fn print(script: &[u8], out: &mut [u8; SPACE]) -> usize
    ensures puts { Puts out.old 0 (printed script.now) out.new result }
    ensures prefix_len { IsPrefixLen result out.new }
{
    print_from(&mut Machine::new(), script, out)
}

// The same on a lent machine, which is left as the run leaves it.
// Stays: what may not change, as at `print`.
pub fn print_from(machine: &mut Machine, script: &[u8], out: &mut [u8; SPACE]) -> usize
    ensures puts { Puts out.old 0 (printed_from script.now (machine_of machine.old)) out.new result }
    ensures prefix_len { IsPrefixLen result out.new }
    ensures machine_after { machine_of machine.new ≡ machine_after script.now (machine_of machine.old) }
{
    if script.len() > LIMIT {
        return reply_text::put_too_long(out, 0);
    }
    put_lines(machine, script, out)
}

// Stays: what may not change, as at `print`; and the new form of its loop is no plainer: it has no count, since the
// script's end or a bad field ends it.
fn put_lines(machine: &mut Machine, script: &[u8], out: &mut [u8]) -> usize
    requires { (length script.now ≤ 65536) × (1747760 ≤ length out.old) }
    ensures puts { Puts out.old 0 (lines_from script.now (machine_of machine.old) 0) out.new result }
    ensures end_bound { result ≤ 1747760 }
    ensures machine_after { machine_of machine.new ≡ (run_of script.now (machine_of machine.old) 0 (suc (length script.now))).machine }
{
    let mut next = Cursor { at: 0 };
    let mut end: usize = 0;
    loop {
        let (behind, said) = machine.step(script, next);
        next = behind;
        match said {
            Ok(did) => end = reply_text::put_line(out, end, did.tag, did.reply),
            Err(stop) => return put_stop(out, end, stop, next.at),
        }
    }
}

// The last line of a run that ended at a place, if it has one.
// Stays: what may not change, as at `print`.
pub fn put_stop(out: &mut [u8], at: usize, stop: Stop, place: usize) -> usize
    ensures puts { Puts out.old at (in_room (length out.old) at (stop_text stop place)) out.new result }
    ensures upper_bound { result ≤ at + 80 }
{
    match stop {
        Stop::Allowance | Stop::End => at,
        Stop::BadField => reply_text::put_bad(out, at, place),
    }
}
