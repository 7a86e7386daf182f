// A step of a script and the machine after it, as text: what the program `states` prints, a step at a time, since no buffer holds the states of a long script.

#![tactic(auto)]

ghost use Rattle.std.specs.Prelude.{◌+◌, ◌≤◌, ◌≡◌, length};
ghost use Rattle.io.specs.Counts.{IsPrefixLen};
ghost use Rattle.reply_text.specs.Text.{Puts, too_long_line};
ghost use Rattle.script_machine.specs.Machine.{machine_of};
ghost use Rattle.script_machine.specs.Run.{step_in, step_of};
ghost use Rattle.script_states.specs.States.{chips_text, state_text};

use script_format::Cursor;
use script_machine::{Did, Machine, Stop};

// A field's line, at most 80 bytes, and five lines of 164 words together, of at most 21 bytes each.
pub const SPACE: usize = 4096;

// Performs the field at a place, and puts its line and the words of the chips after it at the buffer's start: where the next one starts, what is said, and how many bytes are put.
// Stays: what may not change: it can't fail, and `puts` names every byte of the lent buffer; `write!` may fail.
pub fn put_step(
    machine: &mut Machine,
    script: &[u8],
    from: Cursor,
    out: &mut [u8; SPACE],
) -> (Cursor, Result<Did, Stop>, usize)
    ensures stepped_after { step_in machine.new (result.0, result.1) ≡ step_of script.now (machine_of machine.old) from.at }
    ensures puts { Puts out.old 0 (state_text result.1 from.at machine.new.ioapic machine.new.pic machine.new.apic machine.new.board_ioapic machine.new.board_apic) out.new result.2 }
    ensures prefix_len { IsPrefixLen result.2 out.new }
{
    let (next, said) = machine.step(script, from);
    let end = put_said(out, said, from.at, machine);
    (next, said, end)
}

// Puts the line of a script that is too long, and isn't run, at the buffer's start.
// Stays: what may not change, as at `put_step`.
pub fn put_refusal(out: &mut [u8; SPACE]) -> usize
    ensures puts { Puts out.old 0 too_long_line out.new result }
    ensures prefix_len { IsPrefixLen result out.new }
{
    reply_text::put_too_long(out, 0)
}

// The text of a step at a place, which left this machine.
// Stays: what may not change, as at `put_step`.
fn put_said(out: &mut [u8], said: Result<Did, Stop>, place: usize, machine: &Machine) -> usize
    requires { 4096 ≤ length out.old }
    ensures puts { Puts out.old 0 (state_text said place machine.now.ioapic machine.now.pic machine.now.apic machine.now.board_ioapic machine.now.board_apic) out.new result }
    ensures upper_bound { result ≤ 4096 }
{
    match said {
        Ok(did) => {
            let end = reply_text::put_line(out, 0, did.tag, did.reply);
            put_chips(out, end, machine)
        }
        Err(stop) => script_print::put_stop(out, 0, stop, place),
    }
}

// The words of the chips, where there is room.
// Stays: what may not change, as at `put_step`.
fn put_chips(out: &mut [u8], at: usize, machine: &Machine) -> usize
    requires { at + 3449 ≤ length out.old }
    ensures puts { Puts out.old at (chips_text machine.now.ioapic machine.now.pic machine.now.apic machine.now.board_ioapic machine.now.board_apic) out.new result }
    ensures upper_bound { result ≤ at + 3449 }
{
    let mut end = reply_text::put_words(out, at, &machine.ioapic);
    end = reply_text::put_words(out, end, &machine.pic);
    end = reply_text::put_words(out, end, &machine.apic);
    end = reply_text::put_words(out, end, &machine.board_ioapic);
    reply_text::put_words(out, end, &machine.board_apic)
}
