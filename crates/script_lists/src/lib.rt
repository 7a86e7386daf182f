// Scripts over a host of four vCPUs (document 02, T-13): a machine of scripts, and beside it the vCPUs' waiting lists, into which its pair's claims go. A step of such a script
// and the lists after it are put as text, a step at a time: what the program `lists` prints. Fields 40 to 45 are the lists'; all others are the machine's.

#![tactic(auto)]

ghost use Rattle.std.specs.Prelude.{◌+◌, ◌^◌, ◌<◌, ◌≤◌, ◌≡◌, length, take};
ghost use Rattle.io.specs.Counts.{IsPrefixLen};
ghost use Rattle.types.specs.Reply.{outcome_of};
ghost use Rattle.reply_text.specs.Text.{Puts, words_line};
ghost use Rattle.script_format.specs.Fields.{length_at};
ghost use Rattle.script_machine.specs.Machine.{machine_of};
ghost use Rattle.vpic.specs.Words.{view};
ghost use Rattle.waiting.specs.Lists.{lists_in, list_at};
ghost use Rattle.waiting_claims.specs.Claims.{host};
ghost use Rattle.script_lists.specs.Fields.{checked, decoded, list_field_at};
ghost use Rattle.script_lists.specs.Steps.{list_outcome, host_step, host_step_in, lists_text, lists_said};

use script_format::{BadField, Cursor, Field, byte_at, field_of};
use script_machine::{Did, Machine, Stop};
use types::{PicLine, Reply, ToReply, VcpuId, Vector};

// The bytes of four lists.
pub const BYTES: usize = 264;

// A field's line, at most 80 bytes, and four lines of at most 64 vectors, of at most 21 bytes each, and their ends.
pub const SPACE: usize = 5460;

// Calls of the lists, each for a vCPU.
#[derive(Clone, Copy, Debug, PartialEq, Eq, Hash)]
pub enum ListCall {
    Take(VcpuId, Vector),
    Deliver(VcpuId),
    Cancel(VcpuId, Vector),
    ClaimIrq(VcpuId, PicLine),
    ClaimPendingInterrupt(VcpuId),
    New(VcpuId),
}

// Performs the field at a place, and puts its line and the lists after it at the buffer's start: where the next one starts, what is said, and how many bytes are put.
// Stays: what may not change: it can't fail, and `puts` names every byte of the lent buffer; `write!` may fail.
pub fn put_step(
    lists: &mut [u8; BYTES],
    machine: &mut Machine,
    script: &[u8],
    from: Cursor,
    out: &mut [u8; SPACE],
) -> (Cursor, Result<Did, Stop>, usize)
    ensures stepped_after { host_step_in lists.new machine.new (result.0, result.1) ≡ host_step script.now (lists_in lists.old) (machine_of machine.old) from.at }
    ensures puts { Puts out.old 0 (lists_said result.1 from.at (lists_in lists.new)) out.new result.2 }
    ensures prefix_len { IsPrefixLen result.2 out.new }
{
    let (next, said) = step(lists, machine, script, from);
    let end = put_said(out, said, from.at, lists);
    (next, said, end)
}

// ---- a field of the lists

// The call, if the body has its size.
fn checked(body: &[u8], size: usize, call: ListCall) -> Option<ListCall>
    ensures { result ≡ checked body.now size call }
{
    if body.len() == size {
        return Some(call);
    }
    None
}

// A body by its tag: a vCPU, and for some a vector or a line.
// Stays: what may not change: `decoded` has an answer for each byte that may stand in the script as a tag.
fn decode(tag: u8, body: &[u8]) -> Option<ListCall>
    ensures { result ≡ decoded tag body.now }
{
    let vcpu = VcpuId(usize::from(byte_at(body, 0)));
    let number = byte_at(body, 1);
    match tag {
        0x40 => checked(body, 2, ListCall::Take(vcpu, Vector(number))),
        0x41 => checked(body, 1, ListCall::Deliver(vcpu)),
        0x42 => checked(body, 2, ListCall::Cancel(vcpu, Vector(number))),
        0x43 => checked(body, 2, ListCall::ClaimIrq(vcpu, PicLine(number))),
        0x44 => checked(body, 1, ListCall::ClaimPendingInterrupt(vcpu)),
        0x45 => checked(body, 1, ListCall::New(vcpu)),
        _ => None,
    }
}

// The length that the field at a place says.
// Stays: the new form is no plainer: a script and a place in it, as `list_field_at` has them.
#[tactic(auto, unfolding(script_format::specs::Format::number_at))]
fn length_at(script: &[u8], at: usize) -> u16
    requires { at + 2 < 2 ^ 64 }
    ensures { result ≡ length_at script.now at }
{
    u16::from_le_bytes([byte_at(script, at + 1), byte_at(script, at + 2)])
}

// What stands at a place of the script: a field of the lists, or nothing of theirs.
fn read(script: &[u8], from: Cursor) -> Result<Option<Field<ListCall>>, BadField>
    ensures { result ≡ list_field_at script.now from.at }
{
    let at = from.at;
    if script.len() <= at {
        return Ok(None);
    }
    let tag = script[at];
    if tag < 0x40 {
        return Ok(None);
    }
    if script.len() - at < 3 {
        return Err(BadField);
    }
    let size = usize::from(length_at(script, at));
    let start = at + 3;
    if script.len() - start < size {
        return Err(BadField);
    }
    let next = start + size;
    field_of(tag, decode(tag, &script[start..next]), next)
}

// ---- a step

fn perform(lists: &mut [u8], pic: &mut [u64; 4], call: ListCall) -> Reply
    ensures { outcome_of (host (lists_in lists.new) (view pic.new)) result ≡ list_outcome (host (lists_in lists.old) (view pic.old)) call }
{
    match call {
        ListCall::Take(vcpu, vector) => waiting::take(lists, vcpu, vector).reply(),
        ListCall::Deliver(vcpu) => waiting::deliver(lists, vcpu).reply(),
        ListCall::Cancel(vcpu, vector) => waiting::cancel(lists, vcpu, vector).reply(),
        ListCall::ClaimIrq(vcpu, irq) => {
            waiting_claims::claim_irq(lists, pic, vcpu, irq).reply()
        }
        ListCall::ClaimPendingInterrupt(vcpu) => {
            waiting_claims::claim_pending_interrupt(lists, pic, vcpu).reply()
        }
        ListCall::New(vcpu) => waiting::new(lists, vcpu).reply(),
    }
}

fn step(
    lists: &mut [u8],
    machine: &mut Machine,
    script: &[u8],
    from: Cursor,
) -> (Cursor, Result<Did, Stop>)
    ensures { host_step_in lists.new machine.new result ≡ host_step script.now (lists_in lists.old) (machine_of machine.old) from.at }
{
    match read(script, from) {
        Ok(Some(field)) => {
            let reply = perform(lists, &mut machine.pic, field.call);
            let tag = field.tag;
            (field.next, Ok(Did { tag, reply }))
        }
        Ok(None) => machine.step(script, from),
        Err(_) => (from, Err(Stop::BadField)),
    }
}

// ---- its text

// The text of a step at a place, which left these lists.
// Stays: what may not change, as at `put_step`.
fn put_said(out: &mut [u8], said: Result<Did, Stop>, place: usize, lists: &[u8]) -> usize
    requires { 5460 ≤ length out.old }
    ensures puts { Puts out.old 0 (lists_said said place (lists_in lists.now)) out.new result }
    ensures upper_bound { result ≤ 5460 }
{
    match said {
        Ok(did) => {
            let end = reply_text::put_line(out, 0, did.tag, did.reply);
            put_lists(out, end, lists)
        }
        Err(stop) => script_print::put_stop(out, 0, stop, place),
    }
}

// A line for each vCPU, where there is room.
// Stays: what may not change, as at `put_step`.
fn put_lists(out: &mut [u8], at: usize, lists: &[u8]) -> usize
    requires { at + 5380 ≤ length out.old }
    ensures puts { Puts out.old at (lists_text (lists_in lists.now)) out.new result }
    ensures upper_bound { result ≤ at + 5380 }
{
    let mut end = put_list(out, at, lists, VcpuId(0));
    end = put_list(out, end, lists, VcpuId(1));
    end = put_list(out, end, lists, VcpuId(2));
    put_list(out, end, lists, VcpuId(3))
}

// What waits for a vCPU, the oldest first, where there is room.
// Stays: what may not change, as at `put_step`.
fn put_list(out: &mut [u8], at: usize, lists: &[u8], vcpu: VcpuId) -> usize
    requires { at + 1345 ≤ length out.old }
    ensures puts { Puts out.old at (words_line (list_at (lists_in lists.now) vcpu).waiting) out.new result }
    ensures upper_bound { result ≤ at + 1345 }
{
    let mut vectors = [0u64; 64];
    let n = gather(&mut vectors, lists, vcpu);
    reply_text::put_words(out, at, &vectors[..n])
}

// The vectors that wait for a vCPU, as words, and how many they are.
fn gather(vectors: &mut [u64], lists: &[u8], vcpu: VcpuId) -> usize
    requires { length vectors.old ≡ 64 }
    ensures vectors_after { take result vectors.new ≡ (list_at (lists_in lists.now) vcpu).waiting }
    ensures prefix_len { IsPrefixLen result vectors.new }
{
    for n in 0..64 {
        match waiting::peek(lists, vcpu, n) {
            Ok(Some(vector)) => vectors[n] = u64::from(vector.0),
            Ok(None) => return n,
            Err(_) => return n,
        }
    }
    64
}
