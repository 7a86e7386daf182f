// The fields of a script (document 01, "Scripts"): a tag of one byte, a length of two, and a body of that many bytes. Not in the Rust crate.

#![tactic(auto)]

ghost use Rattle.std.specs.Prelude.{◌≡◌, ◌+◌, ◌<◌, ◌^◌};
ghost use Rattle.script_format.specs.Format.{number_at, is_width, checked, io_formats, pic_formats, apic_formats, board_formats, decoded_in, decoded};
ghost use Rattle.script_format.specs.Chips.{chip_of, is_choice};
ghost use Rattle.script_format.specs.Fields.{field_of, field_at};

use types::{Gsi, PicLine, VcpuId, Vector};
use vioapic::{IoApicVersion, is_version};
use vpic::{PicInterruptClaim, PicRule};

// Calls of the I/O APIC.
#[derive(Clone, Copy, Debug, PartialEq, Eq, Hash)]
pub enum IoCall {
    HandleRead { addr: u64, width: u8 },
    HandleWrite { addr: u64, width: u8, value: u64 },
    SetGsiLevel(Gsi, bool),
    AssertGsi(Gsi),
    EndOfInterrupt(Vector),
}

// Calls of the pair of 8259s.
#[derive(Clone, Copy, Debug, PartialEq, Eq, Hash)]
pub enum PicCall {
    HandleRead { port: u16, width: u8 },
    HandleWrite { port: u16, width: u8, value: u64 },
    ClaimIrq(PicLine),
    ClaimPendingInterrupt,
    RestoreInterrupt(PicInterruptClaim),
}

// Calls of the local APIC. Setup also says how many vCPUs the VM has, and which of them are active.
#[derive(Clone, Copy, Debug, PartialEq, Eq, Hash)]
pub enum ApicCall {
    AcceptInterrupt(Vector, bool),
    HandleWrite {
        offset: u64,
        width: u8,
        value: u64,
    },
    HandleEoi,
    HandleRead(u64),
    Setup {
        x2apic: bool,
        vcpu_id: VcpuId,
        vcpu_num: usize,
        active_vcpus: u64,
    },
}

// Calls of the board.
#[derive(Clone, Copy, Debug, PartialEq, Eq, Hash)]
pub enum BoardCall {
    SetGsiLevel(Gsi, bool),
    AcceptInterrupt,
    HandleEoi,
    WriteTpr(u8),
    HandleWrite { addr: u64, width: u8, value: u64 },
    Receive(Vector, bool),
}

// A call of a chip, or a choice, which makes a new one: of the I/O APIC's version, of the pair's rule.
#[derive(Clone, Copy, Debug, PartialEq, Eq, Hash)]
pub enum Call {
    Io(IoCall),
    IoVersion(IoApicVersion),
    Pic(PicCall),
    PicRule(PicRule),
    Apic(ApicCall),
    Board(BoardCall),
}

// The three chips, and the board, which has chips of its own.
#[derive(Clone, Copy, Debug, PartialEq, Eq, Hash)]
pub enum Chip {
    IoApic,
    Pic,
    LocalApic,
    Board,
}

impl Call {
    // The chip that it is of.
    pub fn chip(self) -> Chip
        ensures { result ≡ chip_of self }
    {
        match self {
            Call::Io(_) | Call::IoVersion(_) => Chip::IoApic,
            Call::Pic(_) | Call::PicRule(_) => Chip::Pic,
            Call::Apic(_) => Chip::LocalApic,
            Call::Board(_) => Chip::Board,
        }
    }

    // Whether it chooses what that chip is.
    pub fn is_choice(self) -> bool
        ensures { result ≡ is_choice self }
    {
        matches!(self, Call::IoVersion(_) | Call::PicRule(_))
    }
}

// A place in a script.
#[derive(Clone, Copy, Debug, PartialEq, Eq, PartialOrd, Ord, Hash)]
pub struct Cursor {
    pub at: usize,
}

// A field that stands in a script, whose body says a call, and where the next one starts.
#[derive(Clone, Copy, Debug, PartialEq, Eq, Hash)]
pub struct Field<C> {
    pub tag: u8,
    pub call: C,
    pub next: Cursor,
}

// What stands at a place is no field: it is cut off, or its tag or its body is unknown.
#[derive(Clone, Copy, Debug, PartialEq, Eq, Hash)]
pub struct BadField;

// ---- numbers in a body, the low byte first; past its end there are only zeros

// A byte of a body, or 0 past its end.
// Stays: what may not change: `number_at`, by which `decoded` says what any body means, reads 0 there.
#[tactic(auto, unfolding(crate::specs::Format::number_at))]
pub fn byte_at(body: &[u8], k: usize) -> u8
    ensures { result ≡ number_at body.now k 1 }
{
    match body.get(k) {
        Some(byte) => *byte,
        None => 0,
    }
}

#[tactic(auto, unfolding(crate::specs::Format::number_at))]
fn u16_at(body: &[u8], k: usize) -> u16
    requires { k + 1 < 2 ^ 64 }
    ensures { result ≡ number_at body.now k 2 }
{
    u16::from_le_bytes([byte_at(body, k), byte_at(body, k + 1)])
}

#[tactic(auto, unfolding(crate::specs::Format::number_at))]
fn u64_at(body: &[u8], k: usize) -> u64
    requires { k + 7 < 2 ^ 64 }
    ensures { result ≡ number_at body.now k 8 }
{
    u64::from_le_bytes([
        byte_at(body, k),
        byte_at(body, k + 1),
        byte_at(body, k + 2),
        byte_at(body, k + 3),
        byte_at(body, k + 4),
        byte_at(body, k + 5),
        byte_at(body, k + 6),
        byte_at(body, k + 7),
    ])
}

// ---- a body by its tag

fn is_width(code: u8) -> bool
    ensures { result ≡ is_width code }
{
    matches!(code, 1 | 2 | 4 | 8)
}

// The call, if the body has its size and its first number is one that may stand there.
fn checked(body: &[u8], size: usize, may_start: bool, call: Call) -> Option<Call>
    ensures { result ≡ checked body.now size may_start call }
{
    if body.len() == size && may_start {
        Some(call)
    } else {
        None
    }
}

// A body of the I/O APIC's fields by its tag: its size, whether its first number may stand there, and its call.
// Stays: what may not change: `decoded` has an answer for each byte that may stand in the script as a tag.
fn decode_io(tag: u8, body: &[u8]) -> Option<Call>
    ensures { result ≡ decoded_in io_formats tag body.now }
{
    match tag {
        0x01 => {
            let width = byte_at(body, 0);
            let call = IoCall::HandleRead {
                addr: u64_at(body, 1),
                width,
            };
            checked(body, 9, is_width(width), Call::Io(call))
        }
        0x02 => {
            let width = byte_at(body, 0);
            let call = IoCall::HandleWrite {
                addr: u64_at(body, 1),
                width,
                value: u64_at(body, 9),
            };
            checked(body, 17, is_width(width), Call::Io(call))
        }
        0x03 => {
            let gsi = Gsi(usize::from(byte_at(body, 0)));
            let call = IoCall::SetGsiLevel(gsi, byte_at(body, 1) != 0);
            checked(body, 2, true, Call::Io(call))
        }
        0x04 => {
            let call = IoCall::AssertGsi(Gsi(usize::from(byte_at(body, 0))));
            checked(body, 1, true, Call::Io(call))
        }
        0x05 => {
            let call = IoCall::EndOfInterrupt(Vector(byte_at(body, 0)));
            checked(body, 1, true, Call::Io(call))
        }
        0x06 => {
            let number = u64::from(byte_at(body, 0));
            let call = Call::IoVersion(IoApicVersion::of(number));
            checked(body, 1, is_version(number), call)
        }
        _ => None,
    }
}

// Of the pair's.
// Stays: what may not change: the tag, as at `decode_io`.
fn decode_pic(tag: u8, body: &[u8]) -> Option<Call>
    ensures { result ≡ decoded_in pic_formats tag body.now }
{
    match tag {
        0x10 => {
            let width = byte_at(body, 0);
            let call = PicCall::HandleRead {
                port: u16_at(body, 1),
                width,
            };
            checked(body, 3, is_width(width), Call::Pic(call))
        }
        0x11 => {
            let width = byte_at(body, 0);
            let call = PicCall::HandleWrite {
                port: u16_at(body, 1),
                width,
                value: u64_at(body, 3),
            };
            checked(body, 11, is_width(width), Call::Pic(call))
        }
        0x12 => {
            let call = PicCall::ClaimIrq(PicLine(byte_at(body, 0)));
            checked(body, 1, true, Call::Pic(call))
        }
        0x13 => {
            let call = PicCall::ClaimPendingInterrupt;
            checked(body, 0, true, Call::Pic(call))
        }
        0x14 => {
            let flags = byte_at(body, 2);
            let call = PicCall::RestoreInterrupt(PicInterruptClaim {
                vector: Vector(byte_at(body, 0)),
                irq: PicLine(byte_at(body, 1)),
                master_in_service: flags % 2 == 1,
                slave_in_service: flags / 2 % 2 == 1,
            });
            checked(body, 3, true, Call::Pic(call))
        }
        0x16 => {
            let number = u64::from(byte_at(body, 0));
            let call = Call::PicRule(PicRule::from_number(number));
            checked(body, 1, PicRule::is_number(number), call)
        }
        _ => None,
    }
}

// Of the local APIC's.
// Stays: what may not change: the tag, as at `decode_io`.
fn decode_apic(tag: u8, body: &[u8]) -> Option<Call>
    ensures { result ≡ decoded_in apic_formats tag body.now }
{
    match tag {
        0x20 => {
            let call = ApicCall::AcceptInterrupt(Vector(byte_at(body, 0)), byte_at(body, 1) != 0);
            checked(body, 2, true, Call::Apic(call))
        }
        0x21 => {
            let width = byte_at(body, 0);
            let call = ApicCall::HandleWrite {
                offset: u64::from(u16_at(body, 1)),
                width,
                value: u64_at(body, 3),
            };
            checked(body, 11, is_width(width), Call::Apic(call))
        }
        0x22 => {
            let call = ApicCall::HandleEoi;
            checked(body, 0, true, Call::Apic(call))
        }
        0x23 => {
            let call = ApicCall::HandleRead(u64::from(u16_at(body, 0)));
            checked(body, 2, true, Call::Apic(call))
        }
        0x24 => {
            let call = ApicCall::Setup {
                x2apic: byte_at(body, 0) != 0,
                vcpu_id: VcpuId(usize::from(byte_at(body, 1))),
                vcpu_num: usize::from(byte_at(body, 2)),
                active_vcpus: u64_at(body, 3),
            };
            checked(body, 11, true, Call::Apic(call))
        }
        _ => None,
    }
}

// Of the board's.
// Stays: what may not change: the tag, as at `decode_io`.
fn decode_board(tag: u8, body: &[u8]) -> Option<Call>
    ensures { result ≡ decoded_in board_formats tag body.now }
{
    match tag {
        0x30 => {
            let gsi = Gsi(usize::from(byte_at(body, 0)));
            let call = BoardCall::SetGsiLevel(gsi, byte_at(body, 1) != 0);
            checked(body, 2, true, Call::Board(call))
        }
        0x31 => {
            let call = BoardCall::AcceptInterrupt;
            checked(body, 0, true, Call::Board(call))
        }
        0x32 => {
            let call = BoardCall::HandleEoi;
            checked(body, 0, true, Call::Board(call))
        }
        0x33 => {
            let call = BoardCall::WriteTpr(byte_at(body, 0));
            checked(body, 1, true, Call::Board(call))
        }
        0x34 => {
            let width = byte_at(body, 0);
            let call = BoardCall::HandleWrite {
                addr: u64_at(body, 1),
                width,
                value: u64_at(body, 9),
            };
            checked(body, 17, is_width(width), Call::Board(call))
        }
        0x35 => {
            let call = BoardCall::Receive(Vector(byte_at(body, 0)), byte_at(body, 1) != 0);
            checked(body, 2, true, Call::Board(call))
        }
        _ => None,
    }
}

// A body by its tag.
// Stays: what may not change: the tag, as at `decode_io`.
pub fn decode(tag: u8, body: &[u8]) -> Option<Call>
    ensures { result ≡ decoded tag body.now }
{
    if tag < 0x10 {
        return decode_io(tag, body);
    }
    if tag < 0x20 {
        return decode_pic(tag, body);
    }
    if tag < 0x30 {
        return decode_apic(tag, body);
    }
    decode_board(tag, body)
}

// ---- a field

// A field with this tag, if its body says a call; it ends where the next one starts.
// Stays: what may not change: the tag, as at `decode_io`.
pub fn field_of<C: Copy>(
    tag: u8,
    body: Option<C>,
    next: usize,
) -> Result<Option<Field<C>>, BadField>
    ensures { result ≡ field_of tag body next }
{
    let call = body.ok_or(BadField)?;
    let next = Cursor { at: next };
    Ok(Some(Field { tag, call, next }))
}

impl Cursor {
    // What stands at this place of the script: a field, or nothing at the script's end.
    pub fn read(self, script: &[u8]) -> Result<Option<Field<Call>>, BadField>
        ensures { result ≡ field_at script.now self.at }
    {
        let at = self.at;
        if script.len() <= at {
            return Ok(None);
        }
        if script.len() - at < 3 {
            return Err(BadField);
        }
        let tag = script[at];
        let size = usize::from(u16_at(script, at + 1));
        let start = at + 3;
        if script.len() - start < size {
            return Err(BadField);
        }
        let next = start + size;
        field_of(tag, decode(tag, &script[start..next]), next)
    }
}
