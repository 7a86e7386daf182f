// The boundary of the board: each call is the board's own over the words of its two chips that a caller in C or Rust
// lends (include/sillwander.h has their layout), its reply as a code.

#![tactic(auto)]

ghost use Rattle.std.specs.Prelude.{◌≡◌, List, ℕ};
ghost use Rattle.reply_code.specs.Lent.{is_up};
ghost use Rattle.board.specs.Board.{board_in};
ghost use Rattle.board.specs.Promise.{Makes};
ghost use Rattle.board.specs.Calls.{outcome, SetGsiLevel, AcceptInterrupt, HandleEoi, WriteTpr, HandleWrite};
ghost use Rattle.board_c.specs.Calls.{Coded, receive_number};

use reply_code::{code, is_up};
use types::{Gsi, Refusal, Reply, ToReply, Vector};

#[unsafe(no_mangle)]
pub extern "C" fn sillwander_board_new(ioapic: &mut [u64; 32], apic: &mut [u64; 48]) -> u64
    ensures { Makes ioapic.new apic.new × (result ≡ 0) }
{
    board::new(ioapic, apic);
    0
}

#[unsafe(no_mangle)]
pub extern "C" fn sillwander_board_set_gsi_level(
    ioapic: &mut [u64; 32],
    apic: &mut [u64; 48],
    gsi: usize,
    asserted: u64,
) -> u64
    ensures { Coded ioapic.old ioapic.new apic.old apic.new result (outcome (board_in ioapic.old apic.old) (SetGsiLevel (record { 0 = gsi }) (is_up asserted))) }
{
    code(board::set_gsi_level(ioapic, apic, Gsi(gsi), is_up(asserted)).reply())
}

// Whatever the I/O APIC holds.
#[unsafe(no_mangle)]
pub extern "C" fn sillwander_board_accept_interrupt(apic: &mut [u64; 48]) -> u64
    ensures { (io : List ℕ) → Coded io io apic.old apic.new result (outcome (board_in io apic.old) AcceptInterrupt) }
{
    code(board::accept_interrupt(apic).reply())
}

#[unsafe(no_mangle)]
pub extern "C" fn sillwander_board_handle_eoi(ioapic: &mut [u64; 32], apic: &mut [u64; 48]) -> u64
    ensures { Coded ioapic.old ioapic.new apic.old apic.new result (outcome (board_in ioapic.old apic.old) HandleEoi) }
{
    code(board::handle_eoi(ioapic, apic).reply())
}

// Whatever the I/O APIC holds.
#[unsafe(no_mangle)]
pub extern "C" fn sillwander_board_write_tpr(apic: &mut [u64; 48], value: u64) -> u64
    ensures { (io : List ℕ) → Coded io io apic.old apic.new result (outcome (board_in io apic.old) (WriteTpr value)) }
{
    board::write_tpr(apic, (value % 0x100) as u32);
    0
}

#[unsafe(no_mangle)]
pub extern "C" fn sillwander_board_handle_write(
    ioapic: &mut [u64; 32],
    apic: &mut [u64; 48],
    addr: u64,
    width: u64,
    value: u64,
) -> u64
    ensures { Coded ioapic.old ioapic.new apic.old apic.new result (outcome (board_in ioapic.old apic.old) (HandleWrite addr width value)) }
{
    code(board::handle_write(ioapic, apic, addr, width, value).reply())
}

// Whatever the I/O APIC holds.
#[unsafe(no_mangle)]
pub extern "C" fn sillwander_board_receive(
    apic: &mut [u64; 48],
    vector: u64,
    level_triggered: u64,
) -> u64
    ensures { (io : List ℕ) → Coded io io apic.old apic.new result (receive_number (board_in io apic.old) vector level_triggered) }
{
    if vector > 255 {
        return code(Reply::Refused(Refusal::OutOfRange));
    }
    board::receive(apic, Vector(vector as u8), is_up(level_triggered));
    0
}
