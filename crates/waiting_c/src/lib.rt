// What C and Rust link: the waiting lists over bytes that the caller lends, and the pair's claims into them over the pair's four words (include/sillwander.h has the layouts),
// each reply as a code. Numbers come in at their full width, and none is cut.

#![tactic(auto)]

ghost use Rattle.std.specs.Prelude.{◌≡◌};
ghost use Rattle.vpic.specs.Words.{view};
ghost use Rattle.waiting.specs.Lists.{lists_in, new, deliver, count, peek};
ghost use Rattle.waiting_claims.specs.Claims.{host, claim_irq_for, claim_pending_for};
ghost use Rattle.waiting_c.specs.Calls.{shown, coded, vcpu, take_number, cancel_number};

use reply_code::code;
use types::{PicLine, Refusal, Reply, ToReply, VcpuId, Vector};

// Stays: the C interface.
#[unsafe(no_mangle)]
pub extern "C" fn sillwander_waiting_new(lists: &mut [u8], vcpu_id: usize) -> u64
    ensures { shown (lists_in lists.new) result ≡ coded (new (lists_in lists.old) (vcpu vcpu_id)) }
{
    code(waiting::new(lists, VcpuId(vcpu_id)).reply())
}

#[unsafe(no_mangle)]
pub extern "C" fn sillwander_waiting_take(lists: &mut [u8], vcpu_id: usize, vector: u64) -> u64
    ensures { shown (lists_in lists.new) result ≡ coded (take_number (lists_in lists.old) (vcpu vcpu_id) vector) }
{
    if vector > 255 {
        return code(Reply::Refused(Refusal::OutOfRange));
    }
    code(waiting::take(lists, VcpuId(vcpu_id), Vector(vector as u8)).reply())
}

#[unsafe(no_mangle)]
pub extern "C" fn sillwander_waiting_deliver(lists: &mut [u8], vcpu_id: usize) -> u64
    ensures { shown (lists_in lists.new) result ≡ coded (deliver (lists_in lists.old) (vcpu vcpu_id)) }
{
    code(waiting::deliver(lists, VcpuId(vcpu_id)).reply())
}

#[unsafe(no_mangle)]
pub extern "C" fn sillwander_waiting_cancel(lists: &mut [u8], vcpu_id: usize, vector: u64) -> u64
    ensures { shown (lists_in lists.new) result ≡ coded (cancel_number (lists_in lists.old) (vcpu vcpu_id) vector) }
{
    if vector > 255 {
        return code(Reply::Refused(Refusal::OutOfRange));
    }
    code(waiting::cancel(lists, VcpuId(vcpu_id), Vector(vector as u8)).reply())
}

#[unsafe(no_mangle)]
pub extern "C" fn sillwander_waiting_count(lists: &[u8], vcpu_id: usize) -> u64
    ensures { shown (lists_in lists.now) result ≡ coded (count (lists_in lists.now) (vcpu vcpu_id)) }
{
    code(waiting::count(lists, VcpuId(vcpu_id)).reply())
}

// Stays: the C interface.
#[unsafe(no_mangle)]
pub extern "C" fn sillwander_waiting_peek(lists: &[u8], vcpu_id: usize, place: usize) -> u64
    ensures { shown (lists_in lists.now) result ≡ coded (peek (lists_in lists.now) (vcpu vcpu_id) place) }
{
    code(waiting::peek(lists, VcpuId(vcpu_id), place).reply())
}

#[unsafe(no_mangle)]
pub extern "C" fn sillwander_waiting_claim_irq(
    lists: &mut [u8],
    pic: &mut [u64; 4],
    vcpu_id: usize,
    irq: u64,
) -> u64
    ensures { shown (host (lists_in lists.new) (view pic.new)) result ≡ coded (claim_irq_for (host (lists_in lists.old) (view pic.old)) (vcpu vcpu_id) (record { 0 = irq })) }
{
    code(waiting_claims::claim_irq(lists, pic, VcpuId(vcpu_id), PicLine::of_number(irq)).reply())
}

#[unsafe(no_mangle)]
pub extern "C" fn sillwander_waiting_claim_pending_interrupt(
    lists: &mut [u8],
    pic: &mut [u64; 4],
    vcpu_id: usize,
) -> u64
    ensures { shown (host (lists_in lists.new) (view pic.new)) result ≡ coded (claim_pending_for (host (lists_in lists.old) (view pic.old)) (vcpu vcpu_id)) }
{
    code(waiting_claims::claim_pending_interrupt(lists, pic, VcpuId(vcpu_id)).reply())
}
