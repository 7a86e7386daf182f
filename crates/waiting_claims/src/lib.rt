// The pair's claims for a vCPU that is stopped (document 02, T-13): a claimed vector goes into the vCPU's waiting list. Where that has no place left, the claim is restored by the
// same call, so that nothing is lost: the pair still has its request.

#![tactic(auto)]

ghost use Rattle.std.specs.Prelude.{◌≡◌, true};
ghost use Rattle.types.specs.Reply.{outcome_of};
ghost use Rattle.vpic.specs.Words.{view};
ghost use Rattle.waiting.specs.Lists.{lists_in, known_in};
ghost use Rattle.waiting_claims.specs.Claims.{host, waiting_reply, handed, claim_irq_for, claim_pending_for};

use types::{PicLine, Refusal, VcpuId};
use vpic::PicInterruptClaim;

// A claim goes into the list of a vCPU that has one, or back to the pair.
fn hand(
    lists: &mut [u8],
    pic: &mut [u64; 4],
    vcpu: VcpuId,
    claim: Option<PicInterruptClaim>,
) -> Result<Option<PicInterruptClaim>, Refusal>
    requires { known_in (lists_in lists.old) vcpu ≡ true }
    ensures { outcome_of (host (lists_in lists.new) (view pic.new)) (waiting_reply result) ≡ handed (lists_in lists.old) (view pic.old) vcpu claim }
{
    let Some(claim) = claim else {
        return Ok(None);
    };
    match waiting::take(lists, vcpu, claim.vector) {
        Ok(()) => Ok(Some(claim)),
        Err(why) => {
            let _ = vpic::restore_interrupt(pic, claim);
            Err(why)
        }
    }
}

// Stays: the C interface lends the lists and the pair side by side.
// Raises a line, and claims for a vCPU what the pair has to deliver: a claim whose vector waits now, or none.
pub fn claim_irq(
    lists: &mut [u8],
    pic: &mut [u64; 4],
    vcpu: VcpuId,
    irq: PicLine,
) -> Result<Option<PicInterruptClaim>, Refusal>
    ensures { outcome_of (host (lists_in lists.new) (view pic.new)) (waiting_reply result) ≡ claim_irq_for (host (lists_in lists.old) (view pic.old)) vcpu irq }
{
    if !waiting::is_known(lists, vcpu) {
        return Err(Refusal::OutOfRange);
    }
    let claim = vpic::claim_irq(pic, irq);
    hand(lists, pic, vcpu, claim)
}

// Claims for a vCPU what became deliverable after the guest changed the chips.
pub fn claim_pending_interrupt(
    lists: &mut [u8],
    pic: &mut [u64; 4],
    vcpu: VcpuId,
) -> Result<Option<PicInterruptClaim>, Refusal>
    ensures { outcome_of (host (lists_in lists.new) (view pic.new)) (waiting_reply result) ≡ claim_pending_for (host (lists_in lists.old) (view pic.old)) vcpu }
{
    if !waiting::is_known(lists, vcpu) {
        return Err(Refusal::OutOfRange);
    }
    let claim = vpic::claim_pending_interrupt(pic);
    hand(lists, pic, vcpu, claim)
}
