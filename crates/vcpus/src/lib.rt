// The local APICs of up to 64 vCPUs, a lent slice of records: a write of a register that sends an IPI changes the
// records of those whom it reaches, and the sender's. Each function here passes over the slice or calls one that does;
// what is done to one record is in crate vcpus_ipi.

#![tactic(auto)]

ghost use Rattle.std.specs.Prelude.{◌≡◌};
ghost use Rattle.vcpus_ipi.specs.Ipi.{ask_of, send_ipi};
ghost use Rattle.vcpus_ipi.specs.Steps.{seen_all, changed_all, left, leaves};
ghost use Rattle.vcpus.specs.Call.{left_after};

use types::VcpuId;
use vcpus_ipi::{Effect, Plan, Sent, Vcpu};

// Every record is looked at.
fn scan(records: &[Vcpu], plan: Plan) -> Plan
    ensures { result ≡ seen_all 0 plan records.now }
{
    let mut seen = plan;
    for (at, vcpu) in records.iter().enumerate() {
        seen = vcpus_ipi::seen(seen, *vcpu, at);
    }
    seen
}

// Every record becomes what the effect leaves of it.
fn deliver(records: &mut [Vcpu], effect: Effect)
    ensures { records.new ≡ changed_all effect 0 records.old }
{
    for (at, vcpu) in records.iter_mut().enumerate() {
        *vcpu = vcpus_ipi::changed(*vcpu, effect, at);
    }
}

// A write of the ICR or of SELF IPI by vCPU `sender`, `width` bytes wide, where the vCPUs in `active` are active. C and
// Rust link it by `vcpus_c`.
pub fn sillwander_vcpus_send(
    records: &mut [Vcpu],
    sender: usize,
    offset: u64,
    value: u64,
    width: u64,
    active: u64,
) -> Sent
    ensures { left records.new result ≡ leaves (send_ipi records.old (ask_of sender offset value width active)) }
{
    let begun = vcpus_ipi::begin(records.len(), sender, offset, value, width, active);
    let found = scan(records, begun);
    let asked = vcpus_ipi::asked(found);
    let reached = scan(records, asked);
    let effect = vcpus_ipi::decide(reached);
    deliver(records, effect);
    vcpus_ipi::answer(effect)
}

// 64 vCPUs by value.
#[derive(Clone, Copy, Debug, PartialEq, Eq, Hash)]
pub struct Vcpus {
    pub records: [Vcpu; 64],
}

impl Vcpus {
    // The same by value: the vCPUs after the call, and what the caller is answered.
    pub fn send(
        mut self,
        sender: VcpuId,
        offset: u64,
        value: u64,
        width: u8,
        active: u64,
    ) -> (Vcpus, Sent)
        ensures { left_after result ≡ leaves (send_ipi self.records (ask_of sender.0 offset value width active)) }
    {
        let sent = sillwander_vcpus_send(
            &mut self.records,
            sender.0,
            offset,
            value,
            u64::from(width),
            active,
        );
        (self, sent)
    }
}
