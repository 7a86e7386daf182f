// What C and Rust link of `vcpus`: its call on lent records, under the same name and with the same promise.

#![tactic(auto)]

ghost use Rattle.std.specs.Prelude.{◌≡◌};
ghost use Rattle.vcpus_ipi.specs.Ipi.{ask_of, send_ipi};
ghost use Rattle.vcpus_ipi.specs.Steps.{left, leaves};

use vcpus_ipi::{Sent, Vcpu};

#[unsafe(no_mangle)]
pub extern "C" fn sillwander_vcpus_send(
    records: &mut [Vcpu],
    sender: usize,
    offset: u64,
    value: u64,
    width: u64,
    active: u64,
) -> Sent
    ensures { left records.new result ≡ leaves (send_ipi records.old (ask_of sender offset value width active)) }
{
    vcpus::sillwander_vcpus_send(records, sender, offset, value, width, active)
}
