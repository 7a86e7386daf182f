// Interrupts that wait for a stopped vCPU (document 02, T-13): a waiting list of 64 places for each vCPU, the oldest first out, in place over bytes that the caller lends.
//
// A list is 66 bytes: 64 places in a ring, then the head, which is the place of the oldest, and how many wait. A head is taken modulo 64, and a count above 64, which no
// call leaves, for 64: any bytes are a list, and zeros are an empty one. The lists of a host's vCPUs lie one behind the other, a vCPU's list at 66 times its id; how many
// vCPUs there are is said by the number of bytes.

#![tactic(auto)]

ghost use Rattle.std.specs.Prelude.{◌≡◌, ◌+◌, ◌≤◌, ◌<◌, length, unwrap_or, IfSome, IfOk};
ghost use Rattle.types.specs.Reply.{outcome_of};
ghost use Rattle.waiting.specs.Waiting as one;
ghost use Rattle.waiting.specs.Waiting.{around, size_of, view, new_list};
ghost use Rattle.waiting.specs.Steps.{closed, index_of, start_in};
ghost use Rattle.waiting.specs.Lists.{vcpus_in, lists_in, known_in, new, take, deliver, cancel, count, peek};
ghost use Rattle.waiting.specs.Answers.{taken_reply, waited_reply, counted_reply};

use types::{Refusal, VcpuId, Vector};

pub const LIST_BYTES: usize = 66;

// The largest number of vCPUs.
pub const VCPUS: usize = 64;

const PLACES: usize = 64;

// Where the head and the count stand.
const HEAD: usize = 64;

const COUNT: usize = 65;

// ---- One list.

// How many wait by the count's byte.
fn size(count: u8) -> usize
    ensures { (result ≡ size_of count) × (result ≤ 64) }
{
    if count < 64 { usize::from(count) } else { 64 }
}

fn take_in(list: &mut [u8], vector: Vector) -> Result<(), Refusal>
    requires { length list.old ≡ 66 }
    ensures { outcome_of (view list.new) (taken_reply result) ≡ one.take (view list.old) vector }
{
    let n = list[COUNT];
    if n >= 64 {
        return Err(Refusal::ListFull);
    }
    let place = (usize::from(list[HEAD]) + usize::from(n)) % PLACES;
    list[place] = vector.0;
    list[COUNT] = n + 1;
    Ok(())
}

fn deliver_from(list: &mut [u8]) -> Result<Option<Vector>, Refusal>
    requires { length list.old ≡ 66 }
    ensures { outcome_of (view list.new) (waited_reply result) ≡ one.deliver (view list.old) }
{
    let n = size(list[COUNT]);
    if n == 0 {
        return Ok(None);
    }
    let place = usize::from(list[HEAD]) % PLACES;
    let vector = Vector(list[place]);
    list[place] = 0;
    list[HEAD] = ((place + 1) % PLACES) as u8;
    list[COUNT] = (n - 1) as u8;
    Ok(Some(vector))
}

// Stays: the C interface: a list is 66 bytes, a ring of 64 places.
// How many of the n that wait are older than the oldest of a vector, where one has it.
fn index_of(list: &[u8], head: usize, n: usize, vector: u8) -> Option<usize>
    requires { (length list.now ≡ 66) × (head < 256) × (n ≤ 64) }
    ensures index { unwrap_or result n ≡ index_of vector (around list.now head n) }
    ensures within { IfSome result (λ k. k < n) }
{
    for k in 0..n {
        if list[(head + k) % PLACES] == vector {
            return Some(k);
        }
    }
    None
}

// Stays: the C interface: a list is 66 bytes, a ring of 64 places.
// The `more` vectors behind a place move up to it, and the last one's place is cleared.
fn close(list: &mut [u8], at: usize, more: usize)
    requires { (length list.old ≡ 66) × (at < 512) × (more < 64) }
    ensures { list.new ≡ closed list.old at more }
{
    for place in at..at + more {
        list[place % PLACES] = list[(place + 1) % PLACES];
    }
    list[(at + more) % PLACES] = 0;
}

fn cancel_in(list: &mut [u8], vector: Vector) -> Result<Option<Vector>, Refusal>
    requires { length list.old ≡ 66 }
    ensures { outcome_of (view list.new) (waited_reply result) ≡ one.cancel (view list.old) vector }
{
    let n = size(list[COUNT]);
    let head = usize::from(list[HEAD]);
    let Some(k) = index_of(list, head, n, vector.0) else {
        return Ok(None);
    };
    close(list, head + k, n - 1 - k);
    list[COUNT] = (n - 1) as u8;
    Ok(Some(vector))
}

fn count_of(list: &[u8]) -> Result<u8, Refusal>
    requires { length list.now ≡ 66 }
    ensures { outcome_of (view list.now) (counted_reply result) ≡ one.count (view list.now) }
{
    Ok(size(list[COUNT]) as u8)
}

fn peek_at(list: &[u8], k: usize) -> Result<Option<Vector>, Refusal>
    requires { length list.now ≡ 66 }
    ensures { outcome_of (view list.now) (waited_reply result) ≡ one.peek (view list.now) k }
{
    let n = size(list[COUNT]);
    if k >= n {
        return Ok(None);
    }
    Ok(Some(Vector(list[(usize::from(list[HEAD]) + k) % PLACES])))
}

// ---- The lists of a host's vCPUs.

// How many vCPUs have a list in bytes of this number.
pub fn vcpus(bytes: usize) -> usize
    ensures { result ≡ vcpus_in bytes }
{
    let n = bytes / LIST_BYTES;
    if n < VCPUS {
        return n;
    }
    VCPUS
}

// Whether a vCPU has a list.
pub fn is_known(lists: &[u8], vcpu: VcpuId) -> bool
    ensures { result ≡ known_in (lists_in lists.now) vcpu }
{
    vcpu.0 < vcpus(lists.len())
}

// Where a vCPU's list starts; refused for a vCPU that has none.
fn start(bytes: usize, vcpu: VcpuId) -> Result<usize, Refusal>
    ensures place { result ≡ start_in bytes vcpu }
    ensures fits { IfOk result (λ start. start + 66 ≤ bytes) }
{
    if vcpu.0 >= vcpus(bytes) {
        return Err(Refusal::OutOfRange);
    }
    Ok(vcpu.0 * LIST_BYTES)
}

// A new list for a vCPU: nothing waits.
// Stays: the C interface lends the lists of all vCPUs as bytes, and names one by its id.
pub fn new(lists: &mut [u8], vcpu: VcpuId) -> Result<(), Refusal>
    ensures { outcome_of (lists_in lists.new) (taken_reply result) ≡ new (lists_in lists.old) vcpu }
{
    let start = start(lists.len(), vcpu)?;
    lists[start..start + LIST_BYTES].copy_from_slice(&[0; LIST_BYTES]);
    Ok(())
}

// Takes an interrupt in for a vCPU.
pub fn take(lists: &mut [u8], vcpu: VcpuId, vector: Vector) -> Result<(), Refusal>
    ensures { outcome_of (lists_in lists.new) (taken_reply result) ≡ take (lists_in lists.old) vcpu vector }
{
    let start = start(lists.len(), vcpu)?;
    take_in(&mut lists[start..start + LIST_BYTES], vector)
}

// Delivers a vCPU's oldest.
pub fn deliver(lists: &mut [u8], vcpu: VcpuId) -> Result<Option<Vector>, Refusal>
    ensures { outcome_of (lists_in lists.new) (waited_reply result) ≡ deliver (lists_in lists.old) vcpu }
{
    let start = start(lists.len(), vcpu)?;
    deliver_from(&mut lists[start..start + LIST_BYTES])
}

// Cancels a vCPU's oldest of a vector.
pub fn cancel(lists: &mut [u8], vcpu: VcpuId, vector: Vector) -> Result<Option<Vector>, Refusal>
    ensures { outcome_of (lists_in lists.new) (waited_reply result) ≡ cancel (lists_in lists.old) vcpu vector }
{
    let start = start(lists.len(), vcpu)?;
    cancel_in(&mut lists[start..start + LIST_BYTES], vector)
}

// How many wait for a vCPU.
pub fn count(lists: &[u8], vcpu: VcpuId) -> Result<u8, Refusal>
    ensures { outcome_of (lists_in lists.now) (counted_reply result) ≡ count (lists_in lists.now) vcpu }
{
    let start = start(lists.len(), vcpu)?;
    count_of(&lists[start..start + LIST_BYTES])
}

// The vector that waits behind k others of a vCPU.
pub fn peek(lists: &[u8], vcpu: VcpuId, k: usize) -> Result<Option<Vector>, Refusal>
    ensures { outcome_of (lists_in lists.now) (waited_reply result) ≡ peek (lists_in lists.now) vcpu k }
{
    let start = start(lists.len(), vcpu)?;
    peek_at(&lists[start..start + LIST_BYTES], k)
}

// ---- One list by value: it lends its bytes, and is handed back beside the answer.

#[derive(Clone, Copy, Debug, PartialEq, Eq, Hash)]
pub struct WaitingList {
    pub bytes: [u8; 66],
}

impl WaitingList {
    pub fn new() -> Self
        ensures { view result.bytes ≡ new_list }
    {
        WaitingList {
            bytes: [0; LIST_BYTES],
        }
    }

    pub fn take(mut self, vector: Vector) -> (Self, Result<(), Refusal>)
        ensures { outcome_of (view result.0.bytes) (taken_reply result.1) ≡ one.take (view self.bytes) vector }
    {
        let taken = take_in(&mut self.bytes, vector);
        (self, taken)
    }

    pub fn deliver(mut self) -> (Self, Result<Option<Vector>, Refusal>)
        ensures { outcome_of (view result.0.bytes) (waited_reply result.1) ≡ one.deliver (view self.bytes) }
    {
        let waited = deliver_from(&mut self.bytes);
        (self, waited)
    }

    pub fn cancel(mut self, vector: Vector) -> (Self, Result<Option<Vector>, Refusal>)
        ensures { outcome_of (view result.0.bytes) (waited_reply result.1) ≡ one.cancel (view self.bytes) vector }
    {
        let waited = cancel_in(&mut self.bytes, vector);
        (self, waited)
    }
}
