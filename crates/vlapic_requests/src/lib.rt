// The local APIC with its request register, in place over its 48 words (crate vlapic_words; the third array of eight is
// IRR). Not in the Rust crate: there the processor keeps the requests, and what it accepted is told. Vectors 16 to 255
// count.

#![tactic(auto)]

ghost use Rattle.types.specs.declared.Vector.{Vector};
ghost use Rattle.std.specs.Prelude.{◌+◌, ◌*◌, ◌<◌, ◌≡◌, set, Option};
ghost use Rattle.utils.specs.Set.{marked, last_set32};
ghost use Rattle.vlapic_regs.specs.Vectors.{in_words};
ghost use Rattle.vlapic_words.specs.Words.{word, eight, view};
ghost use Rattle.vlapic_words.specs.Steps.{marked_in};
ghost use Rattle.vlapic_requests.specs.Requests.{highest, received_illegal, request, receive, accept, end_highest, write_tpr};
ghost use Rattle.vlapic_requests.specs.Promise.{Becomes, Answers, ranked_words};

use types::Vector;
use utils::{Set, holds, low, mark, put};
use vlapic_regs::register;

// ---- The words

const TPR: usize = 2;

const PPR: usize = 3;

const SVR: usize = 6;

const ESR_PENDING: usize = 8;

// The first words of ISR, TMR and IRR.
const ISR: usize = 18;

const TMR: usize = 26;

const IRR: usize = 34;

// The lowest vector that may be sent.
const LOWEST: u8 = 16;

// The error status register's bit "receive illegal vector".
const RECEIVE_ILLEGAL_VECTOR: u32 = 6;

// ---- Vectors

// The highest vector of a word that isn't empty.
#[tactic(auto, using(crate::proofs::Search::small))]
fn in_word(w: usize, held: u32) -> u8
    requires { (w < 8) × (held ≡ 0 → ⊥) }
    ensures { result ≡ w * 32 + last_set32 held }
{
    w as u8 * 32 + utils::fls32(held) as u8
}

// The highest vector of the eight words from `base` on, or 0: that of the highest word that isn't empty, if it is
// legal.
// Stays: what may not change (the clause: `highest_from` is 0 where there is none) keeps 0 for none.
fn highest(words: &[u64; 48], base: usize) -> Vector
    requires { base < 41 }
    ensures { result.0 ≡ highest (eight words.now base) }
{
    for w in (0..8).rev() {
        let held = low(words, base + w);
        if held != 0 {
            let vector = in_word(w, held);
            return if vector < LOWEST {
                Vector(0)
            } else {
                Vector(vector)
            };
        }
    }
    Vector(0)
}

// PPR by TPR and the highest vector in service.
fn rank(words: &mut [u64; 48])
    ensures { words.new ≡ ranked_words words.old }
{
    let served = highest(words, ISR);
    let ppr = register::ppr(low(words, TPR), served);
    put(words, PPR, ppr);
}

// ---- The calls

// An interrupt becomes a request, level- or edge-triggered.
pub fn request(words: &mut [u64; 48], vector: Vector, level: bool)
    ensures { Becomes words.old words.new (request (view words.old) vector level) }
{
    mark(words, IRR, vector.0, true);
    mark(words, TMR, vector.0, level);
}

// A vector below 16 came in: it is dropped.
fn receive_illegal(words: &mut [u64; 48])
    ensures { Becomes words.old words.new (received_illegal (view words.old)) }
{
    let noted = low(words, ESR_PENDING).with(RECEIVE_ILLEGAL_VECTOR);
    put(words, ESR_PENDING, noted);
}

// A message asks for a vector.
pub fn receive(words: &mut [u64; 48], vector: Vector, level: bool)
    ensures { Becomes words.old words.new (receive (view words.old) vector level) }
{
    if vector.0 < LOWEST {
        receive_illegal(words);
    } else {
        request(words, vector, level);
    }
}

// The processor accepts the highest request, if PPR lets it.
pub fn accept(words: &mut [u64; 48]) -> Option<Vector>
    ensures { Answers (Option Vector) words.old words.new result (accept (view words.old)) }
{
    let vector = highest(words, IRR);
    if utils::prio(low(words, PPR)) < utils::prio(u32::from(vector.0)) {
        mark(words, IRR, vector.0, false);
        mark(words, ISR, vector.0, true);
        rank(words);
        return Some(vector);
    }
    None
}

// A guest's EOI, and the vector that it broadcasts to the I/O APICs.
pub fn end_highest(words: &mut [u64; 48]) -> Option<Vector>
    ensures { Answers (Option Vector) words.old words.new result (end_highest (view words.old)) }
{
    let vector = highest(words, ISR);
    if vector.0 == 0 {
        return None;
    }
    let is_told = register::is_eoi_broadcast(holds(words, TMR, vector.0), low(words, SVR));
    mark(words, ISR, vector.0, false);
    rank(words);
    if is_told { Some(vector) } else { None }
}

// A write of TPR.
pub fn write_tpr(words: &mut [u64; 48], value: u32)
    ensures { Becomes words.old words.new (write_tpr (view words.old) value) }
{
    put(words, TPR, register::tpr(value));
    rank(words);
}
