// Copyright 2025 The Axvisor Team
//
// Licensed under the Apache License, Version 2.0 (the text stands in LICENSE).
//
// Changed: ported to Rattle from vlapic.rs of the Rust crate x86_vlapic 0.5.4: the loop of `find_isrv`, and what the
// Rust does in place to a bit of ISR or TMR, on eight words by value.

ghost use Rattle.std.specs.Prelude.{◌≡◌};
ghost use Rattle.vlapic_regs.specs.Vectors.{in_words, with_vector, without_vector, highest_from};

use types::Vector;
use utils::Set;

// The highest vector in service from 32 to 255, or 0: words 7 down to 1, those that are 0 passed over, and in each its
// bits from 31 down; the first set bit ends both loops.
// Stays: what may not change (the clause: `highest_from` is 0 where there is none) keeps 0 for none.
pub fn find_isrv(isr: [u32; 8]) -> Vector
    ensures { result.0 ≡ highest_from 32 isr }
{
    'search: {
        'words: for word in (1..8).rev() {
            if isr[word].is_empty() {
                continue 'words;
            }
            'bits: for bit in (0..32).rev() {
                if isr[word].has(bit) {
                    break 'search Vector(word as u8 * 32 + bit as u8);
                }
            }
        }
        Vector(0)
    }
}

pub fn has(words: [u32; 8], vector: Vector) -> bool
    ensures { result ≡ in_words words vector.0 }
{
    let at = utils::extract_index_and_bitpos_u32(u32::from(vector.0));
    words[at.index].has(at.bitpos)
}

pub fn with(mut words: [u32; 8], vector: Vector) -> [u32; 8]
    ensures { result ≡ with_vector words vector.0 }
{
    let at = utils::extract_index_and_bitpos_u32(u32::from(vector.0));
    words[at.index] = words[at.index].with(at.bitpos);
    words
}

pub fn without(mut words: [u32; 8], vector: Vector) -> [u32; 8]
    ensures { result ≡ without_vector words vector.0 }
{
    let at = utils::extract_index_and_bitpos_u32(u32::from(vector.0));
    words[at.index] = words[at.index].without(at.bitpos);
    words
}
