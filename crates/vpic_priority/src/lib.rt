// An 8259's priorities, which rotation turns: its lines on a ring, of which one is lowest today. Not in the Rust, which ignores rotation.

#![tactic(auto)]

ghost use Rattle.std.specs.Prelude.{◌≡◌};
ghost use Rattle.utils.specs.Set.{bit};
ghost use Rattle.vpic_priority.specs.Ring.{rank, above, first_by};

mod table;

// The highest line of a set, or 8 where the set is empty. Any number is taken for a lowest line, by its remainder.
// Stays: what may not change: `first_by` has 8 for none, whose rank is below that of all lines: the chip's rule compares.
pub fn first_line(lowest: u8, set: u8) -> u8
    ensures { result ≡ first_by lowest (bit set) }
{
    table::FIRST_LINE[lowest as usize % 8 * 256 + set as usize]
}

// How many lines a line has above it; a line that a chip hasn't is below all eight.
fn rank(lowest: u8, line: u8) -> u8
    ensures { result ≡ rank lowest line }
{
    if line >= 8 {
        return 8;
    }
    (line + 7 - lowest % 8) % 8
}

// Whether the one line is above the other.
pub fn is_above(lowest: u8, line: u8, other: u8) -> bool
    ensures { result ≡ above lowest line other }
{
    rank(lowest, line) < rank(lowest, other)
}
