// Why there is no plan: a range of vectors to which more lines are confined than it has free vectors.

ghost use Rattle.std.specs.Prelude.{◌≡◌, ◌≤◌, ◌<◌, length};
ghost use Rattle.utils.specs.Set.{set_of};
ghost use Rattle.planner.specs.Answers.{shown_reply, shortage_reply};
ghost use Rattle.planner.specs.Lines.{count};
ghost use Rattle.planner.specs.Shortage.{free_within, lies_within, confined, crowded, end_line, start_line, IsFirst, IsShown, shortage};

use crate::Lines;
use types::{Refusal, Reply, ToReply, Vector};
use utils::Set;

// More of these lines, a set, than free vectors from the lowest to the highest.
#[derive(Clone, Copy, Debug, PartialEq, Eq, Hash)]
pub struct CrowdedRange {
    pub lowest: Vector,
    pub highest: Vector,
    pub lines: u64,
}

impl ToReply for CrowdedRange {
    ghost reply_of = { shown_reply };

    fn reply(self) -> Reply {
        Reply::Three(
            u64::from(self.lowest.0),
            u64::from(self.highest.0),
            self.lines,
        )
    }
}

#[tactic(auto, unfolding(crate::specs::Shortage::free_within))]
fn free_within(taken: &[u64; 4], from: u8, to: u8, vector: u8) -> bool
    ensures { result ≡ free_within taken.now from to vector }
{
    from <= vector && vector <= to && crate::is_free(taken, Vector(vector))
}

// How many vectors of the range are free.
// Stays: the new form is no plainer (the ends come from two lines' ranges: a value of both would be made for each call).
#[tactic(auto, using(crate::proofs::Laws::count_le))]
pub fn count_free(taken: &[u64; 4], from: Vector, to: Vector) -> u64
    ensures { result ≡ count 256 (free_within taken.now from.0 to.0) }
{
    let mut n = 0;
    for vector in 0..256usize {
        if free_within(taken, from.0, to.0, vector as u8) {
            n += 1;
        }
    }
    n
}

#[tactic(auto, unfolding(crate::specs::Shortage::lies_within))]
fn lies_within(range: u16, from: Vector, to: Vector) -> bool
    ensures { result ≡ lies_within range from.0 to.0 }
{
    from.0 <= crate::lowest(range).0 && crate::highest(range).0 <= to.0
}

// How many lines may have none but vectors of the range.
pub fn count_confined(ranges: &[u16], from: Vector, to: Vector) -> u64
    ensures { result ≡ count (length ranges.now) (confined ranges.now from.0 to.0) }
{
    ranges
        .iter()
        .filter(|range| lies_within(**range, from, to))
        .count() as u64
}

impl<'a> Lines<'a> {
    #[tactic(auto, unfolding(crate::specs::Shortage::crowded))]
    fn crowded(self, from: Vector, to: Vector) -> bool
        ensures { result ≡ crowded self.entry.ranges.now self.entry.taken.now from.0 to.0 }
    {
        count_free(self.taken, from, to) < count_confined(self.ranges, from, to)
    }

    // The first line up to whose highest vector it is crowded.
    fn end_line(self, from: Vector) -> Option<usize>
        ensures { IsFirst (length self.entry.ranges.now)
            (end_line self.entry.ranges.now self.entry.taken.now from.0) result }
    {
        self.ranges
            .iter()
            .position(|range| self.crowded(from, crate::highest(*range)))
    }

    // The first line from whose lowest vector it is crowded up to some line's highest.
    fn start_line(self) -> Option<usize>
        ensures { IsFirst (length self.entry.ranges.now)
            (start_line self.entry.ranges.now self.entry.taken.now) result }
    {
        self.ranges
            .iter()
            .position(|range| self.end_line(crate::lowest(*range)).is_some())
    }

    // The set of the lines that are confined to the range.
    fn lines_confined(self, from: Vector, to: Vector) -> u64
        ensures { result ≡ set_of (length self.entry.ranges.now) (confined self.entry.ranges.now from.0 to.0) }
    {
        let mut lines = 0u64;
        for (k, range) in self.ranges.iter().enumerate() {
            if lies_within(*range, from, to) {
                lines = lines.with(k as u32);
            }
        }
        lines
    }

    // What shows it from this vector on: up to the highest of the first line that ends a crowded range.
    fn shown(self, from: Vector) -> Option<CrowdedRange>
        ensures { IsShown self.entry.ranges.now self.entry.taken.now from.0 result }
    {
        let end = self.end_line(from)?;
        let highest = crate::highest(self.ranges[end]);
        Some(CrowdedRange {
            lowest: from,
            highest,
            lines: self.lines_confined(from, highest),
        })
    }
}

pub fn shortage(ranges: &[u16], taken: &[u64; 4]) -> Result<Option<CrowdedRange>, Refusal>
    ensures { shortage_reply result ≡ shortage ranges.now taken.now }
{
    if ranges.len() > 24 {
        return Err(Refusal::OutOfRange);
    }
    if !crate::ordered(ranges) {
        return Err(Refusal::InvalidRegister);
    }
    let lines = Lines { ranges, taken };
    let Some(start) = lines.start_line() else {
        return Ok(None);
    };
    Ok(lines.shown(crate::lowest(ranges[start])))
}
