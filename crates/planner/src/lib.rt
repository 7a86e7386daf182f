// Vectors that don't collide: a setup tool's check of a proposal, its planner, and why there is no plan (document 02, T-10).
//
// Stays: the C interface lends a range as a word of 16 bits and the vectors taken as four words.
//
// A line's range is a word, its lowest vector in the low byte and its highest in the high byte, so that the lines are one slice. The vectors already taken are
// a set of 256 in four words: bit v % 64 of word v / 64.

#![tactic(auto)]

ghost use Rattle.std.specs.Prelude.{◌≡◌, ◌+◌, ◌*◌, ◌≤◌, ◌<◌, length, IfSome};
ghost use Rattle.types.specs.Reply.{outcome_of};
ghost use Rattle.planner.specs.Lines.{lowest_of, highest_of, is_taken, is_free, allows};
ghost use Rattle.planner.specs.Check.{line_passes, passes};
ghost use Rattle.planner.specs.Plan.{waits, reach, line_number, better, next_line, give, planned, ordered, plan};
ghost use Rattle.planner.specs.Answers.{plan_reply};

use types::{Refusal, Vector};
use utils::Set;

pub mod shortage;

// A line's range.
pub fn range(lowest: Vector, highest: Vector) -> u16
    ensures { result ≡ lowest.0 + 256 * highest.0 }
{
    u16::from_le_bytes([lowest.0, highest.0])
}

pub fn lowest(range: u16) -> Vector
    ensures { result.0 ≡ lowest_of range }
{
    let [lowest, _] = range.to_le_bytes();
    Vector(lowest)
}

pub fn highest(range: u16) -> Vector
    ensures { result.0 ≡ highest_of range }
{
    let [_, highest] = range.to_le_bytes();
    Vector(highest)
}

pub fn is_taken(taken: &[u64; 4], vector: Vector) -> bool
    ensures { result ≡ is_taken taken.now vector.0 }
{
    let word = usize::from(vector.0) / 64;
    taken[word].has(u32::from(vector.0) % 64)
}

// A vector that may be given: 32 or more, and not taken.
#[tactic(auto, unfolding(crate::specs::Lines::is_free))]
pub fn is_free(taken: &[u64; 4], vector: Vector) -> bool
    ensures { result ≡ is_free taken.now vector.0 }
{
    vector.0 >= 32 && !is_taken(taken, vector)
}

// A line with this range may have this vector.
#[tactic(auto, unfolding(crate::specs::Lines::allows))]
fn allows(range: u16, taken: &[u64; 4], vector: Vector) -> bool
    ensures { result ≡ allows range taken.now vector.0 }
{
    lowest(range).0 <= vector.0 && vector.0 <= highest(range).0 && is_free(taken, vector)
}

// Line k may have its vector, and no line before it has the same.
#[tactic(auto, unfolding(crate::specs::Check::line_passes))]
fn line_passes(ranges: &[u16], taken: &[u64; 4], plan: &[u8], k: usize) -> bool
    requires { (k < length ranges.now) × (k < length plan.now) }
    ensures { result ≡ line_passes ranges.now taken.now plan.now k }
{
    let vector = plan[k];
    allows(ranges[k], taken, Vector(vector)) && !plan[..k].contains(&vector)
}

// The check that any proposal goes through.
pub fn check(ranges: &[u16], taken: &[u64; 4], plan: &[u8]) -> bool
    ensures { result ≡ passes ranges.now taken.now plan.now }
{
    plan.len() >= ranges.len() && (0..ranges.len()).all(|k| line_passes(ranges, taken, plan, k))
}

// A line waits, and its range has the vector.
#[tactic(auto, unfolding(crate::specs::Plan::waits))]
fn waits(range: u16, given: u8, vector: u8) -> bool
    ensures { result ≡ waits range given vector }
{
    given == 0 && lowest(range).0 <= vector && vector <= highest(range).0
}

// Lines to plan, no more than an I/O APIC has inputs, each by its range; and the vectors that are taken.
#[derive(Clone, Copy, Debug, PartialEq, Eq, Hash)]
struct Lines<'a> {
    ranges: &'a [u16],
    taken: &'a [u64; 4],
    ghost few: { length ranges.now ≤ 24 },
}

impl<'a> Lines<'a> {
    // A line's highest vector.
    #[tactic(auto, using(crate::proofs::Leaves::reach_line))]
    fn reach(self, k: usize) -> Vector
        requires { k < length self.ranges.now }
        ensures { result.0 ≡ reach self.entry.ranges.now k }
    {
        highest(self.ranges[k])
    }

    // Line k, if it waits for the vector and its range ends before that of the best so far.
    fn better(self, given: &[u8; 24], vector: u8, best: Option<usize>, k: usize) -> Option<usize>
        requires line { k < length self.ranges.now }
        requires best { IfSome best (λ line. line < length self.ranges.now) }
        ensures line { IfSome result (λ line. line < length self.entry.ranges.now) }
        ensures is { line_number result ≡ better self.entry.ranges.now given.now vector (line_number best) k }
    {
        if !waits(self.ranges[k], given[k], vector) {
            return best;
        }
        let end = self.reach(k).0;
        match best {
            Some(line) if self.reach(line).0 <= end => best,
            _ => Some(k),
        }
    }

    // The line that the vector goes to.
    #[tactic(auto, unfolding(crate::specs::Plan::next_line))]
    fn next_line(self, given: &[u8; 24], vector: u8) -> Option<usize>
        ensures line { IfSome result (λ line. line < length self.entry.ranges.now) }
        ensures is { line_number result ≡ next_line self.entry.ranges.now given.now vector }
    {
        let mut best = None;
        for k in 0..self.ranges.len() {
            best = self.better(given, vector, best, k);
        }
        best
    }

    fn give(self, given: &mut [u8; 24], vector: u8)
        ensures { given.new ≡ give self.entry.ranges.now self.entry.taken.now given.old vector }
    {
        if is_free(self.taken, Vector(vector)) {
            if let Some(line) = self.next_line(given, vector) {
                given[line] = vector;
            }
        }
    }

    // All vectors from 32 up, to lines that all wait.
    fn planned(self) -> [u8; 24]
        ensures { result ≡ planned self.entry.ranges.now self.entry.taken.now }
    {
        let mut given = [0; 24];
        for vector in 32..=255 {
            self.give(&mut given, vector);
        }
        given
    }
}

// No line has a lowest vector above its highest.
#[tactic(auto, unfolding(crate::specs::Plan::ordered, crate::specs::Plan::in_order))]
fn ordered(ranges: &[u16]) -> bool
    ensures { result ≡ ordered ranges.now }
{
    ranges
        .iter()
        .all(|range| lowest(*range).0 <= highest(*range).0)
}

// A vector for each line, or the refusal; a plan is written to the lent one only if it passes the check.
pub fn plan(ranges: &[u16], taken: &[u64; 4], lent: &mut [u8]) -> Result<(), Refusal>
    ensures { outcome_of lent.new (plan_reply result) ≡ plan ranges.now taken.now lent.old }
{
    let lines = ranges.len();
    if lines > 24 {
        return Err(Refusal::OutOfRange);
    }
    if lent.len() < lines {
        return Err(Refusal::TooShort);
    }
    if !ordered(ranges) {
        return Err(Refusal::InvalidRegister);
    }
    let given = Lines { ranges, taken }.planned();
    if !check(ranges, taken, &given) {
        return Err(Refusal::NoPlan);
    }
    lent[..lines].copy_from_slice(&given[..lines]);
    Ok(())
}
