// What C and Rust link: the planner's three calls over ranges, taken vectors and a plan that the caller lends (include/sillwander.h), each reply as a code.

#![tactic(auto)]

ghost use Rattle.std.specs.Prelude.{◌≡◌};
ghost use Rattle.reply_code.specs.Lent.{reply_code, lent};
ghost use Rattle.types.specs.Reply.{flag};
ghost use Rattle.types.specs.declared.Reply.TheVariants.{One};
ghost use Rattle.planner.specs.Answers.{shortage_reply};
ghost use Rattle.planner.specs.Check.{passes};
ghost use Rattle.planner.specs.Plan.{plan};
ghost use Rattle.planner.specs.Shortage.{shortage};
ghost use Rattle.planner_c.specs.Calls.{coded, range_code, lines_in};

use planner::shortage::CrowdedRange;
use reply_code::code;
use types::{Refusal, Reply, ToReply};

#[unsafe(no_mangle)]
pub extern "C" fn sillwander_plan_check(ranges: &[u16], taken: &[u64; 4], vectors: &[u8]) -> u64
    ensures { result ≡ reply_code (One (flag (passes ranges.now taken.now vectors.now))) }
{
    code(Reply::One(types::flag(planner::check(ranges, taken, vectors))))
}

#[unsafe(no_mangle)]
pub extern "C" fn sillwander_plan(ranges: &[u16], taken: &[u64; 4], vectors: &mut [u8]) -> u64
    ensures { lent vectors.new result ≡ coded (plan ranges.now taken.now vectors.old) }
{
    code(planner::plan(ranges, taken, vectors).reply())
}

// A shortage's answer as a code; the lines go to `lines`.
fn shown(answer: Result<Option<CrowdedRange>, Refusal>, lines: &mut [u64; 1]) -> u64
    ensures { (result ≡ range_code (shortage_reply answer)) × (lines.new ≡ lines_in lines.old (shortage_reply answer)) }
{
    match answer {
        Ok(None) => 0,
        Ok(Some(crowded)) => {
            lines[0] = crowded.lines;
            code(Reply::Two(u64::from(crowded.lowest.0), u64::from(crowded.highest.0)))
        }
        Err(why) => code(Reply::Refused(why)),
    }
}

#[unsafe(no_mangle)]
pub extern "C" fn sillwander_plan_shortage(
    ranges: &[u16],
    taken: &[u64; 4],
    lines: &mut [u64; 1],
) -> u64
    ensures { (result ≡ range_code (shortage ranges.now taken.now)) × (lines.new ≡ lines_in lines.old (shortage ranges.now taken.now)) }
{
    shown(planner::shortage::shortage(ranges, taken), lines)
}
