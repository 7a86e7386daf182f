// What the boundaries of the three chips and of the planner share: what a caller in C is answered, and what it hands in as a flag.

#![tactic(auto)]

ghost use Rattle.std.specs.Prelude.{◌≡◌};
ghost use Rattle.reply_code.specs.Lent.{reply_code, is_up};

use types::Reply;

// Stays: the C interface.
// A reply as one number: from bit 56 the refusal's number, from bit 48 how many values there are, and the values below that.
pub fn code(reply: Reply) -> u64
    ensures { result ≡ reply_code reply }
{
    match reply {
        Reply::Refused(why) => u64::from(why.number()) * 0x100_0000_0000_0000,
        Reply::Nothing => 0,
        Reply::One(a) => 0x1_0000_0000_0000 + a % 0x1_0000_0000,
        Reply::Two(a, b) => 0x2_0000_0000_0000 + b % 0x100_0000 * 0x100_0000 + a % 0x100_0000,
        Reply::Three(a, b, c) => {
            0x3_0000_0000_0000
                + c % 0x1_0000 * 0x1_0000_0000
                + b % 0x1_0000 * 0x1_0000
                + a % 0x1_0000
        }
    }
}

// A flag that comes in as a number, as C has them: any number but 0 is up.
// Stays: the C interface.
pub fn is_up(number: u64) -> bool
    ensures { result ≡ is_up number }
{
    number != 0
}
