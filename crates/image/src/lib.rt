// A running guest's chips as an image, and back (document 02, T-11): the board's I/O APIC and local APIC and the pair
// of 8259s, each in the words that hold it.

#![tactic(auto)]

ghost use Rattle.std.specs.Prelude.{◌≡◌, ◌+◌, ◌<◌, ◌≤◌, not, eqb, take, drop};
ghost use Rattle.types.specs.Reply.{outcome_of, flag};
ghost use Rattle.image.specs.Words.{chip_word, word_at, gathered};
ghost use Rattle.image.specs.Save.{save_reply, saved};
ghost use Rattle.image.specs.Restore.{restore_reply, chips, kept_chips, restored};

use types::Refusal;
use vioapic::IoApicVersion;
use vpic::PicRule;

// The first words of the local APIC and of the pair.
const APIC: usize = 32;

const PAIR: usize = 80;

// The I/O APIC's base and size, the same on every board.
const BASE: usize = 27;

const SIZE: usize = 28;

// The words that are spelled as what they mean.
const VERSION: usize = 29;

const MODE: usize = 32;

const RULE: usize = 82;

// ---- Saving

// A chip's word without the bits that stand for nothing by this rule.
// Stays: the rule is a number in a word that C lends, and the definition `chip_word` reads it as one.
fn chip_word(rule: u64, word: u64) -> u64
    ensures { result ≡ chip_word rule word }
{
    if rule == 2 {
        return word % 0x8_0000_0000_0000;
    }
    word % 0x1000_0000_0000
}

// A board's chips, each in the lent words that hold it.
#[derive(Clone, Copy, Debug, PartialEq, Eq, Hash)]
struct Board<'a> {
    io: &'a [u64; 32],
    apic: &'a [u64; 48],
    pair: &'a [u64; 4],
}

// Word k of the 84.
#[tactic(auto, unfolding(crate::specs::Words::word_at))]
fn word_at(board: Board<'_>, k: usize) -> u64
    requires { k < 84 }
    ensures { result ≡ word_at board.entry.io.now board.entry.apic.now board.entry.pair.now k }
{
    match k {
        VERSION => IoApicVersion::of(board.io[VERSION]).number(),
        MODE => u64::from(board.apic[0] != 0),
        RULE => PicRule::from_number(board.pair[2]).number(),
        _ if k < APIC => board.io[k],
        _ if k < PAIR => board.apic[k - APIC],
        _ => chip_word(board.pair[2], board.pair[k - PAIR]),
    }
}

// The 84 words.
fn gather(board: Board<'_>) -> [u64; 84]
    ensures { result ≡ gathered board.entry.io.now board.entry.apic.now board.entry.pair.now }
{
    let mut words = [0; 84];
    for (k, word) in words.iter_mut().enumerate() {
        *word = word_at(board, k);
    }
    words
}

/// The image of the chips' state goes to the lent buffer's start: how many bytes it has. Refused with `TooShort` where
/// the buffer is shorter than an image (628 bytes), which then stays as it was.
// Stays: the C interface lends the chips' words as three arrays (sillwander_image_save, sillwander_image_restore).
pub fn save(
    io: &[u64; 32],
    apic: &[u64; 48],
    pair: &[u64; 4],
    buf: &mut [u8],
) -> Result<u64, Refusal>
    ensures { outcome_of buf.new (save_reply result) ≡ saved io.now apic.now pair.now buf.old }
{
    if buf.len() < image_format::IMAGE_SIZE {
        return Err(Refusal::TooShort);
    }
    let words = gather(Board { io, apic, pair });
    image_format::write(&words, buf);
    Ok(image_format::IMAGE_SIZE as u64)
}

// ---- Restoring

// So many words, from `at` on.
fn part<const N: usize>(words: &[u64; 84], at: usize) -> [u64; N]
    requires { at + N ≤ 84 }
    ensures { result ≡ take N (drop at words.now) }
{
    let mut part = [0; N];
    part.copy_from_slice(&words[at..at + N]);
    part
}

// The chips of the 84 words, if they keep their rules.
#[tactic(auto, unfolding(crate::specs::Restore::row_keeps))]
fn kept_chips(words: &[u64; 84]) -> Option<([u64; 32], [u64; 48], [u64; 4])>
    ensures { result ≡ kept_chips words.now }
{
    let io = part(words, 0);
    let apic = part(words, APIC);
    let pair = part(words, PAIR);
    if words[MODE] < 2
        && image_rules::ioapic_keeps(&io)
        && image_rules::apic_keeps(&apic)
        && image_rules::pair_keeps(&pair)
    {
        return Some((io, apic, pair));
    }
    None
}

/// The chips' state is the image's, if a state writes it that keeps the chips' rules; else it is refused with
/// `BadImage`, and every word stays as it was.
// Stays: the C interface lends the chips' words as three arrays.
pub fn restore(
    image: &[u8],
    io: &mut [u64; 32],
    apic: &mut [u64; 48],
    pair: &mut [u64; 4],
) -> Result<(), Refusal>
    ensures { outcome_of (chips io.new apic.new pair.new) (restore_reply result)
        ≡ restored image.now (chips io.old apic.old pair.old) }
{
    if !image_format::is_read(image) {
        return Err(Refusal::BadImage);
    }
    let mut words = [0; 84];
    words[BASE] = 0xfec0_0000;
    words[SIZE] = 0x1000;
    image_format::load(image, &mut words);
    let Some(chips) = kept_chips(&words) else {
        return Err(Refusal::BadImage);
    };
    (*io, *apic, *pair) = chips;
    Ok(())
}
