// Replies in the words of document 01, "Scripts": the refusal's number, a space, and the values joined by commas, or `-`
// where there are none. Text is gathered in a lent buffer: a function that puts some takes the place where it starts and
// answers where it ends. A line is put where the buffer has room for the longest one; where it hasn't, nothing is put, and
// the place is answered as it came.

#![tactic(auto)]

ghost use Rattle.std.specs.Prelude.{◌+◌, ◌*◌, ◌%◌, ◌≤◌, ◌<◌, ◌≡◌, [], ◌∷◌, length, leb};
ghost use Rattle.io.specs.Digits.{hex_digit_ascii};
ghost use Rattle.types.specs.Reply.{reply_values};
ghost use Rattle.reply_text.specs.Pages.{PutsOn};
ghost use Rattle.reply_text.specs.Text.{Puts, in_room, decimal, values, reply_text, line, bad_line, too_long_line, words_line, words_in_room};

use std::io::{Result, Write};
use types::{Refusal, Reply};

// No line is longer.
const LINE: usize = 80;

// No word of a line of words is longer, with the space behind it.
const WORD: usize = 21;

// ---- printing

// Stays: the new form is no plainer: one write of bytes that are there.
pub fn print_text<W: Write>(out: &mut W, text: &[u8]) -> Result<()> {
    out.write_all(text)
}

// The line of `put_reply`, which promises its bytes.
// Stays: the new form is no plainer: a Display would say the bytes of `put_reply` once more.
pub fn print_reply<W: Write>(out: &mut W, reply: Reply) -> Result<()> {
    let mut space = [0; LINE];
    let mut page = Page {
        out: &mut space,
        end: 0,
    };
    page.put_reply(reply);
    let end = page.end;
    out.write_all(&space[..end])
}

// ---- lines

// A field's line: the tag in two hexadecimal digits, a space, and the reply.
// Stays: what may not change: the signature, and the clause `puts`; `write!` says what it wrote only where it is Ok.
pub fn put_line(out: &mut [u8], at: usize, tag: u8, reply: Reply) -> usize
    ensures puts { Puts out.old at (in_room (length out.old) at (line tag reply)) out.new result }
    ensures upper_bound { result ≤ at + 80 }
{
    if !has_room(out.len(), at) {
        return at;
    }
    let mut page = Page { out, end: at };
    page.put_field(tag, reply);
    page.end
}

// The line of a bad field, by its tag's place.
// Stays: what may not change: the signature, and the clause `puts`; `write!` says what it wrote only where it is Ok.
pub fn put_bad(out: &mut [u8], at: usize, place: usize) -> usize
    ensures puts { Puts out.old at (in_room (length out.old) at (bad_line place)) out.new result }
    ensures upper_bound { result ≤ at + 80 }
{
    if !has_room(out.len(), at) {
        return at;
    }
    let mut page = Page { out, end: at };
    page.put_bad(place);
    page.end
}

// The line of a script that is too long.
// Stays: what may not change: the signature, and the clause `puts`; `write!` says what it wrote only where it is Ok.
pub fn put_too_long(out: &mut [u8], at: usize) -> usize
    ensures puts { Puts out.old at (in_room (length out.old) at too_long_line) out.new result }
    ensures upper_bound { result ≤ at + 80 }
{
    if !has_room(out.len(), at) {
        return at;
    }
    let mut page = Page { out, end: at };
    page.put_too_long();
    page.end
}

// A line of words: each in decimal digits with a space behind it, and the end of the line. It is put where the buffer has 21 bytes left for each word, and one more.
// Stays: what may not change: the signature, and the clause `puts`; `write!` says what it wrote only where it is Ok.
pub fn put_words(out: &mut [u8], at: usize, words: &[u64]) -> usize
    ensures puts { Puts out.old at (words_in_room (length out.old) at words.now) out.new result }
    ensures upper_bound { result ≤ at + 21 * length words.now + 1 }
{
    if !has_room_for(out.len(), at, words.len()) {
        return at;
    }
    let mut page = Page { out, end: at };
    page.put_words(words);
    page.end
}

// Whether a buffer of that length has room for so many words from a place on.
fn has_room_for(length: usize, at: usize, count: usize) -> bool
    ensures { result ≡ leb (at + 21 * count + 1) length }
{
    at < length && (length - at - 1) / WORD >= count
}

// Whether a buffer of that length has room for a line from a place on.
fn has_room(length: usize, at: usize) -> bool
    ensures { result ≡ leb (at + 80) length }
{
    LINE <= length && at <= length - LINE
}

// ---- a page: a lent buffer, and where its text ends. Each of these puts what there is room for.

// Stays: the new form is no plainer: it holds a lent buffer, so that it isn't Copy, and no two pages are compared.
#[derive(Debug, Drop)]
struct Page<'a> {
    out: &'a mut [u8],
    end: usize,
}

impl Page<'_> {
    // Stays: what may not change: the clause `puts` of the four above, by which `write!` falls out.
    fn put_field(&mut self, tag: u8, reply: Reply)
        requires { self.old.end + 80 ≤ length self.old.out.now }
        ensures puts { PutsOn self.old (line tag reply) self.new }
        ensures upper_bound { self.new.end ≤ self.old.end + 80 }
        ensures same { self.new.out.ghost_name ≡ self.old.out.ghost_name }
    {
        self.put(digit(tag / 16));
        self.put(digit(tag));
        self.put(b' ');
        self.put_reply(reply);
    }

    // Stays: what may not change: the clause `puts` of the four above, by which `write!` falls out.
    fn put_bad(&mut self, place: usize)
        requires { self.old.end + 80 ≤ length self.old.out.now }
        ensures puts { PutsOn self.old (bad_line place) self.new }
        ensures upper_bound { self.new.end ≤ self.old.end + 80 }
        ensures same { self.new.out.ghost_name ≡ self.old.out.ghost_name }
    {
        self.put_text(b"bad ");
        self.put_decimal(place as u64);
        self.put(b'\n');
    }

    // Stays: what may not change: the clause `puts` of the four above, by which `write!` falls out.
    fn put_too_long(&mut self)
        requires { self.old.end + 80 ≤ length self.old.out.now }
        ensures puts { PutsOn self.old too_long_line self.new }
        ensures upper_bound { self.new.end ≤ self.old.end + 80 }
        ensures same { self.new.out.ghost_name ≡ self.old.out.ghost_name }
    {
        self.put_decimal(u64::from(Refusal::ScriptTooLong.number()));
        self.put(b'\n');
    }

    // Stays: what may not change: the clause `puts` of the four above, by which `write!` falls out.
    fn put_words(&mut self, words: &[u64])
        requires { self.old.end + 21 * length words.now + 1 ≤ length self.old.out.now }
        ensures puts { PutsOn self.old (words_line words.now) self.new }
        ensures upper_bound { self.new.end ≤ self.old.end + 21 * length words.now + 1 }
        ensures same { self.new.out.ghost_name ≡ self.old.out.ghost_name }
    {
        for word in words {
            self.put_decimal(*word);
            self.put(b' ');
        }
        self.put(b'\n');
    }

    // The number, the values, and the end of the line.
    // Stays: what may not change: the clause `puts` of the four above, by which `write!` falls out.
    fn put_reply(&mut self, reply: Reply)
        requires { self.old.end + 70 ≤ length self.old.out.now }
        ensures puts { PutsOn self.old (reply_text reply) self.new }
        ensures upper_bound { self.new.end ≤ self.old.end + 70 }
        ensures same { self.new.out.ghost_name ≡ self.old.out.ghost_name }
    {
        self.put_decimal(u64::from(reply.number()));
        self.put(b' ');
        self.put_values(reply);
        self.put(b'\n');
    }

    // Stays: what may not change: the clause `puts` of the four above, by which `write!` falls out.
    fn put_values(&mut self, reply: Reply)
        requires { self.old.end + 62 ≤ length self.old.out.now }
        ensures puts { PutsOn self.old (values (reply_values reply)) self.new }
        ensures upper_bound { self.new.end ≤ self.old.end + 62 }
        ensures same { self.new.out.ghost_name ≡ self.old.out.ghost_name }
    {
        match reply {
            Reply::Refused(_) => self.put(b'-'),
            Reply::Nothing => self.put(b'-'),
            Reply::One(a) => self.put_decimal(a),
            Reply::Two(a, b) => self.put_pair(a, b),
            Reply::Three(a, b, c) => {
                self.put_decimal(a);
                self.put(b',');
                self.put_pair(b, c);
            }
        }
    }

    // Stays: what may not change: the clause `puts` of the four above, by which `write!` falls out.
    fn put_pair(&mut self, a: u64, b: u64)
        requires { self.old.end + 41 ≤ length self.old.out.now }
        ensures puts { PutsOn self.old (values (a ∷ b ∷ [])) self.new }
        ensures upper_bound { self.new.end ≤ self.old.end + 41 }
        ensures same { self.new.out.ghost_name ≡ self.old.out.ghost_name }
    {
        self.put_decimal(a);
        self.put(b',');
        self.put_decimal(b);
    }

    // A number in decimal digits: at most 20 of them.
    // Stays: what may not change: the clause `puts` of the four above, by which `write!` falls out.
    fn put_decimal(&mut self, n: u64)
        requires { self.old.end + 20 ≤ length self.old.out.now }
        ensures puts { PutsOn self.old (decimal n) self.new }
        ensures upper_bound { self.new.end ≤ self.old.end + 20 }
        ensures same { self.new.out.ghost_name ≡ self.old.out.ghost_name }
    {
        if n < 10 {
            // Most words and numbers of replies are 0 or one digit, which no division has to find.
            self.put(digit(n as u8));
            return;
        }
        // Stays: a rule of the project: no heap.
        let mut digits = [0; 20];
        let count = io::decimal(n, &mut digits);
        self.put_text(&digits[..count]);
    }

    // Stays: what may not change: the clause `puts` of the four above, by which `write!` falls out.
    // Byte by byte: the texts are short, and a copy of a length that isn't known costs more.
    fn put_text(&mut self, text: &[u8])
        requires { self.old.end + length text.now ≤ length self.old.out.now }
        ensures puts { PutsOn self.old text.now self.new }
        ensures same { self.new.out.ghost_name ≡ self.old.out.ghost_name }
    {
        for byte in text {
            self.put(*byte);
        }
    }

    fn put(&mut self, byte: u8)
        requires { self.old.end < length self.old.out.now }
        ensures puts { PutsOn self.old (byte ∷ []) self.new }
        ensures same { self.new.out.ghost_name ≡ self.old.out.ghost_name }
    {
        self.out[self.end] = byte;
        self.end += 1;
    }
}

// A hexadecimal digit, of the low half of a byte.
// Stays: the new form is no plainer: `char::from_digit` answers an Option, of a char.
fn digit(d: u8) -> u8
    ensures { result ≡ hex_digit_ascii (d % 16) }
{
    let low = d % 16;
    if low < 10 {
        b'0' + low
    } else {
        b'a' + (low - 10)
    }
}
