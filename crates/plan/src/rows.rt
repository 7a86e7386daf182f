// The text of lines to plan, row by row.

ghost use Rattle.std.specs.Prelude.{◌≤◌};

use arrayvec::ArrayVec;
use std::fmt;
use std::num::TryFromIntError;
use types::Vector;
use utils::Set;

// Why a row is none.
#[derive(Clone, Copy, Debug, PartialEq, Eq, Hash)]
pub enum Fault {
    FewWords,
    ManyWords,
    NoNumber,
    LargeNumber,
    LargeInput,
    SameInput,
    Inverted,
}

impl Fault {
    // What a row's line says of it, behind the row's number and up to the line's end: one text, which is written at once.
    fn rest(self) -> &'static str {
        match self {
            Fault::FewWords => ": too few words; a row is: name lowest highest [input]\n",
            Fault::ManyWords => {
                ": too many words; a row is: name lowest highest [input], or: taken lowest highest\n"
            }
            Fault::NoNumber => ": a word that is no number, decimal or hexadecimal behind 0x\n",
            Fault::LargeNumber => ": a number above 255\n",
            Fault::LargeInput => ": an input above 23\n",
            Fault::SameInput => ": an input that a row before has\n",
            Fault::Inverted => ": the lowest taken vector is above the highest\n",
        }
    }
}

// A number that doesn't fit a byte.
impl From<TryFromIntError> for Fault {
    fn from(_error: TryFromIntError) -> Fault {
        Fault::LargeNumber
    }
}

// A row that is none, by its number from 1: printed, it is a line, with its end.
#[derive(Clone, Copy, Debug, PartialEq, Eq, Hash)]
pub struct BadRow {
    pub number: usize,
    pub fault: Fault,
}

impl fmt::Display for BadRow {
    fn fmt<W: fmt::Write>(&self, f: &mut fmt::Formatter<W>) -> fmt::Result {
        let number = self.number;
        write!(f, "row {number}")?;
        f.write_str(self.fault.rest())
    }
}

// ---- numbers

// The number that the digits of a word say, up to the largest of 64 bits.
fn parse_digits(word: &[u8], base: u32) -> Option<u64>
    requires { (2 ≤ base) × (base ≤ 36) }
{
    let mut number = 0u64;
    for byte in word {
        let digit = char::from(*byte).to_digit(base)?;
        number = number
            .saturating_mul(u64::from(base))
            .saturating_add(u64::from(digit));
    }
    Some(number)
}

// Decimal, or hexadecimal behind 0x.
fn parse_number(word: &[u8]) -> Result<u64, Fault> {
    match word.strip_prefix(b"0x".as_slice()) {
        Some(hex) if !hex.is_empty() => parse_digits(hex, 16),
        _ => parse_digits(word, 10),
    }
    .ok_or(Fault::NoNumber)
}

// ---- rows

// A line to plan for: its name, its range, and its input of the I/O APIC.
#[derive(Clone, Copy, Debug, PartialEq, Eq, Hash)]
pub struct Line<'a> {
    pub name: &'a [u8],
    pub range: u16,
    pub input: u8,
}

impl<'a> Default for Line<'a> {
    fn default() -> Line<'a> {
        Line {
            name: b"".as_slice(),
            range: 0,
            input: 0,
        }
    }
}

#[derive(Clone, Copy, Debug, PartialEq, Eq, Hash)]
enum Row<'a> {
    Blank,
    Line(Line<'a>),
    Taken(Vector, Vector),
}

fn is_blank(byte: u8) -> bool {
    matches!(byte, b'\t' | b'\r' | b' ')
}

// The first word of a row, and what is behind it; a comment has none. Blanks are passed over one by one: a `split` at each
// would answer an empty word for each.
fn first_word(row: &[u8]) -> Option<(&[u8], &[u8])> {
    let start = row.iter().position(|byte| !is_blank(*byte))?;
    let word = &row[start..];
    if word[0] == b'#' {
        return None;
    }
    match word
        .iter()
        .position(|byte| is_blank(*byte) || *byte == b'#')
    {
        Some(end) => Some(word.split_at(end)),
        None => Some((word, &word[word.len()..])),
    }
}

fn taken_row<'a>(lowest: u64, highest: u64) -> Result<Row<'a>, Fault> {
    let lowest = u8::try_from(lowest)?;
    let highest = u8::try_from(highest)?;
    if lowest > highest {
        return Err(Fault::Inverted);
    }
    Ok(Row::Taken(Vector(lowest), Vector(highest)))
}

// ---- all rows: the lines, and the vectors that are taken

// One line more than there may be, so that the planner sees them to be too many.
pub const LINES: usize = 25;

// Stays: the C interface (the planner's calls take the vectors taken as four words).
#[derive(Debug, Drop, PartialEq, Eq)]
pub struct Setup<'a> {
    pub lines: ArrayVec<Line<'a>, LINES>,
    pub taken: [u64; 4],
}

impl<'a> Setup<'a> {
    // Stays: the C interface, as above.
    pub fn new() -> Setup<'a> {
        Setup {
            lines: ArrayVec::new(),
            taken: [0; 4],
        }
    }

    // Takes in the rows of a text, up to the first that is none. It fills what is there: an answer of that size would be
    // copied, and take its size of the stack twice.
    pub fn read(&mut self, text: &'a [u8]) -> Result<(), BadRow> {
        let mut number = 0usize;
        for row in text.split(|byte| *byte == b'\n') {
            number = number.saturating_add(1);
            match self.read_row(row) {
                Ok(read) => self.add(read),
                Err(fault) => return Err(BadRow { number, fault }),
            }
        }
        Ok(())
    }

    fn read_row(&self, row: &'a [u8]) -> Result<Row<'a>, Fault> {
        let Some((name, rest)) = first_word(row) else {
            return Ok(Row::Blank);
        };
        let (lowest, rest) = first_word(rest).ok_or(Fault::FewWords)?;
        let (highest, rest) = first_word(rest).ok_or(Fault::FewWords)?;
        let (input, rest) = match first_word(rest) {
            Some((input, rest)) => (Some(input), rest),
            None => (None, rest),
        };
        if first_word(rest).is_some() {
            return Err(Fault::ManyWords);
        }
        if name == b"taken".as_slice() {
            if input.is_some() {
                return Err(Fault::ManyWords);
            }
            return taken_row(parse_number(lowest)?, parse_number(highest)?);
        }
        let lowest = parse_number(lowest)?;
        let highest = parse_number(highest)?;
        match input {
            Some(word) => {
                let input = parse_number(word)?;
                self.line_row(name, lowest, highest, Some(input))
            }
            None => self.line_row(name, lowest, highest, None),
        }
    }

    // A line's input is its place among the lines where its row has none. Inputs are looked at while there are no more
    // lines than inputs: else a text with more lines would fail by its inputs, and never by that.
    fn line_row(
        &self,
        name: &'a [u8],
        lowest: u64,
        highest: u64,
        input: Option<u64>,
    ) -> Result<Row<'a>, Fault> {
        let range = planner::range(
            Vector(u8::try_from(lowest)?),
            Vector(u8::try_from(highest)?),
        );
        let place = self.lines.len();
        let input = match input {
            Some(number) => u8::try_from(number)?,
            None => place.min(255) as u8,
        };
        if place < 24 {
            if input > 23 {
                return Err(Fault::LargeInput);
            }
            if self.lines.iter().any(|other| other.input == input) {
                return Err(Fault::SameInput);
            }
        }
        Ok(Row::Line(Line { name, range, input }))
    }

    // What follows a line too many is one too.
    fn add(&mut self, row: Row<'a>) {
        match row {
            Row::Blank => {}
            Row::Line(line) => {
                let _too_many = self.lines.try_push(line);
            }
            Row::Taken(lowest, highest) => {
                for vector in u32::from(lowest.0)..u32::from(highest.0) + 1 {
                    let word = vector as usize / 64;
                    self.taken[word] = self.taken[word].with(vector % 64);
                }
            }
        }
    }

    // The lines' ranges, as the planner takes them.
    pub fn ranges(&self) -> ArrayVec<u16, LINES> {
        let mut ranges = ArrayVec::new();
        for line in &self.lines {
            let _fits = ranges.try_push(line.range);
        }
        ranges
    }
}
