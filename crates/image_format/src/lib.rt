// The image of a board with the pair (document 02, T-11): its format, its writer and its reader. 84 words go in and
// come out; which state they are, and which rules it must keep, says the crate `image`.

#![tactic(auto)]

ghost use Rattle.std.specs.Prelude.{◌≡◌, ℕ, ◌+◌, ◌-◌, ◌<◌, ◌≤◌, length, IfSome};
ghost use Rattle.image_format.specs.Format.{format, is_number, step_of, IsRow};
ghost use Rattle.image_format.specs.Image.{
  bytes_of,
  number_at,
  header_of,
  field_with,
  taken,
  written_to,
  loaded_from,
};
ghost use Rattle.std.proofs.lemmas.List.Edits.{sets};
ghost use Rattle.image_format.specs.Reading.{has_field, field_by, group_by, field_from, is_read};

mod table;

/// The length of every image, in bytes.
pub const IMAGE_SIZE: usize = 628;

// Tags from here on are groups'.
const GROUPS: u8 = 0x80;

// A board's chips' words are four deep: three groups may open.
const GROUPS_DEEP: u8 = 3;

// ---- The table

/// A field of the format: its tag, its body's length in bytes, and of a number its place among the 84 words.
#[derive(Clone, Copy, Debug, PartialEq, Eq, Hash)]
pub struct Row {
    pub tag: u8,
    pub size: u16,
    pub slot: usize,
}

impl Row {
    // Any other row is a group.
    // Stays: a tag is a byte of the image, and the definition `is_number` reads it.
    fn is_number(self) -> bool
        ensures { result ≡ is_number self }
    {
        self.tag < GROUPS
    }

    // How many bytes the body has.
    fn size(self) -> usize
        ensures { result ≡ self.size }
    {
        usize::from(self.size)
    }

    // The tag, and the body's length, the low byte first.
    fn header(self) -> [u8; 3]
        ensures { result ≡ header_of self }
    {
        let [low, high] = self.size.to_le_bytes();
        [self.tag, low, high]
    }

    // How many bytes come before the next row's.
    fn step(self) -> usize
        ensures { result ≡ step_of self }
    {
        if self.is_number() {
            return 3 + self.size();
        }
        3
    }
}

// The rows in the order of an image's fields.
fn format_rows() -> &'static [Row; 80]
    ensures { result.now ≡ format }
{
    &table::ROWS
}

// ---- Reading

/// Where the next field starts, in bytes from the image's start, and which row of the format it is.
#[derive(Clone, Copy, Debug, PartialEq, Eq, Hash)]
pub struct Place {
    pub at: usize,
    pub row: usize,
}

// The bytes of an image from `at` up to `end`.
#[derive(Clone, Copy, Debug, PartialEq, Eq, Hash)]
struct Part<'a> {
    image: &'a [u8],
    at: usize,
    end: usize,
    ghost ordered: { at ≤ end },
    ghost within: { end ≤ length image.now },
}

// The row's header stands at the part's start, and its body ends within the part.
fn has_field(part: Part<'_>, row: Row) -> bool
    ensures { result ≡ has_field part.entry.image.now part.entry.at part.entry.end row }
{
    let [tag, low, high] = row.header();
    part.end - part.at >= 3 + row.size()
        && part.image[part.at] == tag
        && part.image[part.at + 1] == low
        && part.image[part.at + 2] == high
}

// One field of the part's bytes, which should be this row.
#[cycle(read_field_read_group)]
fn read_field(part: Part<'_>, depth: u8, row: usize) -> Option<Place>
    ensures is { (n : ℕ) → (part.entry.end - part.entry.at) + (part.entry.end - part.entry.at) < n →
        result ≡ field_by n part.entry.image.now part.entry.at part.entry.end depth row }
    ensures moves { IfSome result (λ next. (part.entry.at < next.at) × (next.at ≤ part.entry.end)) }
{
    let field = *format_rows().get(row)?;
    if !has_field(part, field) {
        return None;
    }
    let body = part.at + 3;
    let stop = body + field.size();
    if field.is_number() {
        return Some(Place {
            at: stop,
            row: row + 1,
        });
    }
    if depth == 0 {
        return None;
    }
    let group = Part {
        image: part.image,
        at: body,
        end: stop,
    };
    read_group(group, depth - 1, row + 1)
}

// All the fields of the part's bytes, from this row on, one behind the other: a call of this function for each would take
// stack for each.
// Stays: the new form of its loop is no plainer: it has no count, since the part's end or a field that is none ends it.
#[cycle(read_field_read_group)]
fn read_group(part: Part<'_>, depth: u8, row: usize) -> Option<Place>
    ensures is { (n : ℕ) → (part.entry.end - part.entry.at) + (part.entry.end - part.entry.at) + 1 < n →
        result ≡ group_by n part.entry.image.now part.entry.at part.entry.end depth row }
    ensures moves { IfSome result (λ next. (part.entry.at ≤ next.at) × (next.at ≤ part.entry.end)) }
{
    let mut next = Place { at: part.at, row };
    while next.at != part.end {
        let rest = Part {
            image: part.image,
            at: next.at,
            end: part.end,
        };
        next = read_field(rest, depth, next.row)?;
    }
    Some(next)
}

// ---- The reader keeps the lent image and its place

#[derive(Debug, PartialEq, Eq, Hash, Drop)]
pub struct Reader<'a> {
    pub image: &'a [u8],
    pub at: usize,
}

pub fn new<'a>(image: &'a [u8]) -> Reader<'a>
    ensures { (result.image ≡ image.entry) × (result.at ≡ 0) }
{
    Reader { image, at: 0 }
}

/// The field at the reader's place, which should be this row: where it ends and which row is next, or `None` where the
/// bytes aren't such a field.
pub fn next<'a>(r: Reader<'a>, row: usize) -> Option<Place>
    ensures { result ≡ field_from r.entry.image.now r.entry.at row }
{
    let end = r.image.len();
    if r.at > end {
        return None;
    }
    let part = Part {
        image: r.image,
        at: r.at,
        end,
    };
    read_field(part, GROUPS_DEEP, row)
}

/// The image's first field, of a plain slice and a number: as `next` answers.
pub fn first(image: &[u8], row: usize) -> Option<Place>
    ensures { result ≡ field_from image.now 0 row }
{
    next(new(image), row)
}

/// Whether these bytes have the format: one field, up to their end, of all rows.
pub fn is_read(image: &[u8]) -> bool
    ensures { result ≡ is_read image.now }
{
    first(image, 0)
        == Some(Place {
            at: image.len(),
            row: format_rows().len(),
        })
}

// ---- The words of an image

// The word whose low bytes these are, the lowest first.
fn word_from(bytes: &[u8]) -> u64
    requires { length bytes.now ≤ 8 }
    ensures { result ≡ number_at bytes.now 0 (length bytes.now) }
{
    let mut all = [0; 8];
    all[..bytes.len()].copy_from_slice(bytes);
    u64::from_le_bytes(all)
}

// The row's number, if it is one, goes to its word; the bytes begin with the row's header.
fn take_field(bytes: &[u8], row: Row, words: &mut [u64; 84])
    requires fits { step_of row ≤ length bytes.now }
    requires row { IsRow row }
    ensures { words.new ≡ taken bytes.now 0 row words.old }
{
    if row.is_number() {
        words[row.slot] = word_from(&bytes[3..3 + row.size()]);
    }
}

/// The image's numbers go to their words; the other words stay, and all do where it is shorter than an image.
pub fn load(image: &[u8], words: &mut [u64; 84])
    ensures { words.new ≡ loaded_from image.now words.old }
{
    if image.len() < IMAGE_SIZE {
        return;
    }
    let mut at = 0;
    for row in format_rows() {
        take_field(&image[at..], *row, words);
        at += row.step();
    }
}

// ---- Writing

// The row's field goes to the bytes' start: its header, and of a number the lowest bytes, the lowest first.
fn put_field(bytes: &mut [u8], row: Row, word: u64)
    requires fits { step_of row ≤ length bytes.old }
    requires row { IsRow row }
    ensures { bytes.new ≡ sets bytes.old 0 (field_with word row) }
{
    bytes[..3].copy_from_slice(&row.header());
    if row.is_number() {
        let size = row.size();
        bytes[3..3 + size].copy_from_slice(&word.to_le_bytes()[..size]);
    }
}

/// The image of the words, at the buffer's start; the rest of a longer buffer stays, and all of one that is shorter
/// than an image.
pub fn write(words: &[u64; 84], buf: &mut [u8])
    ensures { buf.new ≡ written_to words.now buf.old }
{
    if buf.len() < IMAGE_SIZE {
        return;
    }
    let mut at = 0;
    for row in format_rows() {
        put_field(&mut buf[at..], *row, words[row.slot]);
        at += row.step();
    }
}
