// The SM160 controllers' text files: the archive and the device list, a record a line. What a line is, is one list of what comes next in it
// (specs/Grammar.antt).
//
// A host reads a file with a line reader (`new`, then `next_record` or `next_device` until the end), or, without one, from place to place
// (`read_record`, `read_device`). A refused line is not skipped: the reader's place stays before it.
#![tactic(auto)]

ghost use Rattle.std.specs.Prelude.{◌≡◌, ◌&&◌, ◌+◌, ◌<◌, ◌≤◌, ◌^◌, List, length, get_or};
ghost use Rattle.wire.specs.Numbered.{number_of};
ghost use Rattle.sm160_text.specs.Text.{is_at, ends_text, text_end, text_of, blank};
ghost use Rattle.sm160_text.specs.Position.{position};
ghost use Rattle.sm160_text.specs.Grammar.{Optional, Attribute as Asked, archive, device_list, needed, optional, is_here, is_letter};
ghost use Rattle.sm160_text.specs.Line.{span_of, read_line, in_file, read_record, read_device, archive_record, device_record};
ghost use Rattle.sm160_text.specs.Walk.{characters, Walks, reads, the_text, ends, line};
ghost use Rattle.sm160_text.specs.Reader.{reader_at, record_at, device_at};
ghost use Rattle.sm160_text.specs.Files.{meaning};

use wire::Refusal;

// A text's place in the file: its first character, and the place after its last.
#[derive(Clone, Copy, Debug, PartialEq, Eq)]
pub struct Span {
    pub start: usize,
    pub end: usize,
}

// None where the attribute is absent.
#[derive(Clone, Copy, Debug, PartialEq, Eq)]
pub struct ArchiveRecord {
    pub r: Option<Span>,
    pub s: Span,
    pub n: Span,
    pub v: Span,
    pub e: Span,
    pub c: Option<Span>,
    pub t: Option<Span>,
}

#[derive(Clone, Copy, Debug, PartialEq, Eq)]
pub struct DeviceRecord {
    pub d: Span,
    pub k: Span,
    pub s: Span,
}

// A place of a file, line and column from 1.
#[derive(Clone, Copy, Debug, PartialEq, Eq)]
pub struct Position {
    pub line: usize,
    pub column: usize,
}

// Why a line is refused, and where the first character stands that is not the expected one.
#[derive(Clone, Copy, Debug, PartialEq, Eq)]
pub struct Fault {
    pub refusal: Refusal,
    pub at: Position,
}

// None at the end.
pub type ArchiveAnswer = Result<Option<ArchiveRecord>, Fault>;

pub type DeviceAnswer = Result<Option<DeviceRecord>, Fault>;

// The next place is that of the next line, and the same place again at the end and with a refusal.
#[derive(Clone, Copy, Debug, PartialEq, Eq)]
pub struct LineRead<T> {
    pub answer: Result<Option<T>, Fault>,
    pub next: usize,
}

pub type ArchiveRead = LineRead<ArchiveRecord>;

pub type DeviceRead = LineRead<DeviceRecord>;

// The attributes of an archive's record.
#[derive(Clone, Copy, Debug, PartialEq, Eq)]
pub enum Attribute {
    R,
    S,
    N,
    V,
    E,
    C,
    T,
}

fn is_at(s: &[u8], p: usize, c: u8) -> bool
    ensures { result ≡ is_at s.now p c }
{
    p < s.len() && s[p] == c
}

fn ends_text(b: u8) -> bool
    ensures { result ≡ ends_text b }
{
    (b == b'"') | (b == b'\n')
}

// The place of the first quote or line feed from p on, or the file's end.
pub fn text_end(s: &[u8], p: usize) -> usize
    ensures { result ≡ text_end s.now p }
{
    let rest = wire::rest(s, p);
    p + rest
        .iter()
        .position(|b| ends_text(*b))
        .unwrap_or(rest.len())
}

fn is_letter(b: u8) -> bool
    ensures { result ≡ is_letter b }
{
    b.is_ascii_alphabetic()
}

// A line reader: it keeps the file's bytes and its place, and hands out one record after another.
#[derive(Drop)]
pub struct LineReader<'a> {
    pub bytes: &'a [u8],
    pub place: usize,
}

// What reads a line goes on to the place after what it read, or, where it refuses, to the first character that is not the expected one.
impl<'a> LineReader<'a> {
    // The characters cs.
    fn expect(&mut self, cs: &[u8], refusal: Refusal) -> Result<(), Refusal>
        ensures { Walks self.old tt (characters self.old.bytes.now self.old.place cs.now (number_of refusal)) result self.new }
    {
        for c in cs {
            if !is_at(self.bytes, self.place, *c) {
                return Err(refusal);
            }
            self.place += 1;
        }
        Ok(())
    }

    // An attribute that must come: a blank, its letter, the equals sign, and the text between its quotes.
    fn needed(&mut self, c: u8) -> Result<Span, Refusal>
        ensures { Walks self.old (span_of (the_text (reads self.old (needed c)))) (reads self.old (needed c)).seen result self.new }
    {
        self.expect(&[b' ', c, b'='], Refusal::OtherAttribute)?;
        self.expect(b"\"", Refusal::BadQuote)?;
        let start = self.place;
        let end = text_end(self.bytes, start);
        self.place = end;
        self.expect(b"\"", Refusal::BadQuote)?;
        Ok(Span { start, end })
    }

    fn is_here(&self, c: u8) -> bool
        ensures { result ≡ is_here self.now.bytes.now self.now.place (optional c) }
    {
        is_at(self.bytes, self.place, b' ') && is_at(self.bytes, self.place + 1, c)
    }

    // An attribute that may be absent: it is, unless a blank and its letter come.
    fn optional(&mut self, c: u8) -> Result<Option<Span>, Refusal>
        ensures { Walks self.old (the_text (reads self.old (optional c))) (reads self.old (optional c)).seen result self.new }
    {
        if !self.is_here(c) {
            return Ok(None);
        }
        Ok(Some(self.needed(c)?))
    }

    // Blank, slash, bracket and line feed. A letter where the slash should stand is an attribute that is unknown, late or given twice.
    fn end(&mut self) -> Result<(), Refusal>
        ensures { Walks self.old tt (ends self.old) result self.new }
    {
        self.expect(b" ", Refusal::NoLineEnd)?;
        if is_letter(wire::byte_at(self.bytes, self.place)) {
            return Err(Refusal::OtherAttribute);
        }
        self.expect(b"/>\n", Refusal::NoLineEnd)
    }
}

// A record, and the form of the line that it stands in.
trait Record: Copy {
    ghost form: { List Asked };

    ghost made: { List Optional → Self };

    fn read(reader: &mut LineReader<'_>) -> Result<Self, Refusal>
        ensures { Walks reader.old (made (line reader.old form).texts) (line reader.old form).seen result reader.new };
}

impl Record for ArchiveRecord {
    ghost form = { archive };

    ghost made = { archive_record };

    // The forms of the two files are in `read` of their records, each attribute in its own field.
    fn read(reader: &mut LineReader<'_>) -> Result<ArchiveRecord, Refusal> {
        reader.expect(b"<r", Refusal::OtherTag)?;
        let r = reader.optional(b'R')?;
        let s = reader.needed(b'S')?;
        let n = reader.needed(b'N')?;
        let v = reader.needed(b'V')?;
        let e = reader.needed(b'E')?;
        let c = reader.optional(b'C')?;
        let t = reader.optional(b'T')?;
        reader.end()?;
        Ok(ArchiveRecord {
            r,
            s,
            n,
            v,
            e,
            c,
            t,
        })
    }
}

impl Record for DeviceRecord {
    ghost form = { device_list };

    ghost made = { device_record };

    fn read(reader: &mut LineReader<'_>) -> Result<DeviceRecord, Refusal> {
        reader.expect(b"<r", Refusal::OtherTag)?;
        let d = reader.needed(b'D')?;
        let k = reader.needed(b'K')?;
        let s = reader.needed(b'S')?;
        reader.end()?;
        Ok(DeviceRecord { d, k, s })
    }
}

// A place of a file as line and column.
fn position_of(file: &[u8], place: usize) -> Position
    ensures { result ≡ position file.now place }
{
    let mut line = 1;
    let mut column = 1;
    for b in wire::front(file, place) {
        if *b == b'\n' {
            line += 1;
            column = 1;
        } else {
            column += 1;
        }
    }
    Position { line, column }
}

// The record of a line at a place of its file.
fn read<T: Record>(file: &[u8], place: usize) -> LineRead<T>
    ensures { result ≡ in_file T.made (read_line T.form file.now place) }
{
    if file.len() <= place {
        return LineRead {
            answer: Ok(None),
            next: place,
        };
    }
    let mut reader = LineReader { bytes: file, place };
    match T::read(&mut reader) {
        Ok(record) => LineRead {
            answer: Ok(Some(record)),
            next: reader.place,
        },
        Err(refusal) => LineRead {
            answer: Err(Fault {
                refusal,
                at: position_of(file, reader.place),
            }),
            next: place,
        },
    }
}

// The record of an archive at a place of its file. Each file has its readers by name; they are one function.
pub fn read_record(file: &[u8], place: usize) -> ArchiveRead
    ensures { result ≡ read_record file.now place }
{
    read(file, place)
}

// The record of the device list at a place of its file.
pub fn read_device(file: &[u8], place: usize) -> DeviceRead
    ensures { result ≡ read_device file.now place }
{
    read(file, place)
}

// The text of an attribute, as a part of the file that it was read from.
pub fn text(file: &[u8], span: Span) -> &[u8]
    ensures { result.now ≡ text_of file.now span }
{
    wire::front(
        wire::rest(file, span.start),
        wire::minus(span.end, span.start),
    )
}

// What an attribute of a record means, absent or not: an absent R is S, and for an absent C or T none is the text 0.
pub fn meaning_of(given: ArchiveRecord, attribute: Attribute) -> Option<Span>
    ensures { result ≡ meaning given attribute }
{
    match attribute {
        Attribute::R => Some(given.r.unwrap_or(given.s)),
        Attribute::S => Some(given.s),
        Attribute::N => Some(given.n),
        Attribute::V => Some(given.v),
        Attribute::E => Some(given.e),
        Attribute::C => given.c,
        Attribute::T => given.t,
    }
}

// A reader at the beginning of a file.
pub fn new<'a>(bytes: &'a [u8]) -> LineReader<'a>
    ensures { result ≡ reader_at bytes.entry 0 }
{
    LineReader { bytes, place: 0 }
}

// The next record: thin, over `read`. At the end and at a refusal the reader's place stays.
fn next<T: Record>(reader: &mut LineReader<'_>) -> Result<Option<T>, Fault>
    ensures { (result ≡ (in_file T.made (read_line T.form reader.old.bytes.now reader.old.place)).answer) × (reader.new ≡ reader_at reader.old.bytes (in_file T.made (read_line T.form reader.old.bytes.now reader.old.place)).next) }
{
    let read = read(reader.bytes, reader.place);
    reader.place = read.next;
    read.answer
}

// From plain parameters: a reader at this place is lent to one call of `next`.
fn next_plain<T: Record>(bytes: &[u8], place: usize) -> LineRead<T>
    ensures { result ≡ in_file T.made (read_line T.form bytes.now place) }
{
    let mut reader = LineReader { bytes, place };
    let answer = next(&mut reader);
    LineRead {
        answer,
        next: reader.place,
    }
}

// The next record of an archive.
pub fn next_record<'s, 'a>(reader: &'s mut LineReader<'a>) -> ArchiveAnswer
    ensures { (result ≡ (record_at reader.old).answer) × (reader.new ≡ reader_at reader.old.bytes (record_at reader.old).next) }
{
    next(reader)
}

// The next record of a device list.
pub fn next_device<'s, 'a>(reader: &'s mut LineReader<'a>) -> DeviceAnswer
    ensures { (result ≡ (device_at reader.old).answer) × (reader.new ≡ reader_at reader.old.bytes (device_at reader.old).next) }
{
    next(reader)
}

// For every other caller: of an archive.
pub fn next_record_plain(bytes: &[u8], place: usize) -> ArchiveRead
    ensures { result ≡ read_record bytes.now place }
{
    next_plain(bytes, place)
}

// Of a device list.
pub fn next_device_plain(bytes: &[u8], place: usize) -> DeviceRead
    ensures { result ≡ read_device bytes.now place }
{
    next_plain(bytes, place)
}
