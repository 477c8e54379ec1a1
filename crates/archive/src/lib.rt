// What an archive holds, and which archive a reading came from, with the numbers that archive requests and cards have for it.
#![tactic(auto)]

ghost use Rattle.std.specs.Prelude.{◌≡◌};
ghost use Rattle.archive.specs.Archive.{type_from, type_number, source_from, source_number};

// What an archive holds.
#[derive(Clone, Copy, Debug, PartialEq, Eq)]
pub enum ArchiveKind {
    Hourly = 1,
    Daily = 2,
    Monthly = 3,
    HalfHourly = 4,
}

// Where a reading came from: read as it stood, or out of an archive.
#[derive(Clone, Copy, Debug, PartialEq, Eq)]
pub enum Source {
    Current,
    Archive(ArchiveKind),
}

// A number that is none of the four is the last kind, as `type_from` of specs has it; a From would promise that no number is lost.
pub fn type_from(number: u16) -> ArchiveKind
    ensures { result ≡ type_from number }
{
    match number {
        1 => ArchiveKind::Hourly,
        2 => ArchiveKind::Daily,
        3 => ArchiveKind::Monthly,
        _ => ArchiveKind::HalfHourly,
    }
}

impl From<ArchiveKind> for u8 {
    ghost from_gives = { λ kind n. n ≡ type_number kind };

    fn from(kind: ArchiveKind) -> u8 {
        kind as u8
    }
}

// A kind's conversion under a name of its own: `type_number_unique` speaks of it.
pub fn type_number(kind: ArchiveKind) -> u8
    ensures { result ≡ type_number kind }
{
    u8::from(kind)
}

// Of any number too, as `source_from` of specs has it.
pub fn source_from(number: u8) -> Source
    ensures { result ≡ source_from number }
{
    if number == 0 {
        return Source::Current;
    }
    Source::Archive(type_from(number as u16))
}

impl From<Source> for u8 {
    ghost from_gives = { λ source n. n ≡ source_number source };

    fn from(source: Source) -> u8 {
        match source {
            Source::Current => 0,
            Source::Archive(kind) => u8::from(kind),
        }
    }
}

// A source's, in the same way.
pub fn source_number(source: Source) -> u8
    ensures { result ≡ source_number source }
{
    u8::from(source)
}
