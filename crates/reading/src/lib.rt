// A reading keeps its kind and all its bits. The float cases hold the bits too: no float is made from the pattern of a NaN here, and
// all ones, which means absent, is one.
#![tactic(auto)]

pub mod mask;
pub mod values;

ghost use Rattle.std.specs.Prelude.{◌≡◌};
ghost use Rattle.reading.specs.Reading.{width_of, number_of, kind_from, reading_of, bits_of, kind_of, is_absent, same, other_length, read_value};

use wire::Refusal;

#[derive(Clone, Copy, Debug, PartialEq, Eq)]
pub enum Kind {
    F32 = 0,
    F64 = 1,
    U32 = 2,
    U64 = 3,
}

#[derive(Clone, Copy, Debug, PartialEq, Eq)]
pub enum Reading {
    F32(u32),
    F64(u64),
    U32(u32),
    U64(u64),
}

// How many bytes a value of the kind has.
pub fn width_of(kind: Kind) -> usize
    ensures { result ≡ width_of kind }
{
    match kind {
        Kind::F32 => 4,
        Kind::F64 => 8,
        Kind::U32 => 4,
        Kind::U64 => 8,
    }
}

// A kind's number, as the card has it.
impl From<Kind> for u8 {
    ghost from_gives = { λ kind n. n ≡ number_of kind };

    fn from(kind: Kind) -> u8 {
        kind as u8
    }
}

// A kind's number, as the card has it: the conversion under a name of its own, of which `number_of_unique` speaks.
pub fn number_of(kind: Kind) -> u8
    ensures { result ≡ number_of kind }
{
    u8::from(kind)
}

// The kind of a number of two bits. Of a greater one it is the last kind, as `kind_from` of specs has it; a From would promise that none is lost.
pub fn kind_from(number: u8) -> Kind
    ensures { result ≡ kind_from number }
{
    match number {
        0 => Kind::F32,
        1 => Kind::F64,
        2 => Kind::U32,
        _ => Kind::U64,
    }
}

// The reading of a kind whose bits are the lowest of these.
pub fn of_bits(kind: Kind, bits: u64) -> Reading
    ensures { result ≡ reading_of kind bits }
{
    match kind {
        Kind::F32 => Reading::F32((bits % 0x1_0000_0000) as u32),
        Kind::F64 => Reading::F64(bits),
        Kind::U32 => Reading::U32((bits % 0x1_0000_0000) as u32),
        Kind::U64 => Reading::U64(bits),
    }
}

pub fn bits(r: Reading) -> u64
    ensures { result ≡ bits_of r }
{
    match r {
        Reading::F32(n) => n as u64,
        Reading::F64(n) => n,
        Reading::U32(n) => n as u64,
        Reading::U64(n) => n,
    }
}

// No From: a kind is a part of a reading, and not another form of it.
pub fn kind_of(r: Reading) -> Kind
    ensures { result ≡ kind_of r }
{
    match r {
        Reading::F32(_) => Kind::F32,
        Reading::F64(_) => Kind::F64,
        Reading::U32(_) => Kind::U32,
        Reading::U64(_) => Kind::U64,
    }
}

// Absence is asked of the bits: as a number, all ones equals nothing, itself included.
pub fn is_absent(r: Reading) -> bool
    ensures { result ≡ is_absent r }
{
    match r {
        Reading::F32(n) => n == 0xFFFF_FFFF,
        Reading::F64(n) => n == 0xFFFF_FFFF_FFFF_FFFF,
        Reading::U32(n) => n == 0xFFFF_FFFF,
        Reading::U64(n) => n == 0xFFFF_FFFF_FFFF_FFFF,
    }
}

// The same kind and the same bits: the derived equality, under the name that the promises use.
pub fn is_same(a: Reading, b: Reading) -> bool
    ensures { result ≡ same a b }
{
    a == b
}

fn other_length(kind: Kind, bytes: &[u8]) -> bool
    ensures { result ≡ other_length kind bytes.now }
{
    bytes.len() != width_of(kind)
}

// From a kind and the value's own bytes.
pub fn read_value(kind: Kind, bytes: &[u8]) -> Result<Reading, Refusal>
    ensures { result ≡ read_value kind bytes.now }
{
    if other_length(kind, bytes) {
        return Err(Refusal::BadBody);
    }
    Ok(of_bits(kind, wire::le64_at(bytes, 0)))
}
