// Files of ADI heat meters, read by file record: Modbus function 14 (hexadecimal). This room has the descriptor that record 0 of a file holds, and what requests and replies share.
// What each answers is in specs/.
#![tactic(auto)]

pub mod head;

ghost use Rattle.std.specs.Prelude.{◌≡◌};
ghost use Rattle.wire.specs.Answer.{judged};
ghost use Rattle.wire.specs.Refusal.{first};
ghost use Rattle.adi.specs.Descriptor.{contents_number, contents_from, contents_rules, no_descriptor, read_descriptor};

use wire::{Refusal, be16_at};

// Modbus's Read File Record.
pub const FUNCTION: u8 = 0x14;

// What a file holds.
#[derive(Clone, Copy, Debug, PartialEq, Eq)]
pub enum Contents {
    Events = 0,
    Hourly = 1,
    Daily = 2,
    Monthly = 3,
}

#[derive(Clone, Copy, Debug, PartialEq, Eq)]
pub struct Descriptor {
    // Of the descriptor itself.
    pub length: u16,
    // Its type, 1.
    pub kind: u16,
    // How many the file has, without record 0.
    pub records: u16,
    // Of each of them, in bytes.
    pub record_length: u16,
    pub contents: Contents,
    // The index of the record that is written next, from 0: no number of a record, since record 0 is the descriptor.
    pub next: u16,
    // Of the records written since the archive was reset.
    pub total: u32,
}

// A number above 3 is that of no contents.
impl TryFrom<u16> for Contents {
    type Error = Refusal;

    ghost try_from_gives = { λ number result. result ≡ judged (contents_from number) (first (contents_rules number)) };

    fn try_from(number: u16) -> Result<Contents, Refusal> {
        match number {
            0 => Ok(Contents::Events),
            1 => Ok(Contents::Hourly),
            2 => Ok(Contents::Daily),
            3 => Ok(Contents::Monthly),
            _ => Err(Refusal::BadDescriptor),
        }
    }
}

impl From<Contents> for u8 {
    ghost from_gives = { λ contents number. number ≡ contents_number contents };

    fn from(contents: Contents) -> u8 {
        contents as u8
    }
}

// A number's conversion under a name of its own: `contents_number_unique` speaks of it.
pub fn contents_number(contents: Contents) -> u8
    ensures { result ≡ contents_number contents }
{
    u8::from(contents)
}

// Too short for a descriptor, or of another type.
fn no_descriptor(registers: &[u8]) -> bool
    ensures { result ≡ no_descriptor registers.now }
{
    (registers.len() < 16) | (be16_at(registers, 2) != 1)
}

// The descriptor, out of the register bytes of record 0.
pub fn read_descriptor(registers: &[u8]) -> Result<Descriptor, Refusal>
    ensures { result ≡ read_descriptor registers.now }
{
    if no_descriptor(registers) {
        return Err(Refusal::BadDescriptor);
    }
    Ok(Descriptor {
        length: be16_at(registers, 0),
        kind: be16_at(registers, 2),
        records: be16_at(registers, 4),
        record_length: be16_at(registers, 6),
        contents: Contents::try_from(be16_at(registers, 8))?,
        next: be16_at(registers, 10),
        total: be16_at(registers, 12) as u32 + be16_at(registers, 14) as u32 * 65536,
    })
}
