// CRC-16 with the reflected polynomial A001, low bit first, no final change; it is sent low byte first. The LRC of Modbus ASCII. And the CRC-32 of
// the SM160 datagram.
#![tactic(auto)]

ghost use Rattle.std.specs.Prelude.{ℕ, ◌≡◌, ◌+◌, ◌%◌};
ghost use Rattle.checksum.specs.Crc.{CRC16, crc_bits, crc_byte, remainder, crc_from, crc};
ghost use Rattle.checksum.specs.Crc32.{CRC32, crc32_from};
ghost use Rattle.checksum.specs.Sums.{sum_from, closing};
ghost use Rattle.checksum.specs.Table.{fours};

// Four bits of each remainder below 16. It is laid out once for a message and lent: indexed where it stands, it would be laid out at each step.
const FOUR: [u16; 16] = [
    0x0000, 0xCC01, 0xD801, 0x1400, 0xF001, 0x3C00, 0x2800, 0xE401, 0xA001, 0x6C00, 0x7800, 0xB401,
    0x5000, 0x9C01, 0x8801, 0x4400,
];

const FOUR_OF_32: [u32; 16] = [
    0x0000_0000,
    0x1DB7_1064,
    0x3B6E_20C8,
    0x26D9_30AC,
    0x76DC_4190,
    0x6B6B_51F4,
    0x4DB2_6158,
    0x5005_713C,
    0xEDB8_8320,
    0xF00F_9344,
    0xD6D6_A3E8,
    0xCB61_B38C,
    0x9B64_C2B0,
    0x86D3_D2D4,
    0xA00A_E278,
    0xBDBD_F21C,
];

// A table of four bits, by the polynomial whose it is. Each has entries as wide as its polynomial, so that the CRC-16's is 32 bytes.
trait Fours {
    ghost poly: { ℕ };

    // Four bits of the remainder c: the lowest choose the entry, the others move down.
    fn four_bits(&self, c: u32) -> u32
        ensures { result ≡ crc_bits poly 4 c };
}

#[derive(Clone, Copy)]
struct Table16 {
    entries: [u16; 16],
    ghost holds: { entries ≡ fours CRC16 },
}

impl Fours for Table16 {
    ghost poly = { CRC16 };

    fn four_bits(&self, c: u32) -> u32 {
        (c / 16) ^ self.entries[(c % 16) as usize] as u32
    }
}

#[derive(Clone, Copy)]
struct Table32 {
    entries: [u32; 16],
    ghost holds: { entries ≡ fours CRC32 },
}

impl Fours for Table32 {
    ghost poly = { CRC32 };

    fn four_bits(&self, c: u32) -> u32 {
        (c / 16) ^ self.entries[(c % 16) as usize]
    }
}

// One byte more: its low half, then its high half.
fn add_byte<F: Fours>(table: &F, c: u32, b: u8) -> u32
    ensures { result ≡ crc_byte F.poly c b }
{
    table.four_bits(table.four_bits(c ^ b as u32))
}

// The bytes of a message after the remainder that stands at the start.
fn remainder_after<F: Fours>(table: &F, start: u32, bytes: &[u8]) -> u32
    ensures { result ≡ remainder F.poly start bytes.now }
{
    let mut c = start;
    for b in bytes {
        c = add_byte(table, c, *b);
    }
    c
}

// From a start value: a message in several stretches is summed one stretch after the other. An SM160 frame starts from 0000.
pub fn checksum_from(start: u16, bytes: &[u8]) -> u16
    ensures { result ≡ crc_from start bytes.now }
{
    let table = Table16 { entries: FOUR };
    prove!(size_of::<Table16>() == 32);
    remainder_after(&table, start as u32, bytes) as u16
}

// From FFFF, the rule of Pulsar-M and Modbus RTU.
pub fn checksum(bytes: &[u8]) -> u16
    ensures { result ≡ crc bytes.now }
{
    checksum_from(0xFFFF, bytes)
}

// One byte more of a sum modulo 256.
pub fn sum_byte(sum: u8, b: u8) -> u8
    ensures { result ≡ (sum + b) % 256 }
{
    sum.wrapping_add(b)
}

// From a sum: a message in several stretches is summed one stretch after the other.
pub fn sum_from(sum: u8, bytes: &[u8]) -> u8
    ensures { result ≡ sum_from sum bytes.now }
{
    let mut c = sum;
    for b in bytes {
        c = sum_byte(c, *b);
    }
    c
}

// The LRC of bytes with this sum.
pub fn lrc(sum: u8) -> u8
    ensures { result ≡ closing sum }
{
    sum.wrapping_neg()
}

// The CRC-32 of bytes that go on from a message whose CRC-32 is crc: 0 to begin with, and so over one stretch after the other.
pub fn crc32_from(crc: u32, bytes: &[u8]) -> u32
    ensures { result ≡ crc32_from crc bytes.now }
{
    let table = Table32 {
        entries: FOUR_OF_32,
    };
    remainder_after(&table, crc ^ 0xFFFF_FFFF, bytes) ^ 0xFFFF_FFFF
}
