// An SM160 frame by its fields alone, read and written. What each function answers is in specs/.
#![tactic(auto)]

ghost use Rattle.std.specs.Prelude.{◌≡◌, ◌+◌, ◌≤◌, true, length};
ghost use Rattle.std.proofs.lemmas.List.Edits.{sets};
ghost use Rattle.wire.specs.Numbers.{over};
ghost use Rattle.wire.specs.Answer.{judged};
ghost use Rattle.sm160_frame.specs.Layout.{is_flag, has, session_of, offset_of, size_of, crc_of, crc_due, flags_of, part_of, is_start, is_end, frame_with, frame_bytes};
ghost use Rattle.sm160_frame.specs.Reading.{bad_largest, too_short, wrong_size, bad_part, wrong_crc, bad_flags, frame_fault, fields_of, read_frame};
ghost use Rattle.sm160_frame.specs.Writing.{WritesFrame};

use wire::{Refusal, Written};

// The flags: QA marks a master's frame, START a file's first, END its last.
const QA: u16 = 1;

pub const START: u16 = 2;

pub const END: u16 = 4;

// The largest part of all: a frame's by its fields alone, and the largest that can be agreed on.
pub const LARGEST: usize = 240;

// Part size and CRC16 are made where a frame is written and judged where it is read; the part is `part_of`.
#[derive(Clone, Copy, Debug, PartialEq, Eq)]
pub struct Fields {
    pub session: u16,
    pub offset: u32,
    pub flags: u16,
}

pub fn session_of(bytes: &[u8]) -> u16
    ensures { result ≡ session_of bytes.now }
{
    wire::le16_at(bytes, 0)
}

pub fn offset_of(bytes: &[u8]) -> u32
    ensures { result ≡ offset_of bytes.now }
{
    wire::le32_at(bytes, 2)
}

fn size_of(bytes: &[u8]) -> u16
    ensures { result ≡ size_of bytes.now }
{
    wire::le16_at(bytes, 6)
}

fn crc_of(bytes: &[u8]) -> u16
    ensures { result ≡ crc_of bytes.now }
{
    wire::le16_at(bytes, 8)
}

fn flags_of(bytes: &[u8]) -> u16
    ensures { result ≡ flags_of bytes.now }
{
    wire::le16_at(bytes, 10)
}

// The bytes after the header.
pub fn part_of(bytes: &[u8]) -> &[u8]
    ensures { result.now ≡ part_of bytes.now }
{
    wire::rest(bytes, 12)
}

fn has(flag: u16, flags: u16) -> bool
    requires { is_flag flag ≡ true }
    ensures { result ≡ has flag flags }
{
    flags & flag != 0
}

pub fn is_start(bytes: &[u8]) -> bool
    ensures { result ≡ is_start bytes.now }
{
    has(START, flags_of(bytes))
}

pub fn is_end(bytes: &[u8]) -> bool
    ensures { result ≡ is_end bytes.now }
{
    has(END, flags_of(bytes))
}

// The CRC16 that the frame must bear: from 0000, its own two bytes taken as zero.
fn crc_due(bytes: &[u8]) -> u16
    ensures { result ≡ crc_due bytes.now }
{
    let zeros = [0u8; 2];
    let to_crc = checksum::checksum_from(0, wire::front(bytes, 8));
    let to_flags = checksum::checksum_from(to_crc, &zeros);
    checksum::checksum_from(to_flags, wire::rest(bytes, 10))
}

// Whether a largest part is no number from 1 to 240.
pub fn bad_largest(largest: usize) -> bool
    ensures { result ≡ bad_largest largest }
{
    (largest == 0) | (LARGEST < largest)
}

fn too_short(bytes: &[u8]) -> bool
    ensures { result ≡ too_short bytes.now }
{
    bytes.len() < 12
}

fn wrong_size(bytes: &[u8]) -> bool
    ensures { result ≡ wrong_size bytes.now }
{
    size_of(bytes) as usize != part_of(bytes).len()
}

fn bad_part(part: &[u8], limit: usize) -> bool
    ensures { result ≡ bad_part limit part.now }
{
    part.is_empty() | (limit < part.len())
}

fn wrong_crc(bytes: &[u8]) -> bool
    ensures { result ≡ wrong_crc bytes.now }
{
    crc_of(bytes) != crc_due(bytes)
}

fn bad_flags(flags: u16) -> bool
    ensures { result ≡ bad_flags flags }
{
    has(QA, flags) | (QA + START + END < flags)
}

fn bad_part_in(bytes: &[u8], limit: usize) -> bool
    ensures { result ≡ bad_part limit (part_of bytes.now) }
{
    bad_part(part_of(bytes), limit)
}

fn bad_flags_in(bytes: &[u8]) -> bool
    ensures { result ≡ bad_flags (flags_of bytes.now) }
{
    bad_flags(flags_of(bytes))
}

// The first rule of 21 to 25 that the frame breaks, with a limit for its part.
pub fn frame_fault(bytes: &[u8], limit: usize) -> Result<(), Refusal>
    ensures { result ≡ judged tt (frame_fault limit bytes.now) }
{
    if too_short(bytes) {
        return Err(Refusal::ShortFrame);
    }
    if wrong_size(bytes) {
        return Err(Refusal::WrongSize);
    }
    if bad_part_in(bytes, limit) {
        return Err(Refusal::BadPart);
    }
    if wrong_crc(bytes) {
        return Err(Refusal::WrongPartCrc);
    }
    if bad_flags_in(bytes) {
        return Err(Refusal::BadFlags);
    }
    Ok(())
}

impl Fields {
    // Those that the bytes hold.
    fn of(bytes: &[u8]) -> Fields
        ensures { result ≡ fields_of bytes.now }
    {
        Fields {
            session: session_of(bytes),
            offset: offset_of(bytes),
            flags: flags_of(bytes),
        }
    }

    // A frame that bears 0 as its CRC16.
    fn put_uncovered(self, part: &[u8], out: &mut [u8])
        requires { length part.now ≤ 240 }
        ensures { out.new ≡ sets out.old 0 (frame_with 0 self.session self.offset self.flags part.now) }
    {
        wire::put_le16(out, 0, self.session);
        wire::put_le32(out, 2, self.offset);
        wire::put_le16(out, 6, part.len() as u16);
        wire::put_le16(out, 8, 0);
        wire::put_le16(out, 10, self.flags);
        wire::put_all(out, 12, part);
    }

    fn put(self, part: &[u8], out: &mut [u8])
        requires { (length part.now ≤ 240) × (length part.now + 12 ≤ length out.old) }
        ensures { out.new ≡ over out.old (frame_bytes self.session self.offset self.flags part.now) }
    {
        self.put_uncovered(part, out);
        let crc = crc_due(&out[..part.len() + 12]);
        wire::put_le16(out, 8, crc);
    }
}

pub fn read_frame(bytes: &[u8]) -> Result<Fields, Refusal>
    ensures { result ≡ read_frame bytes.now }
{
    frame_fault(bytes, LARGEST)?;
    Ok(Fields::of(bytes))
}

// The frame, over the front of out. Its fields come one by one, as `WritesFrame` names them.
pub fn write_frame(session: u16, offset: u32, flags: u16, part: &[u8], out: &mut [u8]) -> Written
    ensures { WritesFrame session offset flags part.now out.old result out.new }
{
    if bad_part(part, LARGEST) {
        return Err(Refusal::BadPart);
    }
    if bad_flags(flags) {
        return Err(Refusal::BadFlags);
    }
    let n = part.len() + 12;
    if out.len() < n {
        return Err(Refusal::NoRoom);
    }
    let fields = Fields {
        session,
        offset,
        flags,
    };
    fields.put(part, out);
    Ok(n)
}
