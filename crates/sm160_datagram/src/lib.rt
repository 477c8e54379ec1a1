// An SM160 datagram, which is what a file is: judged over two stretches (bytes that are held, and a part that follows them), read, and written.
// What each function answers is in specs/.
#![tactic(auto)]

ghost use Rattle.std.specs.Prelude.{◌≡◌, ℕ, List, ◌++◌, ◌+◌, ◌≤◌, length, get_or, take, drop};
ghost use Rattle.std.proofs.lemmas.List.Edits.{sets};
ghost use Rattle.wire.specs.Numbers.{of_le, field, over};
ghost use Rattle.wire.specs.Answer.{judged};
ghost use Rattle.sm160_datagram.specs.Layout.{crc_due, options_of, data_of, opening_bytes, closing_bytes, datagram_bytes};
ghost use Rattle.sm160_datagram.specs.Reading.{differ, bad_lengths, wrong_crc, compressed, datagram_fault, read_datagram};
ghost use Rattle.sm160_datagram.specs.Writing.{WritesDatagram};

use std::marker::Model;
use wire::{Refusal, Written};

// ---- two stretches as one

// The first W bytes; one past the end is 0.
fn first_bytes<const W: usize>(bytes: &[u8]) -> [u8; W]
    ensures { result ≡ field bytes.now 0 W }
{
    if let Some(first) = bytes.first_chunk() {
        return *first;
    }
    let mut first = [0u8; W];
    wire::put_all(&mut first, 0, bytes);
    first
}

// Bytes that are held and a part that follows them, as if joined.
#[derive(Drop)]
struct Joined<'a> {
    held: &'a [u8],
    part: &'a [u8],
}

impl<'a> Model for Joined<'a> {
    ghost Value = { List ℕ };

    ghost view = { λ j. j.held.now ++ j.part.now };
}

impl<'a> Joined<'a> {
    fn len(&self) -> usize
        ensures { result ≡ length self.now }
    {
        self.held.len() + self.part.len()
    }

    fn byte_at(&self, at: usize) -> u8
        ensures { result ≡ get_or self.now at 0 }
    {
        if at < self.held.len() {
            self.held[at]
        } else {
            wire::byte_at(self.part, at - self.held.len())
        }
    }

    // The W bytes from a place on, for a number that the cut may go through: taken as they stand where one of the two has them all, and else gathered.
    fn field<const W: usize>(&self, at: usize) -> [u8; W]
        ensures { result ≡ field self.now at W }
    {
        let left = wire::minus(self.held.len(), at);
        if W <= left {
            return first_bytes(wire::rest(self.held, at));
        }
        let behind = wire::rest(self.part, wire::minus(at, self.held.len()));
        if left == 0 {
            return first_bytes(behind);
        }
        let mut bytes = [0u8; W];
        wire::put_all(&mut bytes, 0, wire::rest(self.held, at));
        wire::put_all(&mut bytes, left, behind);
        bytes
    }

    // The CRC-32 that they must bear: over all before the data length, the held bytes first.
    fn crc_due(&self) -> u32
        ensures { result ≡ crc_due self.now }
    {
        let covered = wire::minus(self.len(), 12);
        let of_held = checksum::crc32_from(0, wire::front(self.held, covered));
        checksum::crc32_from(
            of_held,
            wire::front(self.part, wire::minus(covered, self.held.len())),
        )
    }

    fn bad_lengths(&self) -> bool
        ensures { result ≡ bad_lengths self.now }
    {
        let n = self.len();
        lengths_differ(
            n,
            u32::from_le_bytes(self.field(2)),
            u64::from_le_bytes(self.field(wire::minus(n, 12))),
        )
    }

    fn wrong_crc(&self) -> bool
        ensures { result ≡ wrong_crc self.now }
    {
        let at = wire::minus(self.len(), 4);
        u32::from_le_bytes(self.field(at)) != self.crc_due()
    }

    fn is_compressed(&self) -> bool
        ensures { result ≡ compressed self.now }
    {
        self.byte_at(1) != 0
    }

    fn judge(&self) -> Result<(), Refusal>
        ensures { result ≡ judged tt (datagram_fault self.now) }
    {
        if self.bad_lengths() {
            return Err(Refusal::BadLengths);
        }
        if self.wrong_crc() {
            return Err(Refusal::WrongDatagramCrc);
        }
        if self.is_compressed() {
            return Err(Refusal::Compressed);
        }
        Ok(())
    }
}

// The lengths are taken off, one after the other, and not summed: a sum could wrap.
fn lengths_differ(n: usize, options: u32, content: u64) -> bool
    ensures { result ≡ differ n options content }
{
    let left = wire::minus(n, 18);
    let o = options as usize;
    (n < 18) | (left < o) | (wire::minus(left, o) as u64 != content)
}

// The first rule of 37 to 39 that the held bytes and the part after them break, as if joined: they are lent apart, as a receiver has them.
pub fn datagram_fault(held: &[u8], part: &[u8]) -> Result<(), Refusal>
    ensures { result ≡ judged tt (datagram_fault (held.now ++ part.now)) }
{
    let joined = Joined { held, part };
    joined.judge()
}

// ---- read

// The same of bytes in one stretch.
pub fn fault_of(bytes: &[u8]) -> Result<(), Refusal>
    ensures { result ≡ judged tt (datagram_fault bytes.now) }
{
    datagram_fault(bytes, &[])
}

// The options, as a part of the bytes.
pub fn options_of(bytes: &[u8]) -> &[u8]
    ensures { result.now ≡ options_of bytes.now }
{
    wire::front(wire::rest(bytes, 6), wire::le32_at(bytes, 2) as usize)
}

// The data, as a part of the bytes.
pub fn data_of(bytes: &[u8]) -> &[u8]
    ensures { result.now ≡ data_of bytes.now }
{
    wire::rest(
        wire::front(bytes, wire::minus(bytes.len(), 12)),
        6 + wire::le32_at(bytes, 2) as usize,
    )
}

// Its type; options and data are `options_of` and `data_of`.
pub fn read_datagram(bytes: &[u8]) -> Result<u8, Refusal>
    ensures { result ≡ read_datagram bytes.now }
{
    fault_of(bytes)?;
    Ok(wire::byte_at(bytes, 0))
}

// ---- written

// What stands before the options, whose length is given.
pub fn put_opening(out: &mut [u8], kind: u8, options: u32)
    ensures { out.new ≡ sets out.old 0 (opening_bytes kind options) }
{
    wire::put(out, 0, kind);
    wire::put(out, 1, 0);
    wire::put_le32(out, 2, options);
}

// What stands after the data, whose length is given, from the place up to which all is covered.
pub fn put_closing(out: &mut [u8], covered: usize, content: u64)
    ensures { out.new ≡ sets out.old covered (closing_bytes content (take covered out.old)) }
{
    let mut closing = [0u8; 12];
    let crc = checksum::crc32_from(0, wire::front(&out[..], covered));
    wire::put_le64(&mut closing, 0, content);
    wire::put_le32(&mut closing, 8, crc);
    wire::put_all(out, covered, &closing);
}

fn put_datagram(kind: u8, options: &[u8], content: &[u8], out: &mut [u8])
    requires { (length options.now ≤ 4294967295) × (length options.now + length content.now + 18 ≤ length out.old) }
    ensures { out.new ≡ over out.old (datagram_bytes kind options.now content.now) }
{
    put_opening(out, kind, options.len() as u32);
    wire::put_all(out, 6, options);
    wire::put_all(out, options.len() + 6, content);
    put_closing(out, options.len() + content.len() + 6, content.len() as u64);
}

// The datagram, over the front of out.
pub fn write_datagram(kind: u8, options: &[u8], content: &[u8], out: &mut [u8]) -> Written
    ensures { WritesDatagram kind options.now content.now out.old result out.new }
{
    if 4_294_967_295 < options.len() {
        return Err(Refusal::BadLengths);
    }
    let n = options.len() + content.len() + 18;
    if out.len() < n {
        return Err(Refusal::NoRoom);
    }
    put_datagram(kind, options, content, out);
    Ok(n)
}
