// What the envelopes share: the message that is written, their limits, and the order of writing.
ghost use Rattle.std.specs.Prelude.{◌≡◌, ◌+◌, ◌-◌, ◌≤◌, length, take, drop};
ghost use Rattle.std.proofs.lemmas.List.Edits.{sets};
ghost use Rattle.wire.specs.Answer.{judged};
ghost use Rattle.wire.specs.Refusal.{first};
ghost use Rattle.modbus.specs.Envelope.{Envelope, message_of, content_of, bytes_of, counted_of, too_short, too_long, too_much, no_room, write_rules, envelope_output, WritesEnvelope};

use wire::{Refusal, Written};

// What is written; the address is TCP's unit.
#[derive(Clone, Copy, Debug, PartialEq, Eq)]
pub struct Message<'a> {
    pub address: u8,
    pub function: u8,
    pub data: &'a [u8],
}

impl Message<'_> {
    // Its bytes, from a place on, in an output that has room.
    pub(crate) fn put(&self, out: &mut [u8], at: usize)
        requires { at + 2 ≤ length out.old }
        ensures { out.new ≡ sets out.old at (content_of (message_of self.now)) }
    {
        wire::put(out, at, self.address);
        wire::put(out, at + 1, self.function);
        wire::put_all(out, at + 2, self.data);
    }
}

// What stands after so many bytes and before so many: each envelope names its parts by it.
pub fn between(bytes: &[u8], before: usize, after: usize) -> &[u8]
    ensures { result.now ≡ take (length bytes.now - (before + after)) (drop before bytes.now) }
{
    let rest = wire::rest(bytes, before);
    wire::front(rest, wire::minus(rest.len(), after))
}

pub fn too_short(bytes: &[u8], least: usize) -> bool
    ensures { result ≡ too_short least bytes.now }
{
    bytes.len() < least
}

pub fn too_long(bytes: &[u8], most: usize) -> bool
    ensures { result ≡ too_long most bytes.now }
{
    most < bytes.len()
}

fn too_much(data: &[u8]) -> bool
    ensures { result ≡ too_much «data».now }
{
    252 < data.len()
}

pub fn no_room(needed: usize, out: &[u8]) -> bool
    ensures { result ≡ no_room needed out.now }
{
    out.len() < needed
}

// The first fault in writing an envelope that needs so many bytes.
pub fn write_fault(data: &[u8], needed: usize, out: &[u8]) -> Result<(), Refusal>
    ensures { result ≡ judged tt (first (write_rules «data».now needed out.now)) }
{
    if too_much(data) {
        return Err(Refusal::TooLong);
    }
    if no_room(needed, out) {
        return Err(Refusal::NoRoom);
    }
    Ok(())
}

// How a message stands in bytes.
pub trait Envelope {
    ghost layout: { Self → Envelope };

    // How many bytes they are; of more data than 253 bytes, which is refused whatever they are, how many with the first 253.
    fn needed(&self, m: &Message) -> usize
        ensures { result ≡ length (bytes_of (layout self.now) (counted_of (message_of m.now))) };

    // Over the front of out, where no rule of writing refuses it.
    fn put(&self, m: &Message, out: &mut [u8])
        ensures { out.new ≡ envelope_output (layout self.now) (message_of m.now) out.old };
}

// The envelope, over the front of out.
pub fn write<E: Envelope>(e: &E, m: &Message, out: &mut [u8]) -> Written
    ensures { WritesEnvelope (E.layout e.now) (message_of m.now) out.old result out.new }
{
    let n = e.needed(m);
    write_fault(m.data, n, out)?;
    e.put(m, out);
    Ok(n)
}
