// The Modbus envelopes RTU and TCP, read and written, and what they share with ASCII. Nothing may follow an envelope. What each answers is in specs/.
#![tactic(auto)]

pub mod envelope;

ghost use Rattle.std.specs.Prelude.{◌≡◌, ◌+◌, ◌≤◌, length};
ghost use Rattle.std.proofs.lemmas.List.Edits.{sets};
ghost use Rattle.wire.specs.Answer.{judged};
ghost use Rattle.wire.specs.Refusal.{first};
ghost use Rattle.modbus.specs.Envelope.{message, message_of, bytes_of, counted_of, envelope_output, WritesEnvelope};
ghost use Rattle.modbus.specs.Rtu.{rtu, rtu_data, rtu_pdu, rtu_rules, read_rtu, bad_crc};
ghost use Rattle.modbus.specs.Tcp.{tcp, tcp_data, tcp_pdu, tcp_rules, read_tcp, bad_protocol, bad_length};

use envelope::{Envelope, Message};
use wire::{Refusal, Written};

#[derive(Clone, Copy, Debug, PartialEq, Eq)]
pub struct Rtu {
    pub address: u8,
    pub function: u8,
}

#[derive(Clone, Copy, Debug, PartialEq, Eq)]
pub struct Tcp {
    pub transaction: u16,
    pub unit: u8,
    pub function: u8,
}

fn bad_crc(bytes: &[u8]) -> bool
    ensures { result ≡ bad_crc bytes.now }
{
    let n = wire::minus(bytes.len(), 2);
    wire::le16_at(bytes, n) != checksum::checksum(wire::front(bytes, n))
}

// The two limits are asked in both judges, as both lists of rules have them: a judge of the limits alone would be longer than what it saves.
fn judge_rtu(bytes: &[u8]) -> Result<(), Refusal>
    ensures { result ≡ judged tt (first (rtu_rules bytes.now)) }
{
    if envelope::too_short(bytes, 4) {
        return Err(Refusal::ShortEnvelope);
    }
    if envelope::too_long(bytes, 256) {
        return Err(Refusal::LongEnvelope);
    }
    if bad_crc(bytes) {
        return Err(Refusal::WrongCrc);
    }
    Ok(())
}

pub fn read_rtu(bytes: &[u8]) -> Result<Rtu, Refusal>
    ensures { result ≡ read_rtu bytes.now }
{
    judge_rtu(bytes)?;
    Ok(Rtu {
        address: wire::byte_at(bytes, 0),
        function: wire::byte_at(bytes, 1),
    })
}

// What stands between function and CRC.
pub fn rtu_data(bytes: &[u8]) -> &[u8]
    ensures { result.now ≡ rtu_data bytes.now }
{
    envelope::between(bytes, 2, 2)
}

// Function and data as one: what stands between address and CRC.
pub fn rtu_pdu(bytes: &[u8]) -> &[u8]
    ensures { result.now ≡ rtu_pdu bytes.now }
{
    envelope::between(bytes, 1, 2)
}

#[derive(Clone, Copy)]
struct InRtu;

impl Envelope for InRtu {
    ghost layout = { λ e. rtu };

    fn needed(&self, m: &Message) -> usize {
        wire::front(m.data, 253).len() + 4
    }

    fn put(&self, m: &Message, out: &mut [u8]) {
        if envelope::write_fault(m.data, self.needed(m), out).is_err() {
            return;
        }
        m.put(out, 0);
        let n = m.data.len() + 2;
        let crc = checksum::checksum(&out[..n]);
        wire::put_le16(out, n, crc);
    }
}

// The envelope, over the front of out. The message comes by its fields, as a host has them, and so in the other two.
pub fn write_rtu(address: u8, function: u8, data: &[u8], out: &mut [u8]) -> Written
    ensures { WritesEnvelope rtu (message address function «data».now) out.old result out.new }
{
    let m = Message {
        address,
        function,
        data,
    };
    envelope::write(&InRtu, &m, out)
}

fn bad_protocol(bytes: &[u8]) -> bool
    ensures { result ≡ bad_protocol bytes.now }
{
    wire::be16_at(bytes, 2) != 0
}

fn bad_length(bytes: &[u8]) -> bool
    ensures { result ≡ bad_length bytes.now }
{
    let after = wire::rest(bytes, 6);
    wire::be16_at(bytes, 4) as usize != after.len()
}

fn judge_tcp(bytes: &[u8]) -> Result<(), Refusal>
    ensures { result ≡ judged tt (first (tcp_rules bytes.now)) }
{
    if envelope::too_short(bytes, 8) {
        return Err(Refusal::ShortEnvelope);
    }
    if envelope::too_long(bytes, 260) {
        return Err(Refusal::LongEnvelope);
    }
    if bad_protocol(bytes) {
        return Err(Refusal::OtherProtocol);
    }
    if bad_length(bytes) {
        return Err(Refusal::WrongLengthField);
    }
    Ok(())
}

pub fn read_tcp(bytes: &[u8]) -> Result<Tcp, Refusal>
    ensures { result ≡ read_tcp bytes.now }
{
    judge_tcp(bytes)?;
    Ok(Tcp {
        transaction: wire::be16_at(bytes, 0),
        unit: wire::byte_at(bytes, 6),
        function: wire::byte_at(bytes, 7),
    })
}

// What stands after the function.
pub fn tcp_data(bytes: &[u8]) -> &[u8]
    ensures { result.now ≡ tcp_data bytes.now }
{
    envelope::between(bytes, 8, 0)
}

// Function and data as one: what stands after the unit.
pub fn tcp_pdu(bytes: &[u8]) -> &[u8]
    ensures { result.now ≡ tcp_pdu bytes.now }
{
    envelope::between(bytes, 7, 0)
}

#[derive(Clone, Copy)]
struct InTcp {
    transaction: u16,
}

impl Envelope for InTcp {
    ghost layout = { λ e. tcp e.transaction };

    fn needed(&self, m: &Message) -> usize {
        wire::front(m.data, 253).len() + 8
    }

    fn put(&self, m: &Message, out: &mut [u8]) {
        if envelope::write_fault(m.data, self.needed(m), out).is_err() {
            return;
        }
        wire::put_be16(out, 0, self.transaction);
        wire::put_be16(out, 2, 0);
        wire::put_be16(out, 4, (m.data.len() + 2) as u16);
        m.put(out, 6);
    }
}

// The envelope, over the front of out.
pub fn write_tcp(transaction: u16, unit: u8, function: u8, data: &[u8], out: &mut [u8]) -> Written
    ensures { WritesEnvelope (tcp transaction) (message unit function «data».now) out.old result out.new }
{
    let m = Message {
        address: unit,
        function,
        data,
    };
    envelope::write(&InTcp { transaction }, &m, out)
}
