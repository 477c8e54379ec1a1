// The SM160 datagrams that ask for a file (07) and bring it (87), with their options. What each function answers is in specs/.
#![tactic(auto)]

ghost use Rattle.std.specs.Prelude.{◌≡◌, ◌+◌, ◌≤◌, [], ◌∷◌, ltb, length};
ghost use Rattle.std.proofs.lemmas.List.Edits.{sets};
ghost use Rattle.wire.specs.Numbers.{over};
ghost use Rattle.wire.specs.Refusal.{◌when◌, first};
ghost use Rattle.wire.specs.Answer.{judged};
ghost use Rattle.sm160_datagram.specs.Layout.{options_of};
ghost use Rattle.sm160_datagram.specs.Reading.{datagram_fault};
ghost use Rattle.sm160_read_file.specs.Layout.{name_at, message_at, text_bytes, text_of};
ghost use Rattle.sm160_read_file.specs.Reading.{other_type, bad_text, bad_request, type_rules, read_request, read_reply};
ghost use Rattle.sm160_read_file.specs.Writing.{long_text, request_bytes, reply_bytes, WritesRequest, WritesReply};

use wire::{Refusal, Written};

const REQUEST: u8 = 0x07;

const REPLY: u8 = 0x87;

// Where the length of the options' text stands.
const NAME_AT: usize = 16;

const MESSAGE_AT: usize = 4;

// From which place of the file on, and how many bytes of it (all ones for all); the name is `name_of`.
#[derive(Clone, Copy, Debug, PartialEq, Eq)]
pub struct Request {
    pub offset: u64,
    pub size: u64,
}

// ---- read

// The text whose length stands at a place of the options.
fn text_of(options: &[u8], at: usize) -> &[u8]
    requires { at ≤ 16 }
    ensures { result.now ≡ text_of at options.now }
{
    wire::front(
        wire::rest(options, at + 2),
        wire::le16_at(options, at) as usize,
    )
}

fn other_type(bytes: &[u8], kind: u8) -> bool
    ensures { result ≡ other_type kind bytes.now }
{
    wire::byte_at(bytes, 0) != kind
}

fn bad_text(options: &[u8], at: usize) -> bool
    requires { at ≤ 16 }
    ensures { result ≡ bad_text at options.now }
{
    let n = options.len();
    (at + 3 + wire::le16_at(options, at) as usize != n)
        | (wire::byte_at(options, wire::minus(n, 1)) != 0)
}

// Of a datagram with these options.
fn bad_request(bytes: &[u8], options: &[u8]) -> bool
    requires { (datagram_fault bytes.now ≡ 0) × (options.now ≡ options_of bytes.now) }
    ensures { result ≡ bad_request bytes.now }
{
    bad_text(options, NAME_AT) | (bytes.len() != options.len() + 18)
}

// The first rule that holds of a datagram by itself and of its type.
fn type_fault(bytes: &[u8], kind: u8) -> Result<(), Refusal>
    ensures { result ≡ judged tt (first (type_rules kind bytes.now)) }
{
    sm160_datagram::fault_of(bytes)?;
    if other_type(bytes, kind) {
        return Err(Refusal::OtherType);
    }
    Ok(())
}

pub fn read_request(bytes: &[u8]) -> Result<Request, Refusal>
    ensures { result ≡ read_request bytes.now }
{
    type_fault(bytes, REQUEST)?;
    let options = sm160_datagram::options_of(bytes);
    if bad_request(bytes, options) {
        return Err(Refusal::BadText);
    }
    Ok(Request {
        offset: wire::le64_at(options, 0),
        size: wire::le64_at(options, 8),
    })
}

// The name that a request asks for, as a part of its bytes.
pub fn name_of(bytes: &[u8]) -> &[u8]
    ensures { result.now ≡ text_of name_at (options_of bytes.now) }
{
    text_of(sm160_datagram::options_of(bytes), NAME_AT)
}

// The status; the message is `message_of`, and what the file holds `sm160_datagram::data_of`.
pub fn read_reply(bytes: &[u8]) -> Result<u32, Refusal>
    ensures { result ≡ read_reply bytes.now }
{
    type_fault(bytes, REPLY)?;
    let options = sm160_datagram::options_of(bytes);
    if bad_text(options, MESSAGE_AT) {
        return Err(Refusal::BadText);
    }
    Ok(wire::le32_at(options, 0))
}

// The message of a reply, as a part of its bytes.
pub fn message_of(bytes: &[u8]) -> &[u8]
    ensures { result.now ≡ text_of message_at (options_of bytes.now) }
{
    text_of(sm160_datagram::options_of(bytes), MESSAGE_AT)
}

// ---- written

// A text of a length that its two bytes hold.
#[derive(Clone, Copy)]
struct Text<'a> {
    bytes: &'a [u8],
    ghost short: { length bytes.now ≤ 65535 },
}

impl Text<'_> {
    // With its length before it and its closing zero.
    fn put(&self, out: &mut [u8], at: usize)
        requires { at ≤ 22 }
        ensures { out.new ≡ sets out.old at (text_bytes self.now.bytes.now) }
    {
        wire::put_le16(out, at, self.bytes.len() as u16);
        wire::put_all(out, at + 2, self.bytes);
        wire::put(out, at + 2 + self.bytes.len(), 0);
    }
}

fn put_request(offset: u64, size: u64, name: Text<'_>, out: &mut [u8])
    requires { length name.bytes.now + 37 ≤ length out.old }
    ensures { out.new ≡ over out.old (request_bytes offset size name.entry.bytes.now) }
{
    sm160_datagram::put_opening(out, REQUEST, name.bytes.len() as u32 + 19);
    wire::put_le64(out, 6, offset);
    wire::put_le64(out, 14, size);
    name.put(out, 22);
    sm160_datagram::put_closing(out, name.bytes.len() + 25, 0);
}

fn put_reply(status: u32, message: Text<'_>, content: &[u8], out: &mut [u8])
    requires { length message.bytes.now + length content.now + 25 ≤ length out.old }
    ensures { out.new ≡ over out.old (reply_bytes status message.entry.bytes.now content.now) }
{
    sm160_datagram::put_opening(out, REPLY, message.bytes.len() as u32 + 7);
    wire::put_le32(out, 6, status);
    message.put(out, 10);
    wire::put_all(out, message.bytes.len() + 13, content);
    sm160_datagram::put_closing(
        out,
        message.bytes.len() + content.len() + 13,
        content.len() as u64,
    );
}

// How long a datagram with this text and these data is, `least` where both are empty; or the first rule that refuses writing it over an output of
// that room.
fn length_due(text: &[u8], content: &[u8], least: usize, room: usize) -> Result<usize, Refusal>
    requires { least ≤ 37 }
    ensures { let n = length text.now + length content.now + least in result ≡ judged n (first (36 when long_text text.now ∷ 16 when ltb room n ∷ [])) }
{
    if 65_535 < text.len() {
        return Err(Refusal::BadText);
    }
    let n = text.len() + content.len() + least;
    if room < n {
        return Err(Refusal::NoRoom);
    }
    Ok(n)
}

// The request's datagram, over the front of out.
pub fn write_request(offset: u64, size: u64, name: &[u8], out: &mut [u8]) -> Written
    ensures { WritesRequest offset size name.now out.old result out.new }
{
    let n = length_due(name, &[], 37, out.len())?;
    put_request(offset, size, Text { bytes: name }, out);
    Ok(n)
}

// The reply's datagram, over the front of out.
pub fn write_reply(status: u32, message: &[u8], content: &[u8], out: &mut [u8]) -> Written
    ensures { WritesReply status message.now content.now out.old result out.new }
{
    let n = length_due(message, content, 25, out.len())?;
    put_reply(status, Text { bytes: message }, content, out);
    Ok(n)
}
