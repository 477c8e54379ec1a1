// The bodies of the standard functions' replies, read and written. A body is a head of fixed fields and, in three of the functions, value
// bytes after it; these are not copied: `reply_values` hands them back as a part of the body.
#![tactic(auto)]

mod judge;

ghost use Rattle.std.specs.Prelude.{◌≡◌, length};
ghost use Rattle.std.proofs.lemmas.List.Edits.{sets};
ghost use Rattle.wire.specs.Writes.{Writes};
ghost use Rattle.wire.proofs.Bools.{T_true};
ghost use Rattle.wire.specs.Refusal.{first};
ghost use Rattle.pulsar_reply.specs.Layout.{function_from, function_of, function_number, form_of, clock_of, archive_of, reply_of, archive_bytes, head_bytes, reply_bytes, values_of};
ghost use Rattle.pulsar_reply.specs.Reading.{read_reply};
ghost use Rattle.pulsar_reply.specs.Writing.{field_faults, writing_rules};
ghost use Rattle.pulsar_reply.specs.Heads.{head_few, length_head, named_faults};

use date::DateTime;
use pulsar_body::{Body, Form, Formed, Values};
use wire::{Refusal, Written};

#[derive(Clone, Copy, Debug, PartialEq, Eq)]
pub struct ArchiveReply {
    pub mask: u32,
    pub first: DateTime,
}

#[derive(Clone, Copy, Debug, PartialEq, Eq)]
pub enum Reply {
    // 00: the error byte.
    Error(u8),
    // 01: the values alone.
    Channels,
    // 02: the mask.
    ChannelsWritten(u32),
    // 04
    Clock(DateTime),
    // 04: no date, a reply of its own, as `clock_of` and `head_bytes` of specs/Layout have it.
    NoClock,
    // 05: the status.
    ClockSet(u8),
    // 06; the values follow it.
    Archive(ArchiveReply),
    // 0A: eight bytes alone.
    Parameter,
    // 0B
    ParameterWritten,
}

// The functions that a reply may have, and their numbers.
#[derive(Clone, Copy, Debug, PartialEq, Eq)]
pub enum Function {
    Error = 0x00,
    Channels = 0x01,
    ChannelsWritten = 0x02,
    Clock = 0x04,
    ClockSet = 0x05,
    Archive = 0x06,
    Parameter = 0x0A,
    ParameterWritten = 0x0B,
}

// None of a number that is no function: `body_fault` refuses it in its turn, 10 after 1, and so it is no TryFrom with a refusal.
fn function_from(number: u8) -> Option<Function>
    ensures { result ≡ function_from number }
{
    match number {
        0x00 => Some(Function::Error),
        0x01 => Some(Function::Channels),
        0x02 => Some(Function::ChannelsWritten),
        0x04 => Some(Function::Clock),
        0x05 => Some(Function::ClockSet),
        0x06 => Some(Function::Archive),
        0x0A => Some(Function::Parameter),
        0x0B => Some(Function::ParameterWritten),
        _ => None,
    }
}

impl Formed for Function {
    ghost the_form = { form_of };

    fn form(self) -> Form {
        let (head, values) = match self {
            Function::Error => (1, Values::Nothing),
            Function::Channels => (0, Values::Channels),
            Function::ChannelsWritten => (4, Values::Nothing),
            Function::Clock => (6, Values::Nothing),
            Function::ClockSet => (4, Values::Nothing),
            Function::Archive => (10, Values::Any),
            Function::Parameter => (0, Values::Eight),
            Function::ParameterWritten => (2, Values::Nothing),
        };
        Form { head, values }
    }
}

fn clock_of(d: DateTime) -> Reply
    ensures { result ≡ clock_of d }
{
    if date::is_no_date(d) {
        Reply::NoClock
    } else {
        Reply::Clock(d)
    }
}

fn archive_of(body: &[u8]) -> ArchiveReply
    ensures { result ≡ archive_of body.now }
{
    ArchiveReply {
        mask: wire::le32_at(body, 0),
        first: date::date_at(body, 4),
    }
}

fn reply_of(function: Function, body: &[u8]) -> Reply
    ensures { result ≡ reply_of function body.now }
{
    match function {
        Function::Error => Reply::Error(wire::byte_at(body, 0)),
        Function::Channels => Reply::Channels,
        Function::ChannelsWritten => Reply::ChannelsWritten(wire::le32_at(body, 0)),
        Function::Clock => clock_of(date::date_at(body, 0)),
        Function::ClockSet => Reply::ClockSet(wire::byte_at(body, 0)),
        Function::Archive => Reply::Archive(archive_of(body)),
        Function::Parameter => Reply::Parameter,
        Function::ParameterWritten => Reply::ParameterWritten,
    }
}

// `function` is the received frame's, `width` the bytes of a value, `mask` the asked one (of an 01 request).
pub fn read_reply(function: u8, width: usize, mask: u32, body: &[u8]) -> Result<Reply, Refusal>
    ensures { result ≡ read_reply function width mask body.now }
{
    let received = pulsar_body::body_fault(function_from(function), width, mask, body)?;
    judge::body_fields(received, mask, body)?;
    Ok(reply_of(received, body))
}

impl From<Reply> for Function {
    ghost from_gives = { λ reply f. f ≡ function_of reply };

    fn from(reply: Reply) -> Function {
        match reply {
            Reply::Error(_) => Function::Error,
            Reply::Channels => Function::Channels,
            Reply::ChannelsWritten(_) => Function::ChannelsWritten,
            Reply::Clock(_) => Function::Clock,
            Reply::NoClock => Function::Clock,
            Reply::ClockSet(_) => Function::ClockSet,
            Reply::Archive(_) => Function::Archive,
            Reply::Parameter => Function::Parameter,
            Reply::ParameterWritten => Function::ParameterWritten,
        }
    }
}

// The function of a reply, as its frame bears it: by From, under the name that hosts call (`reply_function_unique`).
pub fn reply_function(reply: Reply) -> u8
    ensures { result ≡ function_number (function_of reply) }
{
    Function::from(reply) as u8
}

// The value bytes of a body that was read as this reply: those of an 01 and of an 06 reply, and the eight of an 0A reply.
pub fn reply_values(reply: Reply, body: &[u8]) -> &[u8]
    ensures { result.now ≡ values_of reply body.now }
{
    wire::rest(body, reply.form().head)
}

fn put_archive(a: ArchiveReply, out: &mut [u8])
    ensures { out.new ≡ sets out.old 0 (archive_bytes a) }
{
    wire::put_le32(out, 0, a.mask);
    date::put_date(out, 4, a.first);
}

impl Formed for Reply {
    ghost the_form = { λ reply. form_of (function_of reply) };

    fn form(self) -> Form {
        Function::from(self).form()
    }
}

impl Body for Reply {
    ghost faults = { λ reply mask. field_faults reply mask };

    ghost head = { head_bytes };

    ghost faults_named = { λ reply mask. T_true _ (named_faults reply mask) };

    ghost head_length = { length_head };

    ghost head_few = { λ reply. head_few (function_of reply) };

    fn fields_fault(self, mask: u32) -> Result<(), Refusal> {
        judge::reply_faults(self, mask)
    }

    fn put_head(self, out: &mut [u8]) {
        match self {
            Reply::Error(number) => wire::put_all(out, 0, &[number]),
            Reply::Channels => (),
            Reply::ChannelsWritten(mask) => wire::put_le32(out, 0, mask),
            Reply::Clock(d) => date::put_date(out, 0, d),
            Reply::NoClock => wire::put_all(out, 0, &[255, 255, 255, 255, 255, 255]),
            Reply::ClockSet(status) => wire::put_all(out, 0, &[status, 0, 0, 0]),
            Reply::Archive(a) => put_archive(a, out),
            Reply::Parameter => (),
            Reply::ParameterWritten => wire::put_all(out, 0, &[0, 0]),
        }
    }
}

// The reply's body over the front of out. `mask` is the asked one (of an 01 request). `values` are the value bytes of an 01 or 06 reply or
// the eight bytes of an 0A reply, and empty for every other.
pub fn write_reply_body(
    reply: Reply,
    width: usize,
    mask: u32,
    values: &[u8],
    out: &mut [u8],
) -> Written
    ensures { Writes (first (writing_rules reply width mask values.now (length out.old))) (reply_bytes reply values.now) out.old result out.new }
{
    pulsar_body::write_body(reply, width, mask, values, out)
}
