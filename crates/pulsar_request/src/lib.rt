// The bodies of the standard functions' requests, read and written. A body is a head of fixed fields and, in two of the functions, value
// bytes after it; these are not copied: `request_values` hands them back as a part of the body.
#![tactic(auto)]

mod judge;

ghost use Rattle.std.specs.Prelude.{◌≡◌, length};
ghost use Rattle.std.proofs.lemmas.List.Edits.{sets};
ghost use Rattle.wire.specs.Writes.{Writes};
ghost use Rattle.wire.proofs.Bools.{T_true};
ghost use Rattle.wire.specs.Refusal.{first};
ghost use Rattle.pulsar_request.specs.Layout.{function_from, function_of, function_number, form_of, archive_of, request_of, archive_bytes, head_bytes, request_bytes, values_of};
ghost use Rattle.pulsar_request.specs.Reading.{read_request};
ghost use Rattle.pulsar_request.specs.Writing.{field_faults, writing_rules};
ghost use Rattle.pulsar_request.specs.Heads.{head_few, length_head, named_faults};

use archive::ArchiveKind;
use date::DateTime;
use pulsar_body::{Body, Form, Formed, Values};
use wire::{Refusal, Written};

#[derive(Clone, Copy, Debug, PartialEq, Eq)]
pub struct ArchiveRequest {
    pub mask: u32,
    pub kind: ArchiveKind,
    pub first: DateTime,
    pub last: DateTime,
}

#[derive(Clone, Copy, Debug, PartialEq, Eq)]
pub enum Request {
    // 01: the mask.
    ReadChannels(u32),
    // 02: the mask; the values follow it.
    WriteChannels(u32),
    // 04
    ReadClock,
    // 05
    SetClock(DateTime),
    // 06
    ReadArchive(ArchiveRequest),
    // 0A: the index.
    ReadParameter(u16),
    // 0B: the index; eight bytes follow it.
    WriteParameter(u16),
}

// The functions that a request may have, and their numbers.
#[derive(Clone, Copy, Debug, PartialEq, Eq)]
pub enum Function {
    ReadChannels = 0x01,
    WriteChannels = 0x02,
    ReadClock = 0x04,
    SetClock = 0x05,
    ReadArchive = 0x06,
    ReadParameter = 0x0A,
    WriteParameter = 0x0B,
}

// None of a number that is no function: `body_fault` refuses it in its turn, 10 after 1, and so it is no TryFrom with a refusal.
fn function_from(number: u8) -> Option<Function>
    ensures { result ≡ function_from number }
{
    match number {
        0x01 => Some(Function::ReadChannels),
        0x02 => Some(Function::WriteChannels),
        0x04 => Some(Function::ReadClock),
        0x05 => Some(Function::SetClock),
        0x06 => Some(Function::ReadArchive),
        0x0A => Some(Function::ReadParameter),
        0x0B => Some(Function::WriteParameter),
        _ => None,
    }
}

impl Formed for Function {
    ghost the_form = { form_of };

    fn form(self) -> Form {
        let (head, values) = match self {
            Function::ReadChannels => (4, Values::Nothing),
            Function::WriteChannels => (4, Values::Channels),
            Function::ReadClock => (0, Values::Nothing),
            Function::SetClock => (6, Values::Nothing),
            Function::ReadArchive => (18, Values::Nothing),
            Function::ReadParameter => (2, Values::Nothing),
            Function::WriteParameter => (2, Values::Eight),
        };
        Form { head, values }
    }
}

fn archive_of(body: &[u8]) -> ArchiveRequest
    ensures { result ≡ archive_of body.now }
{
    ArchiveRequest {
        mask: wire::le32_at(body, 0),
        kind: archive::type_from(wire::le16_at(body, 4)),
        first: date::date_at(body, 6),
        last: date::date_at(body, 12),
    }
}

fn request_of(function: Function, body: &[u8]) -> Request
    ensures { result ≡ request_of function body.now }
{
    match function {
        Function::ReadChannels => Request::ReadChannels(wire::le32_at(body, 0)),
        Function::WriteChannels => Request::WriteChannels(wire::le32_at(body, 0)),
        Function::ReadClock => Request::ReadClock,
        Function::SetClock => Request::SetClock(date::date_at(body, 0)),
        Function::ReadArchive => Request::ReadArchive(archive_of(body)),
        Function::ReadParameter => Request::ReadParameter(wire::le16_at(body, 0)),
        Function::WriteParameter => Request::WriteParameter(wire::le16_at(body, 0)),
    }
}

// `function` is the frame's, `width` the bytes of a value.
pub fn read_request(function: u8, width: usize, body: &[u8]) -> Result<Request, Refusal>
    ensures { result ≡ read_request function width body.now }
{
    let mask = wire::le32_at(body, 0);
    let asked = pulsar_body::body_fault(function_from(function), width, mask, body)?;
    judge::body_fields(asked, body)?;
    Ok(request_of(asked, body))
}

impl From<Request> for Function {
    ghost from_gives = { λ request f. f ≡ function_of request };

    fn from(request: Request) -> Function {
        match request {
            Request::ReadChannels(_) => Function::ReadChannels,
            Request::WriteChannels(_) => Function::WriteChannels,
            Request::ReadClock => Function::ReadClock,
            Request::SetClock(_) => Function::SetClock,
            Request::ReadArchive(_) => Function::ReadArchive,
            Request::ReadParameter(_) => Function::ReadParameter,
            Request::WriteParameter(_) => Function::WriteParameter,
        }
    }
}

// The function of a request, as its frame bears it: by From, under the name that hosts call (`request_function_unique`).
pub fn request_function(request: Request) -> u8
    ensures { result ≡ function_number (function_of request) }
{
    Function::from(request) as u8
}

// The value bytes of a body that was read as this request: those of an 02 request, and the eight of an 0B request.
pub fn request_values(request: Request, body: &[u8]) -> &[u8]
    ensures { result.now ≡ values_of request body.now }
{
    wire::rest(body, request.form().head)
}

fn put_archive(a: ArchiveRequest, out: &mut [u8])
    ensures { out.new ≡ sets out.old 0 (archive_bytes a) }
{
    wire::put_le32(out, 0, a.mask);
    wire::put_le16(out, 4, u8::from(a.kind) as u16);
    date::put_date(out, 6, a.first);
    date::put_date(out, 12, a.last);
}

impl Formed for Request {
    ghost the_form = { λ request. form_of (function_of request) };

    fn form(self) -> Form {
        Function::from(self).form()
    }
}

impl Body for Request {
    ghost faults = { λ request mask. field_faults request };

    ghost head = { head_bytes };

    ghost faults_named = { λ request mask. T_true _ (named_faults request) };

    ghost head_length = { length_head };

    ghost head_few = { λ request. head_few (function_of request) };

    fn fields_fault(self, _mask: u32) -> Result<(), Refusal> {
        judge::request_faults(self)
    }

    fn put_head(self, out: &mut [u8]) {
        match self {
            Request::ReadChannels(mask) => wire::put_le32(out, 0, mask),
            Request::WriteChannels(mask) => wire::put_le32(out, 0, mask),
            Request::ReadClock => (),
            Request::SetClock(d) => date::put_date(out, 0, d),
            Request::ReadArchive(a) => put_archive(a, out),
            Request::ReadParameter(index) => wire::put_le16(out, 0, index),
            Request::WriteParameter(index) => wire::put_le16(out, 0, index),
        }
    }
}

// The request's body over the front of out. `values` are the value bytes of an 02 request or the eight bytes of an 0B request, and empty
// for every other.
pub fn write_request_body(request: Request, width: usize, values: &[u8], out: &mut [u8]) -> Written
    ensures { Writes (first (writing_rules request width values.now (length out.old))) (request_bytes request values.now) out.old result out.new }
{
    pulsar_body::write_body(request, width, judge::values_mask(request), values, out)
}
