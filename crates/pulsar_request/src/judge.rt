// The refusals of requests, in the paper's order.
ghost use Rattle.std.specs.Prelude.{◌≡◌};
ghost use Rattle.wire.specs.Answer.{judged};
ghost use Rattle.wire.specs.Refusal.{first};
ghost use Rattle.pulsar_request.specs.Layout.{values_mask};
ghost use Rattle.pulsar_request.specs.Reading.{bad_type, type_rules, archive_rules, field_rules};
ghost use Rattle.pulsar_request.specs.Writing.{archive_faults, field_faults};

use crate::{ArchiveRequest, Function, Request};
use date::DateTime;
use wire::Refusal;

fn bad_type(archive_type: u16) -> bool
    ensures { result ≡ bad_type archive_type }
{
    (archive_type == 0) | (4 < archive_type)
}

fn type_fault(archive_type: u16) -> Result<(), Refusal>
    ensures { result ≡ judged tt (first (type_rules archive_type)) }
{
    if bad_type(archive_type) {
        return Err(Refusal::BadArchiveType);
    }
    Ok(())
}

// The type is still a number: what it says is a kind once it has been judged.
fn archive_fields(mask: u32, archive_type: u16, from: DateTime, to: DateTime) -> Result<(), Refusal>
    ensures { result ≡ judged tt (first (archive_rules mask archive_type from to)) }
{
    pulsar_body::one_fault(mask)?;
    type_fault(archive_type)?;
    pulsar_body::date_fault(from)?;
    pulsar_body::date_fault(to)
}

pub fn body_fields(function: Function, body: &[u8]) -> Result<(), Refusal>
    ensures { result ≡ judged tt (first (field_rules function body.now)) }
{
    match function {
        Function::ReadChannels => pulsar_body::mask_fault(wire::le32_at(body, 0)),
        Function::WriteChannels => pulsar_body::mask_fault(wire::le32_at(body, 0)),
        Function::ReadClock => Ok(()),
        Function::SetClock => pulsar_body::date_fault(date::date_at(body, 0)),
        Function::ReadArchive => archive_fields(
            wire::le32_at(body, 0),
            wire::le16_at(body, 4),
            date::date_at(body, 6),
            date::date_at(body, 12),
        ),
        Function::ReadParameter => Ok(()),
        Function::WriteParameter => Ok(()),
    }
}

pub fn values_mask(request: Request) -> u32
    ensures { result ≡ values_mask request }
{
    match request {
        Request::WriteChannels(mask) => mask,
        _ => 0,
    }
}

fn archive_faults(a: ArchiveRequest) -> Result<(), Refusal>
    ensures { result ≡ judged tt (first (archive_faults a.mask a.first a.last)) }
{
    pulsar_body::one_fault(a.mask)?;
    pulsar_body::date_fault(a.first)?;
    pulsar_body::date_fault(a.last)
}

pub fn request_faults(request: Request) -> Result<(), Refusal>
    ensures { result ≡ judged tt (first (field_faults request)) }
{
    match request {
        Request::ReadChannels(mask) => pulsar_body::mask_fault(mask),
        Request::WriteChannels(mask) => pulsar_body::mask_fault(mask),
        Request::ReadClock => Ok(()),
        Request::SetClock(d) => pulsar_body::date_fault(d),
        Request::ReadArchive(a) => archive_faults(a),
        Request::ReadParameter(_) => Ok(()),
        Request::WriteParameter(_) => Ok(()),
    }
}
