// The refusals of replies, in the paper's order.
ghost use Rattle.std.specs.Prelude.{◌≡◌};
ghost use Rattle.wire.specs.Answer.{judged};
ghost use Rattle.wire.specs.Refusal.{first};
ghost use Rattle.pulsar_reply.specs.Fields.{not_clock, bad_status, not_zero, not_three_zeros, not_two_zeros, archive_faults};
ghost use Rattle.pulsar_reply.specs.Reading.{clock_rules, status_rules, zeros_rules, field_rules};
ghost use Rattle.pulsar_reply.specs.Writing.{status_faults, field_faults};

use crate::{ArchiveReply, Function, Reply};
use date::DateTime;
use wire::Refusal;

fn not_clock(d: DateTime) -> bool
    ensures { result ≡ not_clock d }
{
    !(date::is_date(d) | date::is_no_date(d))
}

fn clock_fault(d: DateTime) -> Result<(), Refusal>
    ensures { result ≡ judged tt (first (clock_rules d)) }
{
    if not_clock(d) {
        return Err(Refusal::BadDate);
    }
    Ok(())
}

fn bad_status(status: u8) -> bool
    ensures { result ≡ bad_status status }
{
    1 < status
}

fn not_zero(body: &[u8], at: usize) -> bool
    ensures { result ≡ not_zero body.now at }
{
    wire::byte_at(body, at) != 0
}

fn not_three_zeros(body: &[u8]) -> bool
    ensures { result ≡ not_three_zeros body.now }
{
    not_zero(body, 1) | not_zero(body, 2) | not_zero(body, 3)
}

fn not_two_zeros(body: &[u8]) -> bool
    ensures { result ≡ not_two_zeros body.now }
{
    not_zero(body, 0) | not_zero(body, 1)
}

fn status_fault(status: u8) -> Result<(), Refusal>
    ensures { result ≡ judged tt (first (status_faults status)) }
{
    if bad_status(status) {
        return Err(Refusal::BadStatus);
    }
    Ok(())
}

fn status_fields(body: &[u8]) -> Result<(), Refusal>
    ensures { result ≡ judged tt (first (status_rules body.now)) }
{
    status_fault(wire::byte_at(body, 0))?;
    if not_three_zeros(body) {
        return Err(Refusal::BadStatus);
    }
    Ok(())
}

fn zeros_fault(body: &[u8]) -> Result<(), Refusal>
    ensures { result ≡ judged tt (first (zeros_rules body.now)) }
{
    if not_two_zeros(body) {
        return Err(Refusal::BadStatus);
    }
    Ok(())
}

// The mask and the first date of an 06 reply, read or to be written.
fn archive_faults(a: ArchiveReply) -> Result<(), Refusal>
    ensures { result ≡ judged tt (first (archive_faults a.mask a.first)) }
{
    pulsar_body::one_fault(a.mask)?;
    pulsar_body::date_fault(a.first)
}

pub fn body_fields(function: Function, mask: u32, body: &[u8]) -> Result<(), Refusal>
    ensures { result ≡ judged tt (first (field_rules function mask body.now)) }
{
    match function {
        Function::Error => Ok(()),
        Function::Channels => pulsar_body::mask_fault(mask),
        Function::ChannelsWritten => Ok(()),
        Function::Clock => clock_fault(date::date_at(body, 0)),
        Function::ClockSet => status_fields(body),
        Function::Archive => archive_faults(crate::archive_of(body)),
        Function::Parameter => Ok(()),
        Function::ParameterWritten => zeros_fault(body),
    }
}

pub fn reply_faults(reply: Reply, mask: u32) -> Result<(), Refusal>
    ensures { result ≡ judged tt (first (field_faults reply mask)) }
{
    match reply {
        Reply::Error(_) => Ok(()),
        Reply::Channels => pulsar_body::mask_fault(mask),
        Reply::ChannelsWritten(_) => Ok(()),
        Reply::Clock(d) => pulsar_body::date_fault(d),
        Reply::NoClock => Ok(()),
        Reply::ClockSet(status) => status_fault(status),
        Reply::Archive(a) => archive_faults(a),
        Reply::Parameter => Ok(()),
        Reply::ParameterWritten => Ok(()),
    }
}
