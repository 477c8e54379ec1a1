// The first condition that holds at the meter.
ghost use Rattle.std.specs.Prelude.{◌≡◌, drop};
ghost use Rattle.wire.specs.Answer.{judged};
ghost use Rattle.wire.specs.Refusal.{first};
ghost use Rattle.pulsar_frame.specs.Reading.{meter_rules};

use crate::refuse;
use wire::Refusal;

// The rules after the first three. Tried as one function with them: the compiler takes what follows six tests for rare and leaves it a call,
// 45 instructions more for a frame of ten bytes.
fn judge_later(own: u32, bytes: &[u8]) -> Result<(), Refusal>
    ensures { result ≡ judged tt (first (drop 3 (meter_rules own bytes.now))) }
{
    if refuse::bad_length(bytes) {
        return Err(Refusal::BadLength);
    }
    if refuse::on_its_way(bytes) {
        return Err(Refusal::OnItsWay);
    }
    if refuse::bad_crc(bytes) {
        return Err(Refusal::BadCrc);
    }
    if refuse::not_mine(own, bytes) {
        return Err(Refusal::OtherAddress);
    }
    if refuse::no_function(bytes) {
        return Err(Refusal::OtherFunction);
    }
    Ok(())
}

pub fn judge(own: u32, bytes: &[u8]) -> Result<(), Refusal>
    ensures { result ≡ judged tt (first (meter_rules own bytes.now)) }
{
    if refuse::bad_own(own) {
        return Err(Refusal::BadArgument);
    }
    if refuse::too_short(bytes) {
        return Err(Refusal::TooShort);
    }
    if refuse::not_bcd(bytes) {
        return Err(Refusal::NotBcd);
    }
    judge_later(own, bytes)
}
