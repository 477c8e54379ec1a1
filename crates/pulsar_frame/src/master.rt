// The first condition that holds at the master. Rows that the meter has too stand here again, one by one: their orders differ, and edits of
// must-fail/ change two of these about.
ghost use Rattle.std.specs.Prelude.{◌≡◌, drop};
ghost use Rattle.wire.specs.Answer.{judged};
ghost use Rattle.wire.specs.Refusal.{first};
ghost use Rattle.pulsar_frame.specs.Reading.{master_rules};

use crate::fields::Names;
use crate::refuse;
use wire::Refusal;

// The rules after the first three, by themselves for the reason that stands at the meter.
fn judge_later(asked: Names, bytes: &[u8]) -> Result<(), Refusal>
    ensures { result ≡ judged tt (first (drop 3 (master_rules asked.address asked.function asked.id bytes.now))) }
{
    if refuse::not_asked(asked.address, bytes) {
        return Err(Refusal::OtherAddress);
    }
    if refuse::other_function(asked.function, bytes) {
        return Err(Refusal::OtherFunction);
    }
    if refuse::bad_length(bytes) {
        return Err(Refusal::BadLength);
    }
    if refuse::on_its_way(bytes) {
        return Err(Refusal::OnItsWay);
    }
    if refuse::bad_crc(bytes) {
        return Err(Refusal::BadCrc);
    }
    if refuse::other_id(asked.id, bytes) {
        return Err(Refusal::OtherId);
    }
    Ok(())
}

pub fn judge(asked: Names, bytes: &[u8]) -> Result<(), Refusal>
    ensures { result ≡ judged tt (first (master_rules asked.address asked.function asked.id bytes.now)) }
{
    if refuse::bad_asked(asked) {
        return Err(Refusal::BadArgument);
    }
    if refuse::too_short(bytes) {
        return Err(Refusal::TooShort);
    }
    if refuse::not_bcd(bytes) {
        return Err(Refusal::NotBcd);
    }
    judge_later(asked, bytes)
}
