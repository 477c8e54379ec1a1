// Requests of function 14 (hexadecimal), by which files of ADI heat meters are read: read, group by group, and written. A PDU is judged once, and then asked for its
// groups by their places, from 1. What each answers is in specs/.
#![tactic(auto)]

ghost use Rattle.std.specs.Prelude.{◌≡◌, ◌+◌, ◌*◌, ◌%◌, ◌≤◌, length};
ghost use Rattle.std.proofs.lemmas.List.Edits.{sets};
ghost use Rattle.wire.specs.Answer.{judged};
ghost use Rattle.wire.specs.InTurn.{in_turn};
ghost use Rattle.wire.specs.Refusal.{first};
ghost use Rattle.adi.specs.Groups.{groups};
ghost use Rattle.adi_request.specs.Layout.{six, asked_of, group_bytes, request_bytes};
ghost use Rattle.adi_request.specs.Reading.{not_sevens, bad_count, group_rules, read_request, asked_at};
ghost use Rattle.adi_request.specs.Writing.{given_by, given, bad_number, asked_rules, judge_rules, WritesRequest};

use wire::Refusal;

// A group: so many registers of a record of a file.
#[derive(Clone, Copy, Debug, PartialEq, Eq)]
pub struct Asked {
    pub file: u16,
    pub record: u16,
    // In registers.
    pub length: u16,
}

// As a writer is given it.
impl From<[u16; 3]> for Asked {
    ghost from_gives = { λ group asked. asked ≡ given_by group };

    fn from(group: [u16; 3]) -> Asked {
        Asked {
            file: group[0],
            record: group[1],
            length: group[2],
        }
    }
}

impl Asked {
    fn judge(self) -> Result<(), Refusal>
        ensures { result ≡ judged tt (first (asked_rules self)) }
    {
        if (self.file == 0) | (9999 < self.record) {
            return Err(Refusal::BadRecord);
        }
        if self.length == 0 {
            return Err(Refusal::BadRecordLength);
        }
        Ok(())
    }

    // The group's bytes.
    fn bytes(self) -> [u8; 7]
        ensures { result ≡ group_bytes self }
    {
        let file = self.file.to_be_bytes();
        let record = self.record.to_be_bytes();
        let length = self.length.to_be_bytes();
        [
            6, file[0], file[1], record[0], record[1], length[0], length[1],
        ]
    }
}

// Of a byte count.
fn not_sevens(n: u8) -> bool
    ensures { result ≡ not_sevens n }
{
    (n < 7) | (245 < n) | (n % 7 != 0)
}

fn bad_count(pdu: &[u8]) -> bool
    ensures { result ≡ bad_count pdu.now }
{
    adi::head::other_count(pdu) | not_sevens(wire::byte_at(pdu, 1))
}

// Of bytes whose type has been judged: a From would be asked for any.
fn asked_of(group: &[u8; 7]) -> Asked
    ensures { result ≡ asked_of group.now }
{
    Asked {
        file: u16::from_be_bytes([group[1], group[2]]),
        record: u16::from_be_bytes([group[3], group[4]]),
        length: u16::from_be_bytes([group[5], group[6]]),
    }
}

fn judge_group(group: &[u8; 7]) -> Result<(), Refusal>
    ensures { result ≡ judged tt (first (group_rules group.now)) }
{
    if group[0] != 6 {
        return Err(Refusal::OtherRecordType);
    }
    asked_of(group).judge()
}

// Group by group, the first faulty one decides.
fn judge_groups(body: &[u8]) -> Result<(), Refusal>
    requires { length body.now % 7 ≡ 0 }
    ensures { result ≡ judged tt (first (in_turn group_rules (groups six body.now))) }
{
    let (whole, _) = body.as_chunks::<7>();
    for group in whole {
        judge_group(group)?;
    }
    Ok(())
}

// How many groups a request has.
pub fn read_request(pdu: &[u8]) -> Result<usize, Refusal>
    ensures { result ≡ read_request pdu.now }
{
    if adi::head::not_function(pdu) {
        return Err(Refusal::UnknownFunction);
    }
    if bad_count(pdu) {
        return Err(Refusal::BadCount);
    }
    judge_groups(wire::rest(pdu, 2))?;
    Ok((wire::byte_at(pdu, 1) / 7) as usize)
}

// What a request asks for at a place.
pub fn asked_at(pdu: &[u8], place: usize) -> Option<Asked>
    ensures { result ≡ asked_at pdu.now place }
{
    if place == 0 {
        return None;
    }
    let (whole, _) = wire::rest(pdu, 2).as_chunks::<7>();
    let group = whole.get(place - 1)?;
    Some(asked_of(group))
}

fn bad_number(groups: &[[u16; 3]]) -> bool
    ensures { result ≡ bad_number (given groups.now) }
{
    let n = groups.len();
    (n == 0) | (35 < n)
}

// Group by group, the first faulty one decides.
fn judge(groups: &[[u16; 3]]) -> Result<(), Refusal>
    ensures { result ≡ judged tt (first (judge_rules (given groups.now))) }
{
    if bad_number(groups) {
        return Err(Refusal::BadCount);
    }
    for group in groups {
        Asked::from(*group).judge()?;
    }
    Ok(())
}

fn put_request(groups: &[[u16; 3]], out: &mut [u8])
    requires few { length groups.now ≤ 35 }
    requires room { length groups.now * 7 + 2 ≤ length out.old }
    ensures { out.new ≡ sets out.old 0 (request_bytes (given groups.now)) }
{
    out[0] = adi::FUNCTION;
    out[1] = (groups.len() * 7) as u8;
    for (i, group) in groups.iter().enumerate() {
        let at = i * 7 + 2;
        out[at..at + 7].copy_from_slice(&Asked::from(*group).bytes());
    }
}

// A request over the front of out, whose groups are each a file, a record and a length in registers: numbers, as `given` of its clause reads them.
pub fn write_request(groups: &[[u16; 3]], out: &mut [u8]) -> wire::Written
    ensures { WritesRequest (given groups.now) out.old result out.new }
{
    judge(groups)?;
    let n = groups.len() * 7 + 2;
    if out.len() < n {
        return Err(Refusal::NoRoom);
    }
    put_request(groups, out);
    Ok(n)
}
