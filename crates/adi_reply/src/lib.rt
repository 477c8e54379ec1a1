// Replies of function 14 (hexadecimal), by which ADI heat meters hand their files over: read, group by group, and written. A PDU is judged once, and then asked for the
// register bytes of its groups by their places, from 1. What each answers is in specs/.
#![tactic(auto)]

ghost use Rattle.std.specs.Prelude.{◌≡◌, true, [], ◌+◌, ◌*◌, ◌≤◌, length, get_or};
ghost use Rattle.std.proofs.lemmas.List.Edits.{sets};
ghost use Rattle.wire.specs.Answer.{judged};
ghost use Rattle.wire.specs.InTurn.{in_turn};
ghost use Rattle.wire.specs.Refusal.{first};
ghost use Rattle.adi.specs.Groups.{groups};
ghost use Rattle.adi_reply.specs.Layout.{registers_of, typed, reply_bytes};
ghost use Rattle.adi_reply.specs.Reading.{not4to245, bad_count, not_even_from2, other_type, bad_length, group_rules, body_rules, found_in, read_reply, registers_at};
ghost use Rattle.adi_reply.specs.Writing.{cut, total, bad_number, judge_rules, WritesReply, WritesNoData};

use wire::Refusal;

#[derive(Clone, Copy, Debug, PartialEq, Eq)]
pub enum Reply {
    // How many.
    Groups(usize),
    // The byte count and the length, whatever they say.
    NoData(u8, u8),
}

// Of a byte count.
fn not_4_to_245(n: usize) -> bool
    ensures { result ≡ not4to245 n }
{
    (n < 4) | (245 < n)
}

fn bad_count(pdu: &[u8]) -> bool
    ensures { result ≡ bad_count pdu.now }
{
    adi::head::other_count(pdu) | not_4_to_245(wire::byte_at(pdu, 1) as usize)
}

fn not_even_from_2(n: u8) -> bool
    ensures { result ≡ not_even_from2 n }
{
    (n < 2) | (n % 2 != 0)
}

// Of what is left from a group's first byte on.
fn other_type(group: &[u8]) -> bool
    ensures { result ≡ other_type group.now }
{
    wire::byte_at(group, 1) != 6
}

fn bad_length(group: &[u8]) -> bool
    ensures { result ≡ bad_length group.now }
{
    let n = wire::byte_at(group, 0);
    not_even_from_2(n) | (group.len() < n as usize + 2)
}

fn judge_group(group: &[u8]) -> Result<(), Refusal>
    ensures { result ≡ judged tt (first (group_rules group.now)) }
{
    if other_type(group) {
        return Err(Refusal::OtherRecordType);
    }
    if bad_length(group) {
        return Err(Refusal::BadRecordLength);
    }
    Ok(())
}

// Group by group, the first faulty one decides; where none is faulty, how many they are. A byte that is left over is a group without its type.
// A `while let` over what is left: a group's own length says where the next begins.
fn count_groups(body: &[u8]) -> Result<usize, Refusal>
    ensures { result ≡ judged (length (groups typed body.now)) (first (in_turn group_rules (groups typed body.now))) }
{
    let mut left = body;
    let mut count = 0;
    while let [length, ..] = left {
        judge_group(left)?;
        left = wire::rest(left, *length as usize + 2);
        count += 1;
    }
    Ok(count)
}

// Of a reply of four bytes, whose function has been judged.
fn read_no_data(pdu: &[u8]) -> Result<Reply, Refusal>
    ensures { result ≡ judged (found_in true pdu.now) (first (body_rules true pdu.now)) }
{
    let body = wire::rest(pdu, 2);
    if other_type(body) {
        return Err(Refusal::OtherRecordType);
    }
    Ok(Reply::NoData(wire::byte_at(pdu, 1), wire::byte_at(body, 0)))
}

// How many groups a reply has, or that it has no data.
pub fn read_reply(pdu: &[u8]) -> Result<Reply, Refusal>
    ensures { result ≡ read_reply pdu.now }
{
    if adi::head::not_function(pdu) {
        return Err(Refusal::UnknownFunction);
    }
    if pdu.len() == 4 {
        return read_no_data(pdu);
    }
    if bad_count(pdu) {
        return Err(Refusal::BadCount);
    }
    let count = count_groups(wire::rest(pdu, 2))?;
    Ok(Reply::Groups(count))
}

// The register bytes of the group that k groups stand before. Tried over what is left from each group on: that takes nearly twice as
// many instructions.
fn registers_after(body: &[u8], k: usize) -> &[u8]
    ensures { result.now ≡ registers_of (get_or (groups typed body.now) k []) }
{
    let mut at = 0;
    for _ in 0..k {
        if body.len() <= at {
            return wire::front(body, 0);
        }
        at += body[at] as usize + 2;
    }
    let group = wire::rest(body, at);
    wire::front(wire::rest(group, 2), wire::byte_at(group, 0) as usize)
}

// The register bytes of the group at a place; none where there is no such group, as `registers_at` of specs has it: no good group has none.
pub fn registers_at(pdu: &[u8], place: usize) -> &[u8]
    ensures { result.now ≡ registers_at pdu.now place }
{
    if place == 0 {
        return wire::front(pdu, 0);
    }
    registers_after(wire::rest(pdu, 2), place - 1)
}

// How many register bytes the lengths say.
fn total_of(lengths: &[u8]) -> usize
    requires { length lengths.now ≤ 122 }
    ensures { (result ≡ total lengths.now) × (result ≤ 31110) }
{
    lengths.iter().map(|n| *n as usize).sum()
}

fn bad_number(lengths: &[u8], registers: &[u8]) -> bool
    ensures { result ≡ bad_number lengths.now registers.now }
{
    if 122 < lengths.len() {
        return true;
    }
    let sum = total_of(lengths);
    not_4_to_245(lengths.len() * 2 + sum) | (sum != registers.len())
}

// All faulty groups have the same number, so each is asked, without an end at the first: the compiler asks many at once.
fn judge(lengths: &[u8], registers: &[u8]) -> Result<(), Refusal>
    ensures { result ≡ judged tt (first (judge_rules lengths.now registers.now)) }
{
    if bad_number(lengths, registers) {
        return Err(Refusal::BadCount);
    }
    let mut faulty = false;
    for n in lengths {
        faulty |= not_even_from_2(*n);
    }
    if faulty {
        return Err(Refusal::BadRecordLength);
    }
    Ok(())
}

// The register bytes of a group, from a place on.
fn put_registers(registers: &[u8], out: &mut [u8], at: usize)
    requires { at + length registers.now ≤ length out.old }
    ensures { out.new ≡ sets out.old at registers.now }
{
    for (i, b) in registers.iter().enumerate() {
        out[at + i] = *b;
    }
}

fn put_reply(lengths: &[u8], registers: &[u8], out: &mut [u8])
    requires { (length lengths.now * 2 + length registers.now ≤ 245) × (total lengths.now ≡ length registers.now)
        × (length lengths.now * 2 + length registers.now + 2 ≤ length out.old) }
    ensures { out.new ≡ sets out.old 0 (reply_bytes (cut lengths.now registers.now)) }
{
    out[0] = adi::FUNCTION;
    out[1] = (lengths.len() * 2 + registers.len()) as u8;
    let mut at = 2;
    let mut left = registers;
    for n in lengths {
        let length = *n as usize;
        out[at] = *n;
        out[at + 1] = 6;
        put_registers(&left[..length], out, at + 2);
        at += length + 2;
        left = &left[length..];
    }
}

// A reply over the front of out, from the lengths of its groups, in bytes, and the register bytes of all of them.
pub fn write_reply(lengths: &[u8], registers: &[u8], out: &mut [u8]) -> wire::Written
    ensures { WritesReply lengths.now registers.now out.old result out.new }
{
    judge(lengths, registers)?;
    let n = lengths.len() * 2 + registers.len() + 2;
    if out.len() < n {
        return Err(Refusal::NoRoom);
    }
    put_reply(lengths, registers, out);
    Ok(n)
}

// The reply that says that there is no data, over the front of out, with its byte count and length as given.
pub fn write_no_data(count: u8, length: u8, out: &mut [u8]) -> wire::Written
    ensures { WritesNoData count length out.old result out.new }
{
    if out.len() < 4 {
        return Err(Refusal::NoRoom);
    }
    out[0] = adi::FUNCTION;
    out[1] = count;
    out[2] = length;
    out[3] = 6;
    Ok(4)
}
