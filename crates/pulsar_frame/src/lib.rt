// The Pulsar-M frame, read and written at the meter and at the master. What each function answers is in specs/.
#![tactic(auto)]

mod fields;
mod master;
mod meter;
mod refuse;
mod write;

ghost use Rattle.std.specs.Prelude.{◌≡◌, ℕ};
ghost use Rattle.wire.specs.Numbered.{refusal as by_number};
ghost use Rattle.pulsar_frame.specs.Layout.{payload_of};
ghost use Rattle.pulsar_frame.specs.Reading.{missing, refusal, read_at_meter, read_at_master};
ghost use Rattle.pulsar_frame.specs.Writing.{WritesRequest, WritesReply};

use fields::Names;
use wire::{Refusal, Written};

#[derive(Clone, Copy, Debug, PartialEq, Eq)]
pub struct Frame {
    pub address: u32,
    pub function: u8,
    pub id: u16,
    // LEN, the whole frame. `payload` finds the payload by it.
    pub len: usize,
}

// Why the bytes are no frame to the side that reads them.
#[derive(Clone, Copy, Debug, PartialEq, Eq)]
pub enum Fault {
    // 9: a frame still on its way, and how many of its bytes lack.
    Missing(usize),
    // Any other refusal.
    Refused(Refusal),
}

// How many bytes lack of the frame that these begin, LEN less their count. 0 where all came, and where LEN is not known yet, as the paper has it.
pub fn missing(bytes: &[u8]) -> usize
    ensures { result ≡ missing bytes.now }
{
    if refuse::too_short(bytes) {
        return 0;
    }
    fields::lack_of(bytes)
}

// A refusal of the bytes, 9 with their missing count.
fn fault_of(why: Refusal, bytes: &[u8]) -> Fault
    ensures { (n : ℕ) → why ≡ by_number n → result ≡ refusal (missing bytes.now) n }
{
    match why {
        Refusal::OnItsWay => Fault::Missing(missing(bytes)),
        other => Fault::Refused(other),
    }
}

// A request, at the meter with the address own.
pub fn read_at_meter(own: u32, bytes: &[u8]) -> Result<Frame, Fault>
    ensures { result ≡ read_at_meter own bytes.now }
{
    match meter::judge(own, bytes) {
        Ok(()) => Ok(fields::frame_of(bytes)),
        // Tried as `map_err` and `?`: what the closure answers is out of the proof's reach.
        Err(why) => Err(fault_of(why, bytes)),
    }
}

// A reply, at the master that asked address for function under id.
pub fn read_at_master(address: u32, function: u8, id: u16, bytes: &[u8]) -> Result<Frame, Fault>
    ensures { result ≡ read_at_master address function id bytes.now }
{
    let asked = Names {
        address,
        function,
        id,
    };
    // Tried in one function with the meter's: that stays a call which reads the fields again, 90 instructions more.
    match master::judge(asked, bytes) {
        Ok(()) => Ok(fields::frame_of(bytes)),
        Err(why) => Err(fault_of(why, bytes)),
    }
}

// The payload of an accepted frame of len bytes, as a part of the bytes received.
pub fn payload(bytes: &[u8], len: usize) -> &[u8]
    ensures { result.now ≡ payload_of bytes.now len }
{
    wire::front(wire::rest(bytes, 6), wire::minus(len, 10))
}

// The master's request, over the front of out. Its names come one by one, as `WritesRequest` has them, and so those of a reply.
pub fn write_request(address: u32, function: u8, id: u16, payload: &[u8], out: &mut [u8]) -> Written
    ensures { WritesRequest address function id payload.now out.old result out.new }
{
    let asked = Names {
        address,
        function,
        id,
    };
    if refuse::bad_asked(asked) {
        return Err(Refusal::BadArgument);
    }
    write::write_frame(asked, payload, out)
}

// The meter's reply, over the front of out.
pub fn write_reply(own: u32, function: u8, id: u16, payload: &[u8], out: &mut [u8]) -> Written
    ensures { WritesReply own function id payload.now out.old result out.new }
{
    if refuse::bad_own(own) {
        return Err(Refusal::BadArgument);
    }
    let names = Names {
        address: own,
        function,
        id,
    };
    write::write_frame(names, payload, out)
}
