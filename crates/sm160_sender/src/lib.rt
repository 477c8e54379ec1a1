// The sender of a file, which is a datagram (`sm160_datagram`): one frame a call. The caller goes on at the answered place, until that is the file's
// end. The whole file is judged at each call, since nothing is kept between two. What it answers is in specs/.
#![tactic(auto)]

ghost use Rattle.std.specs.Prelude.{◌≡◌};
ghost use Rattle.wire.specs.Answer.{judged};
ghost use Rattle.wire.specs.Refusal.{first};
ghost use Rattle.sm160_sender.specs.Sending.{flags_for, bad_file, past_end, up_to34, Sends};

use sm160_frame::{END, START};
use wire::Refusal;

// The frame's length, and the place of the next.
#[derive(Clone, Copy, Debug, PartialEq, Eq)]
pub struct Sent {
    pub length: usize,
    pub next: usize,
}

fn bad_file(file: &[u8]) -> bool
    ensures { result ≡ bad_file file.now }
{
    file.is_empty() | (4_294_967_295 < file.len())
}

fn past_end(file: &[u8], place: usize) -> bool
    ensures { result ≡ past_end file.now place }
{
    file.len() <= place
}

fn flags_for(start: bool, end: bool) -> u16
    ensures { result ≡ flags_for start end }
{
    let first = if start { START } else { 0 };
    let last = if end { END } else { 0 };
    first + last
}

// The first rule that holds of all but 16, which writing the frame finds.
fn send_fault(file: &[u8], largest: usize, place: usize) -> Result<(), Refusal>
    ensures { result ≡ judged tt (first (up_to34 file.now largest place)) }
{
    if bad_file(file) {
        return Err(Refusal::BadFile);
    }
    if sm160_frame::bad_largest(largest) {
        return Err(Refusal::BadLargest);
    }
    sm160_datagram::fault_of(file)?;
    if past_end(file, place) {
        return Err(Refusal::PastEnd);
    }
    Ok(())
}

// One frame, over the front of out.
pub fn send(
    file: &[u8],
    session: u16,
    largest: usize,
    place: usize,
    out: &mut [u8],
) -> Result<Sent, Refusal>
    ensures { Sends file.now session largest place out.old result out.new }
{
    send_fault(file, largest, place)?;
    let part = wire::front(wire::rest(file, place), largest);
    let next = place + part.len();
    let remains = wire::minus(file.len(), next);
    let flags = flags_for(place == 0, remains == 0);
    let length = sm160_frame::write_frame(session, place as u32, flags, part, out)?;
    Ok(Sent { length, next })
}
