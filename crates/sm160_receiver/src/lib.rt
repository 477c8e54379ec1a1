// The receiver of an SM160 file: it puts the file together in a buffer that its caller lends.
//
// What a host must know: a real controller numbers its reply's offsets on from the request (the printed reply has START at 73), and START
// with an offset other than 0 is refused with 28. So the host reads each reply frame by its fields (`sm160_frame::read_frame`, `part_of`),
// takes the START's offset off its offset, writes it again by its fields (`sm160_frame::write_frame`), and feeds that.
//
// The limit that a receiver is opened with is that of the part, without the frame's header of 12 bytes. What 001's printed traffic agrees on is
// 80 with the header: its parts have 68 bytes at most, and 68 is what the host opens with. Where nothing was agreed on, it opens with 240.
//
// A file is a datagram (`sm160_datagram`), and none other is completed: with END the bytes held and the new part are judged as one, before anything is
// stored. After 37, 38 or 39 all is as it was, and the file goes on from the count, or anew from START. Where a held byte is wrong only START mends it.
//
// After a time-out a controller may resume with another part size: the host goes on feeding. The count of the state is the place to resume
// from (0: from START), and parts of any size up to the limit are taken there; one from below it is refused with 29, one from above it with 30.
#![tactic(auto)]

ghost use Rattle.std.specs.Prelude.{◌≡◌};
ghost use Rattle.wire.specs.Answer.{judged};
ghost use Rattle.wire.specs.Refusal.{first};
ghost use Rattle.sm160_receiver.specs.Receiving.{
  opened,
  opening,
  standing,
  reached,
  unfit,
  other_session,
  nothing_under_way,
  start_elsewhere,
  below_count,
  above_count,
  beyond_buffer,
  place_rules,
  file_rules,
  up_to31,
  refusal,
  Accepts,
  Took,
};

use wire::Refusal;

// A session, the largest part that was agreed on, whether a file is under way, and how many of its bytes are held. The count is as wide as a
// length, so that no sum wraps. It stands beside the flag, and not in it: `unfit` speaks of states in which the two disagree.
#[derive(Clone, Copy, Debug, PartialEq, Eq)]
pub struct Receiver {
    pub session: u16,
    pub limit: usize,
    pub under_way: bool,
    pub count: usize,
}

// What an accepted frame is answered with.
#[derive(Clone, Copy, Debug, PartialEq, Eq)]
pub enum Progress {
    // The bytes held now.
    Held(usize),
    // The file is whole: its length.
    Complete(usize),
}

// What a frame is answered, and the receiver after it.
#[derive(Clone, Copy, Debug, PartialEq, Eq)]
pub struct Received {
    pub answer: Result<Progress, Refusal>,
    pub state: Receiver,
}

// A receiver that takes parts of 1 byte up to the largest, from 1 to 240: the state for the first call.
pub fn open(session: u16, largest: usize) -> Result<Receiver, Refusal>
    ensures { result ≡ opening session largest }
{
    if sm160_frame::bad_largest(largest) {
        return Err(Refusal::BadLargest);
    }
    Ok(Receiver {
        session,
        limit: largest,
        under_way: false,
        count: 0,
    })
}

// Where the frame's part ends.
fn reach(frame: &[u8]) -> usize
    ensures { result ≡ reached frame.now }
{
    sm160_frame::offset_of(frame) as usize + sm160_frame::part_of(frame).len()
}

fn start_elsewhere(frame: &[u8]) -> bool
    ensures { result ≡ start_elsewhere frame.now }
{
    sm160_frame::is_start(frame) & (sm160_frame::offset_of(frame) != 0)
}

fn beyond_buffer(buffer: &[u8], frame: &[u8]) -> bool
    ensures { result ≡ beyond_buffer buffer.now frame.now }
{
    buffer.len() < reach(frame)
}

// The first rule of 37 to 39 that the file breaks which a last frame would end. The held bytes and the part are judged where they stand.
fn file_fault(buffer: &[u8], frame: &[u8]) -> Result<(), Refusal>
    ensures { result ≡ judged tt (first (file_rules buffer.now frame.now)) }
{
    if !sm160_frame::is_end(frame) {
        return Ok(());
    }
    let held = wire::front(buffer, sm160_frame::offset_of(frame) as usize);
    sm160_datagram::datagram_fault(held, sm160_frame::part_of(frame))
}

impl Receiver {
    fn is_unfit(&self, buffer: &[u8]) -> bool
        ensures { result ≡ unfit self.now buffer.now }
    {
        let n = self.count;
        let going = self.under_way;
        (buffer.len() < n)
            | (going & (n == 0))
            | (!going & (n != 0))
            | sm160_frame::bad_largest(self.limit)
    }

    fn other_session(&self, frame: &[u8]) -> bool
        ensures { result ≡ other_session self.now frame.now }
    {
        sm160_frame::session_of(frame) != self.session
    }

    fn nothing_under_way(&self, frame: &[u8]) -> bool
        ensures { result ≡ nothing_under_way self.now frame.now }
    {
        !sm160_frame::is_start(frame) & !self.under_way
    }

    fn below_count(&self, frame: &[u8]) -> bool
        ensures { result ≡ below_count self.now frame.now }
    {
        !sm160_frame::is_start(frame) & ((sm160_frame::offset_of(frame) as usize) < self.count)
    }

    fn above_count(&self, frame: &[u8]) -> bool
        ensures { result ≡ above_count self.now frame.now }
    {
        !sm160_frame::is_start(frame) & (self.count < sm160_frame::offset_of(frame) as usize)
    }

    // The first rule of 26 to 31 that holds.
    fn place_fault(&self, buffer: &[u8], frame: &[u8]) -> Result<(), Refusal>
        ensures { result ≡ judged tt (first (place_rules self.now buffer.now frame.now)) }
    {
        if self.other_session(frame) {
            return Err(Refusal::OtherSession);
        }
        if self.nothing_under_way(frame) {
            return Err(Refusal::NothingUnderWay);
        }
        if start_elsewhere(frame) {
            return Err(Refusal::StartElsewhere);
        }
        if self.below_count(frame) {
            return Err(Refusal::BelowCount);
        }
        if self.above_count(frame) {
            return Err(Refusal::AboveCount);
        }
        if beyond_buffer(buffer, frame) {
            return Err(Refusal::BeyondBuffer);
        }
        Ok(())
    }

    // The first rule of 20 to 31 that holds.
    fn fault(&self, buffer: &[u8], frame: &[u8]) -> Result<(), Refusal>
        ensures { result ≡ judged tt (first (up_to31 self.now buffer.now frame.now)) }
    {
        if self.is_unfit(buffer) {
            return Err(Refusal::Unfit);
        }
        sm160_frame::frame_fault(frame, self.limit)?;
        self.place_fault(buffer, frame)
    }

    // A frame that no rule refuses: its part is stored, exactly its bytes. START begins again at 0, any other part goes on at the count. Nothing is
    // under way after END.
    fn accept(&mut self, frame: &[u8], buffer: &mut [u8]) -> Progress
        requires { refusal self.old buffer.old frame.now ≡ 0 }
        ensures { Accepts self.old frame.now buffer.old (Ok result) self.new buffer.new }
    {
        let reached = reach(frame);
        let start = sm160_frame::is_start(frame);
        let at = if start { 0 } else { self.count };
        wire::put_all(buffer, at, sm160_frame::part_of(frame));
        if sm160_frame::is_end(frame) {
            self.under_way = false;
            self.count = 0;
            Progress::Complete(reached)
        } else {
            self.under_way = true;
            self.count = reached;
            Progress::Held(reached)
        }
    }

    // One frame, judged and then taken. What refuses it changes neither the state nor the buffer.
    fn take(&mut self, frame: &[u8], buffer: &mut [u8]) -> Result<Progress, Refusal>
        ensures { Took self.old frame.now buffer.old result self.new buffer.new }
    {
        self.fault(buffer, frame)?;
        file_fault(buffer, frame)?;
        let taken = self.accept(frame, buffer);
        Ok(taken)
    }
}

// One frame. A refusal changes neither the state nor the buffer.
pub fn receive(mut state: Receiver, frame: &[u8], buffer: &mut [u8]) -> Received
    ensures { Took state frame.now buffer.old result.answer result.state buffer.new }
{
    let answer = state.take(frame, buffer);
    Received { answer, state }
}

// One frame, at a receiver that is lent to the call and updated there.
pub fn receive_lent(
    state: &mut Receiver,
    frame: &[u8],
    buffer: &mut [u8],
) -> Result<Progress, Refusal>
    ensures { Took state.old frame.now buffer.old result state.new buffer.new }
{
    let received = receive(*state, frame, buffer);
    *state = received.state;
    received.answer
}

// One frame, at a receiver that is given by its plain fields, as `of_receive_plain` in demand3 names them.
pub fn receive_plain(
    session: u16,
    limit: usize,
    under_way: bool,
    count: usize,
    frame: &[u8],
    buffer: &mut [u8],
) -> Received
    ensures { Took (standing (opened session limit) under_way count) frame.now buffer.old result.answer result.state buffer.new }
{
    let mut state = Receiver {
        session,
        limit,
        under_way,
        count,
    };
    let answer = receive_lent(&mut state, frame, buffer);
    Received { answer, state }
}
