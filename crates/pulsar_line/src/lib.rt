// The line collector: a frame buffer of 255 bytes and a count, by value. What each function answers is in specs/.
#![tactic(auto)]

ghost use Rattle.std.specs.Prelude.{◌≡◌};
ghost use Rattle.pulsar_line.specs.Collect.{fresh, unfit, pushed, silenced};

use wire::Refusal;

// The first `count` bytes are held. An array with its count, since there is no heap; the other bytes are a host's to keep too (`pushed`).
#[derive(Clone, Copy, Debug, PartialEq, Eq)]
pub struct Collector {
    pub bytes: [u8; 255],
    pub count: usize,
}

// What a call answers, and the collector after it. (A table of turns has the like: one struct for both would stand in a room below them for this alone.)
#[derive(Clone, Copy, Debug, PartialEq, Eq)]
pub struct Answered<T> {
    pub answer: Result<T, Refusal>,
    pub state: Collector,
}

pub type Pushed = Answered<()>;

pub type Silenced = Answered<Handed>;

// What silence hands over, without a heap as well: bytes, of which the first `count` were collected, and how many of the frame that they begin lack.
#[derive(Clone, Copy, Debug, PartialEq, Eq)]
pub struct Handed {
    pub bytes: [u8; 255],
    pub count: usize,
    pub missing: usize,
}

pub fn new() -> Collector
    ensures { result ≡ fresh }
{
    Collector {
        bytes: [0u8; 255],
        count: 0,
    }
}

impl Collector {
    fn unfit(&self) -> bool
        ensures { result ≡ unfit self.now.count }
    {
        255 < self.count
    }
}

// A byte from the line.
#[tactic(auto, using(crate::proofs::Answers::push_unfit, crate::proofs::Answers::push_added, crate::proofs::Answers::push_dropped))]
pub fn push(mut c: Collector, b: u8) -> Pushed
    ensures { result ≡ pushed c b }
{
    if c.unfit() {
        return Answered {
            answer: Err(Refusal::Unfit),
            state: c,
        };
    }
    let at = c.count;
    if at < 255 {
        c.bytes[at] = b;
        c.count = at + 1;
    }
    Answered {
        answer: Ok(()),
        state: c,
    }
}

// Silence on the line: the frame, if it was one, has ended.
#[tactic(auto, using(crate::proofs::Answers::silence_unfit, crate::proofs::Answers::silence_fit))]
pub fn silence(c: Collector) -> Silenced
    ensures { result ≡ silenced c }
{
    if c.unfit() {
        return Answered {
            answer: Err(Refusal::Unfit),
            state: c,
        };
    }
    let handed = Handed {
        bytes: c.bytes,
        count: c.count,
        missing: pulsar_frame::missing(wire::front(&c.bytes, c.count)),
    };
    Answered {
        answer: Ok(handed),
        state: new(),
    }
}
