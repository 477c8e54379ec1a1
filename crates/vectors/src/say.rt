// The line that answers a case: numbers in decimal, then a byte string in hexadecimal. Each room's `answer` takes the line, the case and an
// output, which are three buffers: one is filled, one read, and one lent to the core's writers.
use date::DateTime;
use std::io;
use std::io::{Cursor, Write};
use wire::{Refusal, Written, digit};

// Why an act says no more.
#[derive(Clone, Copy, Debug, PartialEq, Eq)]
pub enum Stop {
    Refused(Refusal),
    // The refusal and a number that is told with it.
    RefusedWith(Refusal, usize),
    UnknownAct,
    TooLong,
    // No buffer is as long as the case asks for, and no line answers it.
    NoBuffer,
}

pub type Said = Result<(), Stop>;

impl From<Refusal> for Stop {
    fn from(refusal: Refusal) -> Stop {
        Stop::Refused(refusal)
    }
}

// A frame that is on its way lacks so many bytes.
impl From<pulsar_frame::Fault> for Stop {
    fn from(fault: pulsar_frame::Fault) -> Stop {
        match fault {
            pulsar_frame::Fault::Missing(lack) => Stop::RefusedWith(Refusal::OnItsWay, lack),
            pulsar_frame::Fault::Refused(refusal) => Stop::Refused(refusal),
        }
    }
}

impl From<consumption::Fault> for Stop {
    fn from(fault: consumption::Fault) -> Stop {
        match fault {
            consumption::Fault::Refused(refusal) => Stop::Refused(refusal),
            consumption::Fault::RefusedAt(refusal, place) => Stop::RefusedWith(refusal, place),
        }
    }
}

// A line takes all that it has room for.
impl From<io::Error> for Stop {
    fn from(_error: io::Error) -> Stop {
        Stop::TooLong
    }
}

// The two digits of a byte.
fn digits_of(b: u8) -> [u8; 2] {
    [digit((b / 16) as u64), digit((b % 16) as u64)]
}

#[derive(Drop)]
pub struct Line {
    text: Cursor<[u8; 4096]>,
}

impl Line {
    pub fn new() -> Line {
        Line {
            text: Cursor::new([0; 4096]),
        }
    }

    // What was said so far.
    pub fn text(&self) -> &[u8] {
        wire::front(self.text.get_ref(), self.text.position() as usize)
    }

    // Numbers, each with a blank after it.
    pub fn words(&mut self, words: &[u64]) -> Said {
        for word in words {
            write!(self.text, "{word} ")?;
        }
        Ok(())
    }

    pub fn date(&mut self, d: DateTime) -> Said {
        self.words(&[
            d.year as u64,
            d.month as u64,
            d.day as u64,
            d.hour as u64,
            d.minute as u64,
            d.second as u64,
        ])
    }

    // The two digits of each byte, by the core's own digit: by a format they took the whole run nearly twice as long. 32 bytes a write: by a
    // write each, a long answer took three to four times as long.
    pub fn hexadecimal(&mut self, bytes: &[u8]) -> Said {
        for part in bytes.chunks(32) {
            let mut pairs = [[0; 2]; 32];
            for (pair, b) in pairs.iter_mut().zip(part) {
                *pair = digits_of(*b);
            }
            self.text
                .write_all(wire::front(pairs.as_flattened(), 2 * part.len()))?;
        }
        Ok(())
    }

    pub fn end(&mut self) -> Said {
        writeln!(self.text)?;
        Ok(())
    }

    // The byte string, - where it is empty, and the end.
    pub fn bytes(&mut self, bytes: &[u8]) -> Said {
        if bytes.is_empty() {
            write!(self.text, "-")?;
        }
        self.hexadecimal(bytes)?;
        self.end()
    }

    pub fn say(&mut self, words: &[u64], bytes: &[u8]) -> Said {
        self.words(words)?;
        self.bytes(bytes)
    }

    // Numbers alone.
    pub fn numbers(&mut self, words: &[u64]) -> Said {
        self.say(words, b"")
    }

    // Why an act says no more, in place of what it said so far, where a line can tell it.
    pub fn stopped(&mut self, stop: Stop) -> Said {
        self.text.set_position(0);
        match stop {
            Stop::Refused(refusal) => self.numbers(&[refusal.number() as u64]),
            Stop::RefusedWith(refusal, n) => self.numbers(&[refusal.number() as u64, n as u64]),
            _ => Err(stop),
        }
    }

    // 0 and the numbers of an answer, or the refusal's number; more follows either way.
    pub fn answer<const N: usize>(&mut self, answer: Result<[u64; N], Refusal>) -> Said {
        match answer {
            Ok(words) => {
                self.words(&[0])?;
                self.words(&words)
            }
            Err(refusal) => self.words(&[refusal.number() as u64]),
        }
    }

    // A writer's answer, and the whole of its output.
    pub fn written(&mut self, w: Written, out: &[u8]) -> Said {
        self.answer(w.map(|n| [n as u64]))?;
        self.bytes(out)
    }
}
