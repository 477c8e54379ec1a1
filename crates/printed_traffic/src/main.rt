// The transfer that document 001 prints, its eight frames one after another on standard input, fed to a receiver of their session: as they are
// printed; then the reply of session 2 with its offsets counted from its START as a host must count them, at a receiver that was opened with less,
// and from a receiver at 141; and the edges that are run. One line for each answer, and after the completion the file that stands in the buffer
// and what it says.
#![tactic(auto)]

use sm160_frame::{part_of, read_frame, write_frame};
use sm160_read_file::{message_of, name_of, read_reply, read_request};
use sm160_receiver::{Progress, Receiver};
use std::io;
use std::io::{Cursor, Read, Stdin, Stdout, Write};
use wire::{Refusal, front, put_all, rest};

// Where a read fails, the input ends.
#[derive(Clone, Copy)]
struct Input(Stdin);

impl Read for Input {
    fn read(&mut self, buffer: &mut [u8]) -> io::Result<usize> {
        Ok(self.0.read(buffer).unwrap_or(0))
    }
}

// Where a write fails, what follows it is still tried, and nothing is said of it.
#[derive(Clone, Copy)]
struct Output(Stdout);

impl Write for Output {
    fn write(&mut self, bytes: &[u8]) -> io::Result<usize> {
        let _ = self.0.write_all(bytes);
        Ok(bytes.len())
    }

    fn flush(&mut self) -> io::Result<()> {
        Ok(())
    }
}

fn line(mut to: Output, text: &[u8]) -> io::Result<()> {
    to.write_all(text)?;
    to.write_all(b"\n")
}

fn refused(mut to: Output, refusal: Refusal) -> io::Result<()> {
    writeln!(to, "refused {}", refusal.number())
}

// A byte as text, a point where it is none.
fn shown(b: u8) -> u8 {
    if b.is_ascii_graphic() || b == b' ' {
        b
    } else {
        b'.'
    }
}

// Up to 16 bytes: in hexadecimal, then as text.
fn show_line(mut to: Output, s: &[u8]) -> io::Result<()> {
    let mut text = [b' '; 16];
    for (c, b) in text.iter_mut().zip(s) {
        let mut digits = Cursor::new([0; 2]);
        write!(digits, "{b:02x}")?;
        to.write_all(digits.get_ref())?;
        to.write_all(b" ")?;
        *c = shown(*b);
    }
    to.write_all(b" ")?;
    line(to, front(&text, s.len()))
}

// Bytes, 16 a line.
fn show(to: Output, s: &[u8]) -> io::Result<()> {
    for part in s.chunks(16) {
        show_line(to, part)?;
    }
    Ok(())
}

// A receiver with the buffer that is lent to it. What each call answers is told.
#[derive(Drop)]
struct Host<'a> {
    to: Output,
    state: Receiver,
    buffer: &'a mut [u8],
}

impl<'a> Host<'a> {
    fn tell(&mut self, answer: Result<Progress, Refusal>) -> io::Result<()> {
        match answer {
            Ok(Progress::Held(n)) => writeln!(self.to, "held {n}"),
            Ok(Progress::Complete(n)) => writeln!(self.to, "complete {n}"),
            Err(refusal) => refused(self.to, refusal),
        }
    }

    fn turn(&mut self, frame: &[u8]) -> io::Result<()> {
        let received = sm160_receiver::receive(self.state, frame, self.buffer);
        self.state = received.state;
        self.tell(received.answer)
    }

    fn turn_rebased(&mut self, frame: &[u8]) -> io::Result<()> {
        let mut out = [0u8; 252];
        let n = rebase(frame, &mut out).unwrap_or(0);
        self.turn(front(&out, n))
    }

    // The same, with the receiver given by its plain fields.
    fn turn_plain(&mut self, frame: &[u8]) -> io::Result<()> {
        let mut out = [0u8; 252];
        let n = rebase(frame, &mut out).unwrap_or(0);
        let before = self.state;
        let received = sm160_receiver::receive_plain(
            before.session,
            before.limit,
            before.under_way,
            before.count,
            front(&out, n),
            self.buffer,
        );
        self.state = received.state;
        self.tell(received.answer)
    }
}

// The START's offset in session 2.
const START_OFFSET: u32 = 73;

// What a host does with a controller's frame: it is read by its fields, the START's offset is taken off, and it is written again.
fn rebase(frame: &[u8], out: &mut [u8]) -> Option<usize> {
    let f = read_frame(frame).ok()?;
    let offset = f.offset.checked_sub(START_OFFSET)?;
    write_frame(f.session, offset, f.flags, part_of(frame), out).ok()
}

// The largest part that the controller and its master agree on: 80 with the header of 12 bytes, and 68 without.
const AGREED: usize = 68;

// Where it is not opened, a state that each call refuses with 20.
fn opened(to: Output, session: u16, largest: usize) -> io::Result<Receiver> {
    match sm160_receiver::open(session, largest) {
        Ok(state) => Ok(state),
        Err(refusal) => {
            refused(to, refusal)?;
            Ok(Receiver {
                session,
                limit: 0,
                under_way: false,
                count: 0,
            })
        }
    }
}

fn at(count: usize) -> Receiver {
    Receiver {
        session: 2,
        limit: AGREED,
        under_way: true,
        count,
    }
}

// A buffer is lent with 7 in each byte.
fn tell_stored(to: Output, buffer: &[u8]) -> io::Result<()> {
    if buffer.iter().all(|b| *b == 7) {
        line(to, b"nothing stored")
    } else {
        line(to, b"stored")
    }
}

// Session 1: the agreement on the frame's size, asked for and replied.
fn agreement(to: Output, asked: &[u8], replied: &[u8]) -> io::Result<()> {
    line(to, b"session 1 as printed")?;
    let mut buffer = [7u8; 318];
    let mut host = Host {
        to,
        state: opened(to, 1, AGREED)?,
        buffer: &mut buffer,
    };
    host.turn(asked)?;
    host.turn(replied)?;
    tell_stored(to, &buffer)
}

// The two frames of session 2's request for a file, and the four of its reply.
#[derive(Clone, Copy)]
struct Session<'a> {
    asking: &'a [u8],
    asked: &'a [u8],
    first: &'a [u8],
    second: &'a [u8],
    third: &'a [u8],
    last: &'a [u8],
}

fn as_printed(to: Output, s: Session) -> io::Result<()> {
    line(to, b"session 2 as printed")?;
    let mut buffer = [7u8; 318];
    let mut host = Host {
        to,
        state: opened(to, 2, AGREED)?,
        buffer: &mut buffer,
    };
    for frame in [s.asking, s.asked, s.first, s.second, s.third, s.last] {
        host.turn(frame)?;
    }
    tell_stored(to, &buffer)
}

// What the request of two frames asks for.
fn asked_for(mut to: Output, s: Session) -> io::Result<()> {
    let mut bytes = [0u8; 73];
    put_all(&mut bytes, 0, part_of(s.asking));
    put_all(&mut bytes, 68, part_of(s.asked));
    match read_request(&bytes) {
        Ok(request) => {
            writeln!(to, "asks from {}", request.offset)?;
            line(to, name_of(&bytes))
        }
        Err(refusal) => refused(to, refusal),
    }
}

// What the reply says, and how many bytes it brings.
fn tell_reply(mut to: Output, bytes: &[u8]) -> io::Result<()> {
    match read_reply(bytes) {
        Ok(status) => {
            writeln!(to, "status {status}")?;
            line(to, message_of(bytes))?;
            writeln!(to, "brings {}", sm160_datagram::data_of(bytes).len())
        }
        Err(refusal) => refused(to, refusal),
    }
}

fn counted_from_start(to: Output, s: Session) -> io::Result<()> {
    line(
        to,
        b"counted from START, then the last again, then the first alone",
    )?;
    let mut buffer = [0u8; 318];
    let mut host = Host {
        to,
        state: opened(to, 2, AGREED)?,
        buffer: &mut buffer,
    };
    for frame in [s.first, s.second, s.third, s.last] {
        host.turn_rebased(frame)?;
    }
    let file = front(host.buffer, 245);
    show(to, file)?;
    tell_reply(to, file)?;
    host.turn_rebased(s.last)?;
    host.turn_plain(s.first)
}

fn above_the_limit(to: Output, s: Session) -> io::Result<()> {
    line(
        to,
        b"at a receiver that was opened with 67, and at one with 241",
    )?;
    let mut buffer = [0u8; 318];
    let mut host = Host {
        to,
        state: opened(to, 2, AGREED - 1)?,
        buffer: &mut buffer,
    };
    host.turn_rebased(s.first)?;
    host.turn_rebased(s.last)?;
    host.state = opened(to, 2, 241)?;
    host.turn_rebased(s.first)
}

fn from_141(to: Output, s: Session) -> io::Result<()> {
    line(
        to,
        b"at 141, to the end of the buffer, and the last again; then with one byte less of it",
    )?;
    let mut buffer = [0u8; 318];
    let mut host = Host {
        to,
        state: at(141),
        buffer: &mut buffer,
    };
    host.turn(s.second)?;
    host.turn(s.third)?;
    host.turn(s.last)?;
    let complete = host.state;
    host.turn(s.last)?;
    let mut short = [0u8; 317];
    let mut less = Host {
        to,
        state: complete,
        buffer: &mut short,
    };
    less.turn(s.last)
}

fn start_again(to: Output, s: Session) -> io::Result<()> {
    line(
        to,
        b"START over a file under way, then a refused START, and the file goes on",
    )?;
    let mut buffer = [0u8; 318];
    let mut host = Host {
        to,
        state: opened(to, 2, AGREED)?,
        buffer: &mut buffer,
    };
    host.turn_rebased(s.first)?;
    host.turn_rebased(s.second)?;
    host.turn_rebased(s.first)?;
    host.turn(s.first)?;
    host.turn_rebased(s.second)
}

fn tell_read(mut to: Output, bytes: &[u8]) -> io::Result<()> {
    match read_frame(bytes) {
        Ok(f) => writeln!(to, "offset {}", f.offset),
        Err(refusal) => refused(to, refusal),
    }
}

fn write_and_read(mut to: Output, part: &[u8]) -> io::Result<()> {
    let mut out = [0u8; 300];
    match write_frame(2, 5, sm160_frame::END, part, &mut out) {
        Ok(n) => {
            writeln!(to, "length {n}")?;
            tell_read(to, front(&out, n))
        }
        Err(refusal) => refused(to, refusal),
    }
}

fn frames(to: Output) -> io::Result<()> {
    let bytes = [7u8; 241];
    line(to, b"a part of 240, a part of 241, 12 bytes, 11 bytes")?;
    write_and_read(to, &bytes[..240])?;
    write_and_read(to, &bytes)?;
    let header = [0u8; 12];
    tell_read(to, &header)?;
    tell_read(to, &header[..11])
}

// The eight frames, one after another.
fn feed(to: Output, all: &[u8]) -> io::Result<()> {
    agreement(to, front(all, 34), front(rest(all, 34), 43))?;
    let reply = rest(all, 174);
    let session = Session {
        asking: front(rest(all, 77), 80),
        asked: front(rest(all, 157), 17),
        first: front(reply, 80),
        second: front(rest(reply, 80), 80),
        third: front(rest(reply, 160), 80),
        last: rest(reply, 240),
    };
    as_printed(to, session)?;
    asked_for(to, session)?;
    counted_from_start(to, session)?;
    above_the_limit(to, session)?;
    from_141(to, session)?;
    start_again(to, session)?;
    frames(to)
}

// Bytes that do not come in stay 0.
fn main(rt: HostRuntime) {
    let mut all = [0u8; 467];
    let _ = Input(rt.stdin()).read_exact(&mut all);
    let _ = feed(Output(rt.stdout()), &all);
}
