// Answers each case of standard input with a line. tests/reference/CASES.md says how a case and a line are written.
#![tactic(auto)]

ghost use Rattle.std.specs.Prelude.{◌≤◌};

mod cards;
mod case;
mod clocks;
mod collector;
mod datagrams;
mod envelope;
mod exchanges;
mod file_records;
mod files;
mod frames;
mod ground;
mod listings;
mod readings;
mod receiver;
mod replies;
mod requests;
mod say;
mod summaries;
mod tables;

use case::Case;
use say::{Line, Said, Stop};
use std::io;
use std::io::{ErrorKind, Read, Stdin, Stdout, Write};
use wire::{byte_at, front, le16_at, rest};

fn pulsar(line: &mut Line, case: Case, out: &mut [u8]) -> Said {
    // By the act's number, as the case has it: a table of functions would say no more.
    match case.act {
        10..=13 => frames::answer(line, case, out),
        14..=15 => collector::answer(line, case),
        20 | 22 => requests::answer(line, case, out),
        21 | 23 => replies::answer(line, case, out),
        24 => summaries::answer(line, case),
        _ => Err(Stop::UnknownAct),
    }
}

fn controller(line: &mut Line, case: Case, out: &mut [u8]) -> Said {
    match case.act {
        30..=35 => envelope::answer(line, case, out),
        40..=42 => files::answer(line, case, out),
        43..=44 => receiver::answer(line, case, out),
        _ => Err(Stop::UnknownAct),
    }
}

fn answer(line: &mut Line, case: Case, out: &mut [u8]) -> Said {
    match case.act {
        1..=3 | 9 | 61..=63 | 70 => ground::answer(line, case, out),
        4..=8 => readings::answer(line, case),
        10..=24 => pulsar(line, case, out),
        30..=44 => controller(line, case, out),
        50..=51 | 53..=56 | 59 => cards::answer(line, case, out),
        52 | 57..=58 => listings::answer(line, case, out),
        60 => clocks::answer(line, case),
        71..=80 => datagrams::answer(line, case, out),
        81..=87 => tables::answer(line, case, out),
        90..=97 => file_records::answer(line, case, out),
        98..=99 => exchanges::answer(line, case, out),
        _ => Err(Stop::UnknownAct),
    }
}

// A case's line, or what is wrong with the case.
fn tell(mut to: Stdout, case: Case, out: &mut [u8]) -> io::Result<()> {
    let mut line = Line::new();
    match answer(&mut line, case, out).or_else(|stop| line.stopped(stop)) {
        Ok(()) => to.write_all(line.text()),
        Err(Stop::UnknownAct) => writeln!(to, "unknown act {}", case.act),
        Err(Stop::NoBuffer) => Err(ErrorKind::InvalidInput.into()),
        Err(_) => to.write_all(b"line too long\n"),
    }
}

// Where a read fails, the input ends.
#[derive(Clone, Copy)]
struct Input(Stdin);

impl Read for Input {
    fn read(&mut self, buffer: &mut [u8]) -> io::Result<usize> {
        Ok(self.0.read(buffer).unwrap_or(0))
    }
}

// The first n bytes of a buffer, as they come in.
fn filled<'a>(mut from: Input, buffer: &'a mut [u8], n: usize) -> io::Result<&'a mut [u8]> {
    let m = n.min(buffer.len());
    let part = &mut buffer[..m];
    from.read_exact(part)?;
    Ok(part)
}

// A case of whose head so many bytes have come, and the byte string that its call may change.
fn read_case<'a>(
    mut from: Input,
    mut head: [u8; 6],
    came: usize,
    given: &'a mut [u8],
    out: &'a mut [u8],
) -> io::Result<(Case<'a>, &'a mut [u8])>
    requires { came ≤ 6 }
{
    from.read_exact(&mut head[came..])?;
    let n = 8 * byte_at(&head, 1) as usize;
    let m = n + le16_at(&head, 2) as usize;
    let given = filled(from, given, m)?;
    let out = filled(from, out, le16_at(&head, 4) as usize)?;
    let case = Case {
        act: byte_at(&head, 0),
        numbers: front(given, n),
        bytes: rest(given, n),
    };
    Ok((case, out))
}

// Reads one case and answers it. False where there is no next one.
fn answer_one(
    mut from: Input,
    mut to: Stdout,
    given: &mut [u8],
    out: &mut [u8],
) -> io::Result<bool> {
    let mut head = [0u8; 6];
    let came = from.read(&mut head)?;
    if came == 0 {
        return Ok(false);
    }
    match read_case(from, head, came, given, out) {
        Ok((case, out)) => {
            tell(to, case, out)?;
            Ok(true)
        }
        Err(_) => {
            to.write_all(b"case cut short\n")?;
            Ok(false)
        }
    }
}

// There is room for 255 numbers and for byte strings of any length that a case can say. A proved loop has to end, and nothing says that the
// input does: there are more turns than a run uses up.
fn main(rt: HostRuntime) {
    let from = Input(rt.stdin());
    let to = rt.stdout();
    let mut given = [0u8; 67575];
    let mut out = [0u8; 65535];
    for _ in 0..u64::MAX {
        match answer_one(from, to, &mut given, &mut out) {
            Ok(true) => {}
            _ => break,
        }
    }
}
