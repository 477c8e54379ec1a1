// Acts 71 to 80: SM160 datagrams, and the read-file request and reply.
use crate::case::Case;
use crate::say::{Line, Said, Stop};
use sm160_datagram::{
    data_of, datagram_fault, options_of, put_closing, put_opening, read_datagram, write_datagram,
};
use sm160_read_file::{message_of, name_of, read_reply, read_request, write_reply, write_request};
use wire::{Written, front};

// Act 72: with the options.
fn with_options(line: &mut Line, bytes: &[u8]) -> Said {
    let kind = read_datagram(bytes)?;
    let options = options_of(bytes);
    line.say(
        &[
            0,
            kind as u64,
            options.len() as u64,
            data_of(bytes).len() as u64,
        ],
        options,
    )
}

// Act 73: with the data.
fn with_data(line: &mut Line, bytes: &[u8]) -> Said {
    let kind = read_datagram(bytes)?;
    line.say(&[0, kind as u64], data_of(bytes))
}

fn request(line: &mut Line, bytes: &[u8]) -> Said {
    let r = read_request(bytes)?;
    line.say(&[0, r.offset, r.size], name_of(bytes))
}

fn reply(line: &mut Line, bytes: &[u8]) -> Said {
    let status = read_reply(bytes)?;
    line.say(
        &[0, status as u64, data_of(bytes).len() as u64],
        message_of(bytes),
    )
}

// A writer that takes two byte strings is given them as one.
fn write(case: Case, out: &mut [u8]) -> Written {
    let (first, second) = case.cut_at(1);
    match case.act {
        74 => write_datagram(case.byte(0), first, second, out),
        76 => write_request(case.long(0), case.long(1), case.bytes, out),
        _ => write_reply(case.word(0), first, second, out),
    }
}

fn write_text(kind: u8, text: &[u8], out: &mut [u8]) -> Written {
    if kind == 7 {
        write_request(0, u64::MAX, text, out)
    } else {
        write_reply(0, text, b"", out)
    }
}

// Act 79: a text of n zero bytes and an output of zero bytes, longer than a case can hold. The CRC-32 stands for the output.
fn long(line: &mut Line, kind: u8, n: usize, room: usize) -> Said {
    let text = [0u8; 65600];
    let mut buffer = [0u8; 65700];
    let out = buffer.get_mut(..room).ok_or(Stop::NoBuffer)?;
    let w = write_text(kind, front(&text, n), out);
    line.answer(w.map(|length| [length as u64]))?;
    line.numbers(&[checksum::crc32_from(0, out) as u64])
}

// Act 80: the two ends of a datagram.
fn put_ends(line: &mut Line, case: Case, out: &mut [u8]) -> Said {
    put_opening(out, case.byte(0), case.word(1));
    put_closing(out, case.size(2), case.long(3));
    line.say(&[0], out)
}

pub fn answer(line: &mut Line, case: Case, out: &mut [u8]) -> Said {
    let bytes = case.bytes;
    match case.act {
        71 => {
            datagram_fault(bytes, out)?;
            line.numbers(&[0])
        }
        72 => with_options(line, bytes),
        73 => with_data(line, bytes),
        75 => request(line, bytes),
        77 => reply(line, bytes),
        79 => long(line, case.byte(0), case.size(1), case.size(2)),
        80 => put_ends(line, case, out),
        _ => {
            let w = write(case, out);
            line.written(w, out)
        }
    }
}
