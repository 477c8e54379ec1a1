// Acts 90 to 97: ADI file records, asked for and brought, and the descriptor.
use crate::case::Case;
use crate::say::{Line, Said};
use adi::{contents_number, read_descriptor};
use adi_reply::Reply;
use wire::{Written, le16_at};

// Act 91: 0 for a place that is not there.
fn asked(line: &mut Line, pdu: &[u8], place: usize) -> Said {
    match adi_request::asked_at(pdu, place) {
        Some(a) => line.numbers(&[0, 1, a.file as u64, a.record as u64, a.length as u64]),
        None => line.numbers(&[0, 0]),
    }
}

// Act 92: groups that are given as six bytes each, as many as there is room for.
fn write_request(bytes: &[u8], out: &mut [u8]) -> Written {
    let mut groups = [[0u16; 3]; 40];
    for (group, six) in groups.iter_mut().zip(bytes.chunks_exact(6)) {
        *group = [le16_at(six, 0), le16_at(six, 2), le16_at(six, 4)];
    }
    let n = groups.len().min(bytes.len() / 6);
    adi_request::write_request(&groups[..n], out)
}

// Act 93.
fn reply(line: &mut Line, pdu: &[u8]) -> Said {
    match adi_reply::read_reply(pdu)? {
        Reply::Groups(n) => line.numbers(&[0, n as u64]),
        Reply::NoData(count, length) => line.numbers(&[0, count as u64, length as u64]),
    }
}

// Act 97.
fn descriptor(line: &mut Line, registers: &[u8]) -> Said {
    let d = read_descriptor(registers)?;
    line.numbers(&[
        0,
        d.length as u64,
        d.kind as u64,
        d.records as u64,
        d.record_length as u64,
        contents_number(d.contents) as u64,
        d.next as u64,
        d.total as u64,
    ])
}

pub fn answer(line: &mut Line, case: Case, out: &mut [u8]) -> Said {
    let bytes = case.bytes;
    match case.act {
        90 => line.numbers(&[0, adi_request::read_request(bytes)? as u64]),
        91 => asked(line, bytes, case.size(0)),
        92 => {
            let w = write_request(bytes, out);
            line.written(w, out)
        }
        93 => reply(line, bytes),
        94 => line.say(&[0], adi_reply::registers_at(bytes, case.size(0))),
        95 => {
            let (lengths, registers) = case.cut_at(0);
            let w = adi_reply::write_reply(lengths, registers, out);
            line.written(w, out)
        }
        96 => {
            let w = adi_reply::write_no_data(case.byte(0), case.byte(1), out);
            line.written(w, out)
        }
        _ => descriptor(line, bytes),
    }
}
