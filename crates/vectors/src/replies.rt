// Acts 21 and 23: reply bodies.
use crate::case::Case;
use crate::say::{Line, Said};
use date::{DateTime, is_no_date};
use pulsar_reply::{
    ArchiveReply, Reply, read_reply, reply_function, reply_values, write_reply_body,
};

fn reply(line: &mut Line, r: Reply, values: &[u8]) -> Said {
    line.words(&[0, reply_function(r) as u64])?;
    match r {
        Reply::Error(number) => line.words(&[number as u64])?,
        Reply::Channels | Reply::Parameter | Reply::ParameterWritten => {}
        Reply::ChannelsWritten(mask) => line.words(&[mask as u64])?,
        Reply::Clock(d) => {
            line.words(&[1])?;
            line.date(d)?;
        }
        Reply::NoClock => line.words(&[0])?,
        Reply::ClockSet(status) => line.words(&[status as u64])?,
        Reply::Archive(a) => {
            line.words(&[a.mask as u64])?;
            line.date(a.first)?;
        }
    }
    line.bytes(values)
}

// As `clock_of` of pulsar_reply, which is private: no public function there makes a reply of a date alone.
fn clock_from(d: DateTime) -> Reply {
    if is_no_date(d) {
        Reply::NoClock
    } else {
        Reply::Clock(d)
    }
}

// No From<Case>: the case is a reply by its act alone.
fn reply_from(case: Case) -> Reply {
    match case.byte(0) {
        0x00 => Reply::Error(case.byte(4)),
        0x01 => Reply::Channels,
        0x02 => Reply::ChannelsWritten(case.word(2)),
        0x04 => clock_from(case.date(5)),
        0x05 => Reply::ClockSet(case.byte(3)),
        0x06 => Reply::Archive(ArchiveReply {
            mask: case.word(2),
            first: case.date(5),
        }),
        0x0A => Reply::Parameter,
        _ => Reply::ParameterWritten,
    }
}

pub fn answer(line: &mut Line, case: Case, out: &mut [u8]) -> Said {
    let width = case.size(1);
    let mask = case.word(2);
    let bytes = case.bytes;
    if case.act == 21 {
        let r = read_reply(case.byte(0), width, mask, bytes)?;
        return reply(line, r, reply_values(r, bytes));
    }
    let w = write_reply_body(reply_from(case), width, mask, bytes, out);
    line.written(w, out)
}
