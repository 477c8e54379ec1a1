// Acts 20 and 22: request bodies.
use crate::case::Case;
use crate::say::{Line, Said};
use archive::type_from;
use pulsar_request::{
    ArchiveRequest, Request, read_request, request_function, request_values, write_request_body,
};

fn request(line: &mut Line, r: Request, values: &[u8]) -> Said {
    line.words(&[0, request_function(r) as u64])?;
    match r {
        Request::ReadChannels(mask) | Request::WriteChannels(mask) => {
            line.words(&[mask as u64])?;
        }
        Request::ReadClock => {}
        Request::SetClock(d) => line.date(d)?,
        Request::ReadArchive(a) => {
            line.words(&[a.mask as u64, u8::from(a.kind) as u64])?;
            line.date(a.first)?;
            line.date(a.last)?;
        }
        Request::ReadParameter(index) | Request::WriteParameter(index) => {
            line.words(&[index as u64])?;
        }
    }
    line.bytes(values)
}

// No From<Case>: the case is a request by its act alone.
fn request_from(case: Case) -> Request {
    match case.byte(0) {
        0x01 => Request::ReadChannels(case.word(2)),
        0x02 => Request::WriteChannels(case.word(2)),
        0x04 => Request::ReadClock,
        0x05 => Request::SetClock(case.date(5)),
        0x06 => Request::ReadArchive(ArchiveRequest {
            mask: case.word(2),
            kind: type_from(case.short(3)),
            first: case.date(5),
            last: case.date(6),
        }),
        0x0A => Request::ReadParameter(case.short(4)),
        _ => Request::WriteParameter(case.short(4)),
    }
}

pub fn answer(line: &mut Line, case: Case, out: &mut [u8]) -> Said {
    let width = case.size(1);
    let bytes = case.bytes;
    if case.act == 20 {
        let r = read_request(case.byte(0), width, bytes)?;
        return request(line, r, request_values(r, bytes));
    }
    let w = write_request_body(request_from(case), width, bytes, out);
    line.written(w, out)
}
