// Acts 10 to 13: Pulsar-M frames.
use crate::case::Case;
use crate::say::{Line, Said};
use pulsar_frame::{Frame, payload, read_at_master, read_at_meter, write_reply, write_request};

fn frame(line: &mut Line, f: Frame, bytes: &[u8]) -> Said {
    line.say(
        &[
            0,
            f.address as u64,
            f.function as u64,
            f.id as u64,
            f.len as u64,
        ],
        payload(bytes, f.len),
    )
}

pub fn answer(line: &mut Line, case: Case, out: &mut [u8]) -> Said {
    let address = case.word(0);
    let function = case.byte(1);
    let id = case.short(2);
    let bytes = case.bytes;
    match case.act {
        10 => frame(line, read_at_meter(address, bytes)?, bytes),
        11 => {
            let f = read_at_master(address, function, id, bytes)?;
            frame(line, f, bytes)
        }
        12 => {
            let w = write_request(address, function, id, bytes, out);
            line.written(w, out)
        }
        _ => {
            let w = write_reply(address, function, id, bytes, out);
            line.written(w, out)
        }
    }
}
