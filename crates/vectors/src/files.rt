// Acts 40 to 42: SM160 frames and the sender.
use crate::case::Case;
use crate::say::{Line, Said};
use sm160_frame::{part_of, read_frame, write_frame};
use sm160_sender::send;

fn frame(line: &mut Line, bytes: &[u8]) -> Said {
    let f = read_frame(bytes)?;
    line.say(
        &[0, f.session as u64, f.offset as u64, f.flags as u64],
        part_of(bytes),
    )
}

pub fn answer(line: &mut Line, case: Case, out: &mut [u8]) -> Said {
    let bytes = case.bytes;
    match case.act {
        40 => frame(line, bytes),
        41 => {
            let w = write_frame(case.short(0), case.word(1), case.short(2), bytes, out);
            line.written(w, out)
        }
        _ => {
            let sent = send(bytes, case.short(0), case.size(1), case.size(2), out);
            line.answer(sent.map(|s| [s.length as u64, s.next as u64]))?;
            line.bytes(out)
        }
    }
}
