// Acts 14 and 15: the line collector.
use crate::case::Case;
use crate::say::{Line, Said};
use pulsar_line::{Collector, new, push, silence};
use wire::front;

// The bytes of a line, one after another, and then silence.
fn collected(line: &mut Line, bytes: &[u8]) -> Said {
    let all = bytes.iter().fold(new(), |c, b| push(c, *b).state);
    let handed = silence(all).answer?;
    line.say(
        &[0, handed.count as u64, handed.missing as u64],
        front(&handed.bytes, handed.count),
    )
}

// What each of the two calls answers of a lent state, with the count that push leaves, and what silence hands over of the state as it was lent.
fn lent(line: &mut Line, count: usize, byte: u8, len: u8) -> Said {
    let mut bytes = [0u8; 255];
    bytes[5] = len;
    let c = Collector { bytes, count };
    let pushed = push(c, byte);
    let left = pushed.state.count as u64;
    line.answer(pushed.answer.map(|_| [left]))?;
    let handed = silence(c).answer;
    line.answer(handed.map(|h| [h.count as u64, h.missing as u64]))?;
    line.bytes(b"")
}

pub fn answer(line: &mut Line, case: Case) -> Said {
    match case.act {
        14 => collected(line, case.bytes),
        _ => lent(line, case.size(0), case.byte(1), case.byte(2)),
    }
}
