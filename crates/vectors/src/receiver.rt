// Acts 43 and 44: the SM160 receiver, and its opening.
use crate::case::Case;
use crate::say::{Line, Said};
use sm160_receiver::{Progress, Receiver, open, receive};

fn state(line: &mut Line, s: Receiver, buffer: &[u8]) -> Said {
    line.say(
        &[
            s.session as u64,
            s.limit as u64,
            s.under_way as u64,
            s.count as u64,
        ],
        buffer,
    )
}

fn frame(line: &mut Line, case: Case, buffer: &mut [u8]) -> Said {
    let before = Receiver {
        session: case.short(0),
        limit: case.size(1),
        under_way: case.flag(2),
        count: case.size(3),
    };
    let received = receive(before, case.bytes, buffer);
    line.answer(
        received.answer.map(|progress| match progress {
            Progress::Held(n) => [0, n as u64],
            Progress::Complete(n) => [1, n as u64],
        }),
    )?;
    state(line, received.state, buffer)
}

pub fn answer(line: &mut Line, case: Case, buffer: &mut [u8]) -> Said {
    match case.act {
        43 => frame(line, case, buffer),
        _ => {
            let opened = open(case.short(0), case.size(1))?;
            line.words(&[0])?;
            state(line, opened, b"")
        }
    }
}
