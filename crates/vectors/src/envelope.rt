// Acts 30 to 35: Modbus envelopes.
use crate::case::Case;
use crate::say::{Line, Said};
use modbus_ascii::{read_ascii, write_ascii};

fn rtu(line: &mut Line, bytes: &[u8]) -> Said {
    let r = modbus::read_rtu(bytes)?;
    line.say(
        &[0, r.address as u64, r.function as u64],
        modbus::rtu_data(bytes),
    )
}

fn tcp(line: &mut Line, bytes: &[u8]) -> Said {
    let t = modbus::read_tcp(bytes)?;
    line.say(
        &[0, t.transaction as u64, t.unit as u64, t.function as u64],
        modbus::tcp_data(bytes),
    )
}

// The whole of the output, refused or not.
fn ascii(line: &mut Line, chars: &[u8], out: &mut [u8]) -> Said {
    let read = read_ascii(chars, out);
    line.answer(read.map(|a| [a.address as u64, a.function as u64, a.length as u64]))?;
    line.bytes(out)
}

pub fn answer(line: &mut Line, case: Case, out: &mut [u8]) -> Said {
    let bytes = case.bytes;
    match case.act {
        30 => rtu(line, bytes),
        31 => {
            let w = modbus::write_rtu(case.byte(0), case.byte(1), bytes, out);
            line.written(w, out)
        }
        32 => tcp(line, bytes),
        33 => {
            let w = modbus::write_tcp(case.short(0), case.byte(1), case.byte(2), bytes, out);
            line.written(w, out)
        }
        34 => ascii(line, bytes, out),
        _ => {
            let w = write_ascii(case.byte(0), case.byte(1), bytes, out);
            line.written(w, out)
        }
    }
}
