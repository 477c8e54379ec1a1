// Acts 98 and 99: an ADI request in its envelope, and the reply to it.
use crate::case::Case;
use crate::say::{Line, Said};
use wire::{Refusal, Written, front, rest};

// How many bytes a group asks for, where there is one at the place and one byte can tell them.
fn bytes_asked(pdu: &[u8], place: usize) -> Option<u8> {
    adi_request::asked_at(pdu, place)
        .and_then(|a| u8::try_from(a.length).ok())
        .and_then(|n| n.checked_mul(2))
}

// The reply to a request of n groups. Without registers it means no data.
fn write_reply(pdu: &[u8], n: usize, registers: &[u8], out: &mut [u8]) -> Written {
    if registers.is_empty() {
        return adi_reply::write_no_data(2, 0, out);
    }
    // Plain bytes, as `write_reply` takes them: 0 where none is asked for.
    let mut lengths = [0u8; 35];
    for (i, length) in lengths.iter_mut().enumerate() {
        *length = bytes_asked(pdu, i + 1).unwrap_or(0);
    }
    adi_reply::write_reply(front(&lengths, n), registers, out)
}

// What the reply to a request has behind its function.
fn reply_data<'a>(pdu: &[u8], registers: &[u8], room: &'a mut [u8]) -> Result<&'a [u8], Refusal> {
    let n = adi_request::read_request(pdu)?;
    let length = write_reply(pdu, n, registers, room)?;
    Ok(rest(front(room, length), 1))
}

// Two functions: they differ in what is read, in the fields handed on and in the writer, and one for both would take a closure for each.
fn rtu(packet: &[u8], registers: &[u8], out: &mut [u8]) -> Written {
    let r = modbus::read_rtu(packet)?;
    let mut room = [0u8; 253];
    let data = reply_data(modbus::rtu_pdu(packet), registers, &mut room)?;
    modbus::write_rtu(r.address, adi::FUNCTION, data, out)
}

fn tcp(packet: &[u8], registers: &[u8], out: &mut [u8]) -> Written {
    let t = modbus::read_tcp(packet)?;
    let mut room = [0u8; 253];
    let data = reply_data(modbus::tcp_pdu(packet), registers, &mut room)?;
    modbus::write_tcp(t.transaction, t.unit, adi::FUNCTION, data, out)
}

// The number tells where the request's packet ends and the registers begin.
pub fn answer(line: &mut Line, case: Case, out: &mut [u8]) -> Said {
    let (packet, registers) = case.cut_at(0);
    let w = match case.act {
        98 => rtu(packet, registers, out),
        _ => tcp(packet, registers, out),
    };
    line.written(w, out)
}
