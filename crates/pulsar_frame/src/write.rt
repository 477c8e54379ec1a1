// A frame's bytes, over the front of an output that has room.
ghost use Rattle.std.specs.Prelude.{◌≡◌, ◌+◌, ◌≤◌, length};
ghost use Rattle.std.proofs.lemmas.List.Edits.{sets};
ghost use Rattle.wire.specs.Refusal.{first};
ghost use Rattle.wire.specs.Writes.{Writes};
ghost use Rattle.pulsar_frame.specs.Layout.{frame_body, frame_bytes};
ghost use Rattle.pulsar_frame.specs.Writing.{room_rules};

use crate::fields::Names;
use crate::refuse;
use wire::{Refusal, Written};

// All before CRC. The payload stands beside the names: the master asks with the same names, and has none.
fn put_body(names: Names, payload: &[u8], out: &mut [u8])
    requires { length payload.now ≤ 245 }
    ensures { out.new ≡ sets out.old 0 (frame_body names.address names.function names.id payload.now) }
{
    let n = payload.len();
    wire::put_bcd32(out, names.address);
    wire::put(out, 4, names.function);
    wire::put(out, 5, (n + 10) as u8);
    wire::put_all(out, 6, payload);
    wire::put_le16(out, n + 6, names.id);
}

fn put_frame(names: Names, payload: &[u8], out: &mut [u8])
    requires { (length payload.now ≤ 245) × (length payload.now + 10 ≤ length out.old) }
    ensures { out.new ≡ sets out.old 0 (frame_bytes names.address names.function names.id payload.now) }
{
    put_body(names, payload, out);
    let n = payload.len() + 8;
    let crc = checksum::checksum(&out[..n]);
    wire::put_le16(out, n, crc);
}

pub fn write_frame(names: Names, payload: &[u8], out: &mut [u8]) -> Written
    ensures { Writes (first (room_rules payload.now out.old)) (frame_bytes names.address names.function names.id payload.now) out.old result out.new }
{
    if refuse::too_long(payload) {
        return Err(Refusal::TooLong);
    }
    if refuse::no_room(payload, out) {
        return Err(Refusal::NoRoom);
    }
    put_frame(names, payload, out);
    Ok(payload.len() + 10)
}
