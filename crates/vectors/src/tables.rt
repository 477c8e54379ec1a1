// Acts 81 to 87: the table of fair turns. Its slots are given and told as five bytes each: the address, and 1 where the slot is due.
use crate::case::Case;
use crate::say::{Line, Said};
use turns::{Answered, Given, Table, Turned};
use wire::{Refusal, byte_at, le32_at, le64_at};

// Two arrays, as the table has them.
fn table_from(slots: &[u8], last: usize) -> Table {
    let mut addresses = [0u32; 32];
    let mut due = [false; 32];
    for i in 0..32 {
        addresses[i] = le32_at(slots, 5 * i);
        due[i] = byte_at(slots, 5 * i + 4) != 0;
    }
    Table {
        addresses,
        due,
        last,
    }
}

// The slots, over the front.
fn put_slots(out: &mut [u8], t: Table) {
    for (i, (address, due)) in t.addresses.iter().zip(t.due.iter()).enumerate() {
        wire::put_le32(out, 5 * i, *address);
        wire::put(out, 5 * i + 4, *due as u8);
    }
}

// Of a call that gives no slot and no address: the line and the 13 bytes have a place for both in each call, with 0 there.
const NOTHING: Given = Given {
    slot: 0,
    address: 0,
};

// A call takes the slot, the address or neither.
fn call(act: u8, slot: usize, address: u32, t: Table) -> Turned {
    let changed = match act {
        82 => {
            let added = turns::add(t, address);
            return Answered {
                answer: added.answer.map(|slot| Given { slot, address: 0 }),
                table: added.table,
            };
        }
        83 => turns::remove(t, slot),
        84 => turns::mark(t, slot),
        85 => turns::clear(t, slot),
        _ => return turns::turn(t),
    };
    Answered {
        answer: changed.answer.map(|_| NOTHING),
        table: changed.table,
    }
}

// The number, the slot and the address, with 0 for what is not: a refusal's line has all three words, and its 13 bytes too.
fn words(answer: Result<Given, Refusal>) -> (u8, usize, u32) {
    match answer {
        Ok(given) => (0, given.slot, given.address),
        Err(refusal) => (refusal.number(), 0, 0),
    }
}

// The answer, the last asked slot and the slots.
fn called(line: &mut Line, turned: Turned, out: &mut [u8]) -> Said {
    let t = turned.table;
    put_slots(out, t);
    let (number, slot, address) = words(turned.answer);
    line.say(
        &[number as u64, slot as u64, address as u64, t.last as u64],
        out,
    )
}

// An answer as 13 bytes: the number, the slot, the address.
fn put_answer(out: &mut [u8], at: usize, answer: Result<Given, Refusal>) {
    let (number, slot, address) = words(answer);
    let mut bytes = [0u8; 13];
    wire::put(&mut bytes, 0, number);
    wire::put_le64(&mut bytes, 1, slot as u64);
    wire::put_le32(&mut bytes, 9, address);
    wire::put_all(out, at, &bytes);
}

// Calls that are given as 13 bytes each, the act, the slot and the address, one after another from a new table on. Their answers stand after
// the 160 bytes of the slots.
fn course(calls: &[u8], out: &mut [u8]) -> Table {
    let mut t = turns::new();
    for (i, given) in calls.chunks(13).enumerate() {
        let slot = le64_at(given, 1) as usize;
        let turned = call(byte_at(given, 0), slot, le32_at(given, 9), t);
        put_answer(out, 160 + 13 * i, turned.answer);
        t = turned.table;
    }
    t
}

// The last asked slot, and what the output holds with the slots over its front.
fn tell(line: &mut Line, t: Table, out: &mut [u8]) -> Said {
    put_slots(out, t);
    line.say(&[0, t.last as u64], out)
}

pub fn answer(line: &mut Line, case: Case, out: &mut [u8]) -> Said {
    match case.act {
        81 => tell(line, turns::new(), out),
        87 => {
            let t = course(case.bytes, out);
            tell(line, t, out)
        }
        _ => {
            let t = table_from(out, case.size(0));
            called(line, call(case.act, case.size(1), case.word(1), t), out)
        }
    }
}
