// Acts 4 to 8: values by place, readings, the first absent value, channels, sameness.
use crate::case::Case;
use crate::say::{Line, Said};
use reading::mask::{channel_count, channel_of};
use reading::values::{first_absent, value_at};
use reading::{Reading, bits, is_absent, is_same, kind_from, kind_of, of_bits, read_value};

// Kind, bits and whether they are absent.
fn value(line: &mut Line, r: Reading) -> Said {
    let kind = u8::from(kind_of(r));
    line.numbers(&[0, kind as u64, bits(r), is_absent(r) as u64])
}

// Readings that are given as their kinds and their bits.
fn same(line: &mut Line, case: Case) -> Said {
    let a = of_bits(kind_from(case.byte(0)), case.long(1));
    let b = of_bits(kind_from(case.byte(2)), case.long(3));
    line.numbers(&[0, is_same(a, b) as u64])
}

pub fn answer(line: &mut Line, case: Case) -> Said {
    let bytes = case.bytes;
    match case.act {
        4 => {
            let kind = kind_from(case.byte(1));
            value(line, value_at(case.size(0), kind, bytes, case.size(2))?)
        }
        5 => value(line, read_value(kind_from(case.byte(0)), bytes)?),
        6 => {
            let place = first_absent(case.size(0), bytes)?.unwrap_or(0);
            line.numbers(&[0, place as u64])
        }
        7 => {
            let mask = case.word(0);
            let channel = channel_of(mask, case.size(1));
            line.numbers(&[0, channel as u64, channel_count(mask) as u64])
        }
        _ => same(line, case),
    }
}
