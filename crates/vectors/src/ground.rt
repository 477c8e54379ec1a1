// Acts 1 to 3, 9, 61 to 63 and 70: the checksums, dates and digits.
use crate::case::Case;
use crate::say::{Line, Said};
use checksum::{checksum, checksum_from, crc32_from, lrc, sum_byte, sum_from};
use date::{date_at, is_date};
use wire::{digit, digit_of};

// Acts 9, 62 and 70: a message in two stretches, by a sum over the bytes so far and a stretch.
fn stretches<S: Copy + Into<u64>, F: Fn(S, &[u8]) -> S>(
    line: &mut Line,
    sum: F,
    start: S,
    first: &[u8],
    second: &[u8],
) -> Said
    requires { F.IsAlwaysCallable sum }
{
    let after_first = sum(start, first);
    let after_both = sum(after_first, second);
    line.numbers(&[0, after_first.into(), after_both.into()])
}

// Act 63: a byte as a sum, as a number and as a character.
fn of_a_byte(line: &mut Line, b: u8) -> Said {
    line.numbers(&[0, lrc(b) as u64, digit(b as u64) as u64, digit_of(b) as u64])
}

pub fn answer(line: &mut Line, case: Case, second: &[u8]) -> Said {
    let bytes = case.bytes;
    match case.act {
        1 => line.numbers(&[0, checksum_from(case.short(0), bytes) as u64]),
        2 => line.numbers(&[0, checksum(bytes) as u64]),
        3 => line.numbers(&[0, is_date(date_at(bytes, 0)) as u64]),
        9 => stretches(line, checksum_from, case.short(0), bytes, second),
        61 => line.numbers(&[0, sum_byte(case.byte(0), case.byte(1)) as u64]),
        62 => stretches(line, sum_from, case.byte(0), bytes, second),
        70 => stretches(line, crc32_from, case.word(0), bytes, second),
        _ => of_a_byte(line, case.byte(0)),
    }
}
