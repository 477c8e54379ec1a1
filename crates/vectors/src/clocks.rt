// Act 60: the meter's clock beside the cabinet's.
use crate::case::Case;
use crate::say::{Line, Said};
use clock::clock_difference;

// The sign, 1 for negative, and the size, which for the least i64 is no i64.
pub fn answer(line: &mut Line, case: Case) -> Said {
    let seconds = clock_difference(case.date(0), case.date(1))?;
    line.numbers(&[0, (seconds < 0) as u64, seconds.unsigned_abs()])
}
