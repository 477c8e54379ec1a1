// How far off a meter's clock is. What it answers is in specs/.
#![tactic(auto)]

ghost use Rattle.std.specs.Prelude.{◌+◌, ◌-◌, ◌*◌, ◌≤◌, true, ◌≡◌};
ghost use Rattle.date.specs.Date.{is_date};
ghost use Rattle.clock.specs.Seconds.{days_of_months, days_of_years, seconds_since2000};
ghost use Rattle.wire.specs.Answer.{judged};
ghost use Rattle.wire.specs.Refusal.{first};
ghost use Rattle.clock.specs.Clock.{bad_meter, bad_cabinet, clock_rules, clock_difference};

use date::{DateTime, is_date};
use wire::Refusal;

// The days of the months before this one, in a year that is not leap, as 2001.
fn common_days(month: u8) -> u16
    requires { (1 ≤ month) × (month ≤ 12) }
    ensures { result ≡ days_of_months 1 (month - 1) }
{
    match month {
        1 => 0,
        2 => 31,
        3 => 59,
        4 => 90,
        5 => 120,
        6 => 151,
        7 => 181,
        8 => 212,
        9 => 243,
        10 => 273,
        11 => 304,
        12 => 334,
        _ => 365,
    }
}

// Each 29 February before the month, from 2000 on: what the days before it are more than by years of 365.
fn leap_days(year: u8, month: u8) -> u16
    ensures { year * 365 + result + days_of_months 1 (month - 1) ≡ days_of_years year + days_of_months year (month - 1) }
{
    let years = year as u16;
    if 2 < month {
        (years + 4) / 4
    } else {
        (years + 3) / 4
    }
}

fn seconds_since_2000(d: DateTime) -> u64
    requires { is_date d ≡ true }
    ensures { result ≡ seconds_since2000 d }
{
    let days = d.year as u64 * 365
        + leap_days(d.year, d.month) as u64
        + common_days(d.month) as u64
        + (d.day - 1) as u64;
    days * 86400 + d.hour as u64 * 3600 + d.minute as u64 * 60 + d.second as u64
}

// Both are rules of their own, each with its number. No date is no real one either.
fn bad_meter(meter: DateTime) -> bool
    ensures { result ≡ bad_meter meter }
{
    !is_date(meter)
}

fn bad_cabinet(cabinet: DateTime) -> bool
    ensures { result ≡ bad_cabinet cabinet }
{
    !is_date(cabinet)
}

fn judge(meter: DateTime, cabinet: DateTime) -> Result<(), Refusal>
    ensures { result ≡ judged tt (first (clock_rules meter cabinet)) }
{
    if bad_meter(meter) {
        return Err(Refusal::BadDate);
    }
    if bad_cabinet(cabinet) {
        return Err(Refusal::BadTime);
    }
    Ok(())
}

// The meter's date less the cabinet's, in seconds: negative when the meter is slow.
pub fn clock_difference(meter: DateTime, cabinet: DateTime) -> Result<i64, Refusal>
    ensures { result ≡ clock_difference meter cabinet }
{
    judge(meter, cabinet)?;
    let at_meter = seconds_since_2000(meter) as i64;
    let at_cabinet = seconds_since_2000(cabinet) as i64;
    Ok(at_meter - at_cabinet)
}
