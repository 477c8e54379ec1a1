// DATETIME: six numbers, six bytes, and whether they are a date. A caller refuses what is none with its own number, 13 or 53.
#![tactic(auto)]

ghost use Rattle.std.specs.Prelude.{◌≡◌};
ghost use Rattle.std.proofs.lemmas.List.Edits.{sets};
ghost use Rattle.wire.specs.Numbers.{field};
ghost use Rattle.date.specs.Months.{february, days_of};
ghost use Rattle.date.specs.Date.{date_bytes, date_of, is_date, is_no_date, within};

#[derive(Clone, Copy, Debug, PartialEq, Eq)]
pub struct DateTime {
    // From 2000.
    pub year: u8,
    pub month: u8,
    pub day: u8,
    pub hour: u8,
    pub minute: u8,
    pub second: u8,
}

// The six bytes from a place on.
pub fn date_at(s: &[u8], at: usize) -> DateTime
    ensures { result ≡ date_of (field s.now at 6) }
{
    let p = wire::rest(s, at);
    DateTime {
        year: wire::byte_at(p, 0),
        month: wire::byte_at(p, 1),
        day: wire::byte_at(p, 2),
        hour: wire::byte_at(p, 3),
        minute: wire::byte_at(p, 4),
        second: wire::byte_at(p, 5),
    }
}

pub fn put_date(out: &mut [u8], at: usize, d: DateTime)
    ensures { out.new ≡ sets out.old at (date_bytes d) }
{
    let bytes = [d.year, d.month, d.day, d.hour, d.minute, d.second];
    wire::put_all(out, at, &bytes);
}

fn is_within(lowest: u8, n: u8, highest: u8) -> bool
    ensures { result ≡ within lowest n highest }
{
    (lowest <= n) & (n <= highest)
}

// 2000 is a leap year, and each fourth after it.
fn february_of(year: u8) -> u8
    ensures { result ≡ february year }
{
    if year % 4 == 0 { 29 } else { 28 }
}

// What is no month has 31 here; is_date refuses it.
fn days_of(year: u8, month: u8) -> u8
    ensures { result ≡ days_of year month }
{
    match month {
        2 => february_of(year),
        4 => 30,
        6 => 30,
        9 => 30,
        11 => 30,
        _ => 31,
    }
}

pub fn is_date(d: DateTime) -> bool
    ensures { result ≡ is_date d }
{
    is_within(0, d.year, 99)
        & is_within(1, d.month, 12)
        & is_within(1, d.day, days_of(d.year, d.month))
        & is_within(0, d.hour, 23)
        & is_within(0, d.minute, 59)
        & is_within(0, d.second, 59)
}

// Six bytes FF, which a clock reply alone may bear.
const NO_DATE: DateTime = DateTime {
    year: 255,
    month: 255,
    day: 255,
    hour: 255,
    minute: 255,
    second: 255,
};

// An equality, under the name that the rules use.
pub fn is_no_date(d: DateTime) -> bool
    ensures { result ≡ is_no_date d }
{
    d == NO_DATE
}
