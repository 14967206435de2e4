// Days and years, and what a date is.
ghost use Rattle.std.specs.Prelude.{◌≡◌, ◌-◌};
ghost use Rattle.calendar.specs.Calendar.{leap, year_length, new_year, year_of, weekday};

// The day after 9999.
pub const RANGE_END: u64 = 3652059;

// The seconds from 0001-01-01 to 1970-01-01.
pub const EPOCH: u64 = 62135596800;

// 9999-12-31T23:59:59Z, as an instant.
pub const LAST_INSTANT: u64 = 253402300799;

// A date: year, month and day of the month count from 1; length is the month's.
#[derive(Clone, Copy, PartialEq, Eq)]
pub struct Date {
    pub year: u32,
    pub month: u8,
    pub day: u8,
    pub length: u8,
}

// Whether a year has 366 days.
pub fn is_leap_year(year: u32) -> bool
    ensures { result ≡ leap year }
{
    year % 4 == 0 && (year % 100 != 0 || year % 400 == 0)
}

// A year's length, 365 or 366.
pub fn get_year_len(year: u32) -> u16
    ensures { result ≡ year_length year }
{
    if is_leap_year(year) { 366 } else { 365 }
}

// The days before 1 January of a year; none before the year 1, nor before the year 0.
pub fn days_before_year(year: u32) -> u64
    ensures { result ≡ new_year year }
{
    let past = year.saturating_sub(1) as u64;
    365 * past + past / 4 - past / 100 + past / 400
}

// The weekday of 1 January, where Monday is 0. Over whole weeks a year has one day and every fourth year two: 5/4 a year. A hundred years have
// five, and every fourth hundred six: 21/4 a hundred.
pub fn weekday_of_new_year(year: u32) -> u8
    ensures { result ≡ weekday (new_year year) }
{
    let past = year.saturating_sub(1);
    ((5 * (past % 100) / 4 + 21 * (past / 100) / 4) % 7) as u8
}

// The year of a day: 400 years have 146,097 days, and the year worked out from that is at most one too low.
pub fn year_of_day(day: u32) -> u32
    ensures { result ≡ year_of day }
{
    let year = (400 * ((day as u64) + 2) / 146097) as u32;
    if days_before_year(year + 1) <= day as u64 {
        year + 1
    } else {
        year
    }
}
