// The date of a day, and the day of a date.
ghost use Rattle.std.specs.Prelude.{◌≡◌};
ghost use Rattle.calendar.specs.Calendar.{day_of_date, date_of};

use crate::masks;
use calendar::utils::{Date, days_before_year, is_leap_year, year_of_day};

// The date of a day.
pub fn date_from_ordinal(day: u32) -> Date
    ensures { result ≡ date_of day }
{
    let year = year_of_day(day);
    let long = is_leap_year(year);
    let place = ((day as u64) - days_before_year(year)) as usize;
    let month_day = masks::month_day_at(long, place);
    Date {
        year,
        month: masks::month_at(long, place),
        day: month_day,
        length: month_day + masks::month_day_from_end_at(long, place) - 1,
    }
}

// The day of a date.
pub fn day_of_date(year: u32, month: u8, day: u8) -> u64
    ensures { result ≡ day_of_date year month day }
{
    let before = masks::days_before_month(is_leap_year(year), month) as u64;
    days_before_year(year) + before + day.saturating_sub(1) as u64
}
