// The days of a period, by its number.
ghost use Rattle.std.specs.Prelude.{◌≡◌, ◌≤◌};
ghost use Rattle.stretches.specs.Stretches.{first_of_month, days_in};

use calendar::utils::{RANGE_END, days_before_year};
use dates::utils::day_of_date;
use rule::rrule::Frequency;

// The days of a period, or the day that it is a part of: from the first up to the one after the last.
#[derive(Clone, Copy)]
pub struct Days {
    pub from: u64,
    pub to: u64,
}

// What stands for the days of a period after 9999.
// No Option: the clause `days_in` promises days for every number, and a run asks of periods in range alone.
const NO_DAYS: Days = Days { from: 0, to: 0 };

// The days of the period with this number, and none where it begins after 9999.
pub fn days_of(freq: Frequency, number: u64) -> Days
    ensures { result ≡ days_in freq number }
{
    match freq {
        Frequency::Yearly => days_of_year(number),
        Frequency::Monthly => days_of_month(number),
        Frequency::Weekly => days_of_week(number),
        Frequency::Daily | Frequency::Hourly | Frequency::Minutely | Frequency::Secondly => {
            day_alone(number)
        }
    }
}

// The days of a year.
fn days_of_year(number: u64) -> Days
    ensures { result ≡ days_in Frequency.Yearly number }
{
    if 10000 <= number {
        return NO_DAYS;
    }
    let year = number as u32;
    Days {
        from: days_before_year(year),
        to: days_before_year(year + 1),
    }
}

// The days of a month.
fn days_of_month(number: u64) -> Days
    ensures { result ≡ days_in Frequency.Monthly number }
{
    if 120000 <= number {
        return NO_DAYS;
    }
    Days {
        from: first_of_month(number),
        to: first_of_month(number + 1),
    }
}

// The first day of a month.
fn first_of_month(number: u64) -> u64
    requires { number ≤ 120000 }
    ensures { result ≡ first_of_month number }
{
    day_of_date((number / 12) as u32, (number % 12 + 1) as u8, 1)
}

// The days of the week that begins on a day, as far as 9999 goes.
fn days_of_week(number: u64) -> Days
    ensures { result ≡ days_in Frequency.Weekly number }
{
    if RANGE_END <= number {
        return NO_DAYS;
    }
    Days {
        from: number,
        to: (number + 7).min(RANGE_END),
    }
}

// A day alone.
fn day_alone(number: u64) -> Days
    ensures { result ≡ days_in Frequency.Daily number }
{
    if RANGE_END <= number {
        return NO_DAYS;
    }
    Days {
        from: number,
        to: number + 1,
    }
}
