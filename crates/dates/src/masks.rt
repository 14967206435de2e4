// Date masks: for each day of a common or a leap year, and for the seven days after it, its month,
// its day of the month and its day from the month's end; and where each month begins.
ghost use Rattle.std.specs.Prelude.{◌≡◌, [], ◌∷◌, ◌++◌, ◌-◌, min, get_or, if◌then◌else◌};
ghost use Rattle.calendar.specs.Calendar.{table_day, from_end, month_table, month_day_table, from_end_table, days_before_month};

use crate::masks_365::{MONTH_365, MONTH_365_RANGE, MONTH_DAY_365, MONTH_DAY_FROM_END_365};
use crate::masks_366::{MONTH_366, MONTH_366_RANGE, MONTH_DAY_366, MONTH_DAY_FROM_END_366};

// What a year's table has at a place; 0 past the table.
// Tables of numbers and none of structs: document 01 names constant year tables of 372 and 373 numbers (docs/DECISIONS.md, "The run").
fn number_at(long: bool, common: &[u8; 372], leap: &[u8; 373], place: usize) -> u8
    ensures { result ≡ get_or (if long then leap.now else common.now) place 0 }
{
    let table: &[u8] = if long { leap } else { common };
    table.get(place).copied().unwrap_or(0)
}

// The month of the day at a place of a year's table, counted from 0; 0 past the table.
pub fn month_at(long: bool, place: usize) -> u8
    ensures { result ≡ (table_day long place).month }
{
    number_at(long, &MONTH_365, &MONTH_366, place)
}

// Its day of the month; 0 past the table.
pub fn month_day_at(long: bool, place: usize) -> u8
    ensures { result ≡ (table_day long place).day }
{
    number_at(long, &MONTH_DAY_365, &MONTH_DAY_366, place)
}

// Its day from the month's end, where the last is 1; 0 past the table.
pub fn month_day_from_end_at(long: bool, place: usize) -> u8
    ensures { result ≡ from_end (table_day long place) }
{
    number_at(
        long,
        &MONTH_DAY_FROM_END_365,
        &MONTH_DAY_FROM_END_366,
        place,
    )
}

// A year's table in 373 places: a common year's has a place more, where there is no day.
fn table_of(long: bool, common: &[u8; 372], leap: &[u8; 373]) -> [u8; 373]
    ensures { result ≡ (if long then leap.now else common.now ++ (0 ∷ [])) }
{
    if long {
        return *leap;
    }
    let mut longer = [0; 373];
    longer[..372].copy_from_slice(common);
    longer
}

// A year's table of months, to be lent to whoever asks for many of its days: what is read of a constant is copied whole.
pub fn month_table(long: bool) -> [u8; 373]
    ensures { result ≡ month_table long }
{
    table_of(long, &MONTH_365, &MONTH_366)
}

// Its table of days of the month.
pub fn month_day_table(long: bool) -> [u8; 373]
    ensures { result ≡ month_day_table long }
{
    table_of(long, &MONTH_DAY_365, &MONTH_DAY_366)
}

// Its table of days from the month's end.
pub fn month_day_from_end_table(long: bool) -> [u8; 373]
    ensures { result ≡ from_end_table long }
{
    table_of(long, &MONTH_DAY_FROM_END_365, &MONTH_DAY_FROM_END_366)
}

// The days of a year before a month, which counts from 1; behind December they are all of them.
pub fn days_before_month(long: bool, month: u8) -> u16
    ensures { result ≡ days_before_month long month }
{
    let place = month_place(month);
    if long {
        MONTH_366_RANGE[place]
    } else {
        MONTH_365_RANGE[place]
    }
}

// The place of a month in a table that begins with January and ends behind December.
fn month_place(month: u8) -> usize
    ensures { result ≡ min (month - 1) 12 }
{
    (month.saturating_sub(1) as usize).min(12)
}
