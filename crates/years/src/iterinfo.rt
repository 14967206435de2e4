// A year with its tables and masks, as the day test needs them.
ghost use Rattle.std.specs.Prelude.{◌≡◌};
ghost use Rattle.calendar.specs.Calendar.{month_table, month_day_table, from_end_table};
ghost use Rattle.weeks.specs.Weeks.{week_mask};
ghost use Rattle.nths.specs.Masks.{nth_mask};
ghost use Rattle.years.specs.Info.{no_table, no_mask, table_where, mask_where, asks_more, info_by, info_of};

use crate::lists::Asked;
use dates::masks::{month_day_from_end_table, month_day_table, month_table};
use nths::monthinfo::neg_weekday_mask;
use rule::rrule::Rule;
use weeks::yearinfo::{Year, week_no_mask, year_info};

// A year with its tables (the month of each place, its day of the month, and that from the month's end) and its masks. Each is blank
// where the rule has no use for it.
// Blank and no Option: the definition `info_of` has it so, and each day would ask again what Asked has told.
#[derive(Clone, Copy)]
pub struct IterInfo {
    pub year: Year,
    pub months: [u8; 373],
    pub monthdays: [u8; 373],
    pub fromends: [u8; 373],
    pub weeks: [bool; 373],
    pub nths: [bool; 373],
}

// Whether anything is asked for beside the table of months.
fn asks_more(asked: Asked) -> bool
    ensures { result ≡ asks_more asked }
{
    asked.monthday | (asked.weekno | asked.nth)
}

// A year for which nothing is made, and one with its table of months alone. Told apart, the rest costs one clearing of memory.
fn bare_year(year: Year) -> IterInfo
    ensures { result ≡ info_by year no_table no_table no_table no_mask no_mask }
{
    IterInfo {
        year,
        months: [0; 373],
        monthdays: [0; 373],
        fromends: [0; 373],
        weeks: [false; 373],
        nths: [false; 373],
    }
}

fn month_year(year: Year) -> IterInfo
    ensures { result ≡ info_by year (month_table year.long) no_table no_table no_mask no_mask }
{
    IterInfo {
        months: month_table(year.long),
        ..bare_year(year)
    }
}

// A year with its masks and no table.
fn masked_year(year: Year, weeks: [bool; 373], nths: [bool; 373]) -> IterInfo
    ensures { result ≡ info_by year no_table no_table no_table weeks nths }
{
    IterInfo {
        weeks,
        nths,
        ..bare_year(year)
    }
}

// The year with a number: it is asked for again only when the year changes.
pub fn rebuild(asked: Asked, inyear: bool, number: u32, rule: &Rule) -> IterInfo
    ensures { result ≡ info_of asked inyear rule.now.wkst rule.now.byweekno rule.now.byday number }
{
    let year = year_info(number);
    if !asks_more(asked) {
        if asked.month {
            return month_year(year);
        }
        return bare_year(year);
    }
    let weeks = if asked.weekno {
        week_no_mask(number, rule.wkst, &rule.byweekno)
    } else {
        [false; 373]
    };
    let nths = if asked.nth {
        neg_weekday_mask(inyear, year, &rule.byday)
    } else {
        [false; 373]
    };
    if !(asked.month | asked.monthday) {
        return masked_year(year, weeks, nths);
    }
    let months = if asked.month {
        month_table(year.long)
    } else {
        [0; 373]
    };
    let monthdays = if asked.monthday {
        month_day_table(year.long)
    } else {
        [0; 373]
    };
    let fromends = if asked.monthday {
        month_day_from_end_table(year.long)
    } else {
        [0; 373]
    };
    IterInfo {
        year,
        months,
        monthdays,
        fromends,
        weeks,
        nths,
    }
}
