// The filters of a day set, in document 01's order. Each asks its list only where there is one.
ghost use Rattle.std.specs.Prelude.{◌≡◌, false, not, ◌&&◌, ◌||◌, ◌+◌, ◌<◌, get_or};
ghost use Rattle.calendar.specs.Calendar.{days_of};
ghost use Rattle.plain.specs.DaySets.{month_at};
ghost use Rattle.days.specs.Filters.{where_asked, has_day, has_left, monthday_at, yearday_at, weekday_at, rule_lists, place_passes};

use crate::places::weekday_at;
use nths::places::{days_of, year_day, year_day_from_end};
use plain::filters::has_month;
use rule::rrule::Rule;
use years::iterinfo::IterInfo;
use years::lists::Asked;

// Whether BYMONTHDAY has a day of the month, and one from the month's end.
fn has_day(bymonthday: &[bool; 62], day: u8) -> bool
    ensures { result ≡ has_day bymonthday.now day }
{
    (1..=31).contains(&day) && bymonthday[30 + day as usize]
}

fn has_left(bymonthday: &[bool; 62], left: u8) -> bool
    ensures { result ≡ has_left bymonthday.now left }
{
    (1..=31).contains(&left) && bymonthday[31 - left as usize]
}

// The month and the month day of a place are read of the year's tables.
// A struct of rule, year and place is no plainer: each filter reads one list and one table of them, and its clause names these.
fn is_filtered_by_month(asked: bool, rule: &Rule, info: &IterInfo, place: usize) -> bool
    requires { place < 373 }
    ensures { result ≡ not (where_asked asked (month_at info.now.months rule.now.bymonth place)) }
{
    asked && !has_month(&rule.bymonth, info.months[place])
}

fn is_filtered_by_month_day(asked: bool, rule: &Rule, info: &IterInfo, place: usize) -> bool
    requires { place < 373 }
    ensures { result ≡ not (where_asked asked (monthday_at info.now.monthdays info.now.fromends rule.now.bymonthday place)) }
{
    asked
        && !(has_day(&rule.bymonthday, info.monthdays[place])
            | has_left(&rule.bymonthday, info.fromends[place]))
}

pub(crate) fn is_filtered_by_year_day(
    asked: bool,
    rule: &Rule,
    info: &IterInfo,
    place: usize,
) -> bool
    requires { place < days_of info.now.year.long + 7 }
    ensures { result ≡ not (where_asked asked (yearday_at info.now.year.long info.now.year.nextlong rule.now.byyearday place)) }
{
    if !asked {
        return false;
    }
    let day = year_day(info.year.long, place);
    let left = year_day_from_end(info.year.long, info.year.nextlong, place);
    !(rule.byyearday[365 + day] | rule.byyearday[366 - left])
}

fn is_filtered_by_week_number(asked: bool, info: &IterInfo, place: usize) -> bool
    requires { place < 373 }
    ensures { result ≡ not (where_asked asked (get_or info.now.weeks place false)) }
{
    asked && !info.weeks[place]
}

// BYDAY is one test: some entry passes, every weekday or nth. Here the weekday is known.
pub(crate) fn is_filtered_on(
    nth: bool,
    rule: &Rule,
    info: &IterInfo,
    weekday: usize,
    place: usize,
) -> bool
    requires { (weekday < 7) × (place < 373) }
    ensures { result ≡ not (get_or rule.now.byday (371 + weekday) false || (nth && get_or info.now.nths place false)) }
{
    !(rule.byday[371 + weekday] | (nth & info.nths[place]))
}

fn is_filtered_by_weekday(asked: Asked, rule: &Rule, info: &IterInfo, place: usize) -> bool
    requires { place < 373 }
    ensures { result ≡ not (where_asked asked.day (weekday_at asked.nth info.now.year.first rule.now.byday info.now.nths place)) }
{
    if !asked.day {
        return false;
    }
    let weekday = weekday_at(info.year.first, place);
    is_filtered_on(asked.nth, rule, info, weekday, place)
}

// Whether the day at a place of a year's tables is filtered out, by a list or as there is no such place.
pub fn is_filtered(asked: Asked, rule: &Rule, info: &IterInfo, place: usize) -> bool
    ensures { result ≡ not (place_passes asked info.now (rule_lists rule.now) place) }
{
    if days_of(info.year.long) + 7 <= place {
        return true;
    }
    is_filtered_by_month(asked.month, rule, info, place)
        || (is_filtered_by_month_day(asked.monthday, rule, info, place)
            || (is_filtered_by_year_day(asked.yearday, rule, info, place)
                || (is_filtered_by_week_number(asked.weekno, info, place)
                    || is_filtered_by_weekday(asked, rule, info, place))))
}
