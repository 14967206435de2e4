// A year as the day sets need it, and which of its days pass BYWEEKNO.
ghost use Rattle.std.specs.Prelude.{◌≡◌, ◌+◌, ◌-◌, ◌%◌, ◌≤◌};
ghost use Rattle.calendar.specs.Calendar.{new_year};
ghost use Rattle.rule.specs.Days.{week1};
ghost use Rattle.weeks.specs.Weeks.{year_info, has_mask, week_mask, weeks_around, Counted, passes_around, slots_pass, Marked};

use calendar::utils;

// A year: its number, whether it and the next are leap years, and its first day.
#[derive(Clone, Copy)]
pub struct Year {
    pub number: u32,
    pub long: bool,
    pub nextlong: bool,
    pub first: u64,
}

// The year with a number; after 9999 a blank one, and no Option: what the clause `year_info` promises may not change.
pub fn year_info(number: u32) -> Year
    ensures { result ≡ year_info number }
{
    if 9999 < number {
        return Year {
            number: 0,
            long: false,
            nextlong: false,
            first: 0,
        };
    }
    Year {
        number,
        long: utils::is_leap_year(number),
        nextlong: utils::is_leap_year(number + 1),
        first: utils::days_before_year(number),
    }
}

// The weeks that reach into a year's mask, from last year's last week on: how many days of them lie before the year, and how many weeks last
// year, the year and the next have.
#[derive(Clone, Copy)]
struct Weeks {
    skipped: usize,
    last: usize,
    own: usize,
    next: usize,
}

// Which days of a year, and of the seven days after it, pass BYWEEKNO. Weeks that pass are marked; there are at most 55 of them.
pub fn week_no_mask(year: u32, wkst: u8, weeknos: &[bool; 106]) -> [bool; 373]
    ensures { result ≡ week_mask wkst weeknos.now year }
{
    let mut mask = [false; 373];
    if !has_mask(wkst, year) {
        return mask;
    }
    let weeks = weeks_around(wkst, year);
    let days = (utils::get_year_len(year) as usize) + 7;
    for week in 0..55 {
        if !week_passes(weeknos, weeks, week) {
            continue;
        }
        let from = (7 * week).saturating_sub(weeks.skipped).min(days);
        let to = (7 * week + 7).saturating_sub(weeks.skipped).min(days);
        mark(&mut mask, from, to);
    }
    mask
}

// Whether there is a mask for a week start and a year.
fn has_mask(wkst: u8, year: u32) -> bool
    ensures { result ≡ has_mask wkst year }
{
    (3 <= year) & ((year <= 9999) & (wkst <= 6))
}

// Counts the weeks around a year, from the first days of four years' week 1.
fn weeks_around(wkst: u8, year: u32) -> Weeks
    requires { (wkst ≤ 6) × (3 ≤ year) × (year ≤ 9999) }
    ensures { result ≡ weeks_around wkst year }
{
    let before = week_one(wkst, year - 1);
    let first = week_one(wkst, year);
    let second = week_one(wkst, year + 1);
    let third = week_one(wkst, year + 2);
    Weeks {
        skipped: (utils::days_before_year(year) + 7 - first) as usize,
        last: ((first - before) / 7) as usize,
        own: ((second - first) / 7) as usize,
        next: ((third - second) / 7) as usize,
    }
}

// How many days of 1 January's week lie before it.
fn days_past(wkst: u8, year: u32) -> u64
    requires { wkst ≤ 6 }
    ensures { result ≡ (new_year year + 7 - wkst) % 7 }
{
    ((utils::weekday_of_new_year(year) + 7 - wkst) % 7) as u64
}

// The first day of week 1: the first week with four or more days in the year.
fn week_one(wkst: u8, year: u32) -> u64
    requires { (wkst ≤ 6) × (2 ≤ year) × (year ≤ 10001) }
    ensures { result ≡ week1 wkst year }
{
    let start = utils::days_before_year(year);
    let past = days_past(wkst, year);
    if past < 4 {
        start - past
    } else {
        start - past + 7
    }
}

// Whether a week around a year passes: 0 is last year's last, then come the year's own, then the next year's.
fn week_passes(weeknos: &[bool; 106], weeks: Weeks, week: usize) -> bool
    requires { Counted weeks × (week ≤ 54) }
    ensures { result ≡ passes_around weeknos.now weeks week }
{
    if week == 0 {
        return number_passes(weeknos, weeks.last, weeks.last);
    }
    if week <= weeks.own {
        return number_passes(weeknos, week, weeks.own);
    }
    number_passes(weeknos, week - weeks.own, weeks.next)
}

// Whether the week with a number passes, of so many weeks: the number has a slot, and the number from the year's end.
fn number_passes(weeknos: &[bool; 106], number: usize, count: usize) -> bool
    requires { (number ≤ 53) × (count ≤ 52 + number) }
    ensures { result ≡ slots_pass weeknos.now number count }
{
    weeknos[52 + number] | weeknos[52 + number - count]
}

// Marks the places of a mask from one up to another.
// No `fill`: what it promises is told of clones, and a loop of one line is as plain.
fn mark(mask: &mut [bool; 373], from: usize, to: usize)
    requires { (from ≤ to) × (to ≤ 373) }
    ensures { Marked from to mask.old mask.new }
{
    for flag in &mut mask[from..to] {
        *flag = true;
    }
}
