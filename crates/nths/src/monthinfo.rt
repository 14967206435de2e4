// The mask of the nth weekdays: for each day of a year, and for the seven days after it, whether BYDAY has an entry (n, weekday), n not 0,
// that it passes.
ghost use Rattle.std.specs.Prelude.{◌≡◌, true, false, ◌+◌, ◌-◌, ◌%◌, ◌≤◌, ◌<◌};
ghost use Rattle.calendar.specs.Calendar.{days_of, month_day_table, from_end_table};
ghost use Rattle.rule.specs.Days.{nth_passes};
ghost use Rattle.nths.specs.Masks.{nth_at, nth_mask, TellsEnds};
ghost use Rattle.nths.specs.Marks.{NoEntry, Marked, rows_of};

use crate::places::{days_of, year_day, year_day_from_end};
use dates::masks::{month_day_from_end_table, month_day_table};
use weeks::yearinfo::Year;

// Whether a day passes an nth entry: its place in its month or year, counted from 1, and the same from the end.
fn nth_passes(byday: &[bool; 749], weekday: usize, place: usize, left: usize) -> bool
    requires { (weekday < 7) × (1 ≤ place) × (place ≤ 366) × (1 ≤ left) × (left ≤ 366) }
    ensures { result ≡ nth_passes byday.now weekday place (place + left - 1) }
{
    let forward = ((place - 1) / 7 + 54) * 7 + weekday;
    let back = (52 - (left - 1) / 7) * 7 + weekday;
    byday[forward] | byday[back]
}

// The rows of the set that a day can pass, from one up to another: a day of a month passes n from -5 to 5.
fn rows_of(inyear: bool) -> (usize, usize)
    ensures { result ≡ rows_of inyear }
{
    if inyear { (0, 107) } else { (48, 59) }
}

// Whether the set has an entry for a weekday in the rows from one up to another. Over rows cut by seven it is no plainer.
fn has_entry(byday: &[bool; 749], weekday: usize, from: usize, to: usize) -> bool
    requires { (weekday < 7) × (from ≤ to) × (to ≤ 107) }
    ensures { result ≡ false → NoEntry byday.now weekday from to }
{
    let mut some = false;
    for row in from..to {
        some = some | byday[row * 7 + weekday];
    }
    some
}

// The first place that falls on a weekday, in the year with this first day.
fn first_place(first: u64, weekday: usize) -> usize
    requires { weekday < 7 }
    ensures { (result < 7) × ((first + result) % 7 ≡ weekday) }
{
    (weekday + 7 - (first % 7) as usize) % 7
}

// Marks the days of a weekday that pass. `ends` tells of a place its day in its year or month, counted from 1, and the same from the end.
fn mark_days<F: Fn(usize) -> (usize, usize)>(
    inyear: bool,
    year: Year,
    byday: &[bool; 749],
    weekday: usize,
    ends: &F,
    mask: &mut [bool; 373],
)
    requires weekday { weekday < 7 }
    requires told { TellsEnds F.pre F.post ends.now inyear year }
    ensures { Marked (nth_at inyear year byday.now) year.first weekday (days_of year.long + 7) mask.old mask.new }
{
    for place in (first_place(year.first, weekday)..days_of(year.long) + 7).step_by(7) {
        let (day, left) = ends(place);
        mask[place] = nth_passes(byday, weekday, day, left);
    }
}

// The mask, where `ends` tells so of a place. Only weekdays that have an entry are gone through.
// A struct of inyear, year and byday is no plainer: neg_weekday_mask alone would make it, for these two.
fn mask_by<F: Fn(usize) -> (usize, usize)>(
    inyear: bool,
    year: Year,
    byday: &[bool; 749],
    ends: &F,
) -> [bool; 373]
    requires { TellsEnds F.pre F.post ends.now inyear year }
    ensures { result ≡ nth_mask inyear year byday.now }
{
    let rows = rows_of(inyear);
    let mut mask = [false; 373];
    for weekday in 0..7 {
        if has_entry(byday, weekday, rows.0, rows.1) {
            mark_days(inyear, year, byday, weekday, ends, &mut mask);
        }
    }
    mask
}

// The mask; where the entries count in the year, and not in the month, `inyear` says so.
pub fn neg_weekday_mask(inyear: bool, year: Year, byday: &[bool; 749]) -> [bool; 373]
    ensures { result ≡ nth_mask inyear year byday.now }
{
    if !inyear {
        let monthdays = month_day_table(year.long);
        let fromends = month_day_from_end_table(year.long);
        let in_month = |place: usize| (monthdays[place] as usize, fromends[place] as usize);
        return mask_by(inyear, year, byday, &in_month);
    }
    let in_year = |place| {
        (
            year_day(year.long, place),
            year_day_from_end(year.long, year.nextlong, place),
        )
    };
    mask_by(inyear, year, byday, &in_year)
}
