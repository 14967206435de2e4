// Which lists are asked together, and day sets where none is asked, or BYMONTH alone.
ghost use Rattle.std.specs.Prelude.{◌≡◌, ◌+◌, min, length};
ghost use Rattle.std.proofs.lemmas.List.Edits.{sets};
ghost use Rattle.calendar.specs.Calendar.{days_of};
ghost use Rattle.plain.specs.DaySets.{is_plain, is_month_alone, is_mixed, all_days, month_days};

use crate::filters::has_month;
use nths::places::days_of;
use rule::rrule::Rule;
use years::iterinfo::IterInfo;
use years::lists::Asked;

// Whether no list is asked.
pub fn is_plain(asked: Asked) -> bool
    ensures { result ≡ is_plain asked }
{
    !(asked.month | (asked.monthday | (asked.yearday | (asked.weekno | asked.day))))
}

// Whether BYMONTH alone is asked.
pub fn is_month_alone(asked: Asked) -> bool
    ensures { result ≡ is_month_alone asked }
{
    asked.month & !(asked.monthday | (asked.yearday | (asked.weekno | asked.day)))
}

// Whether more than one list is asked, or BYMONTHDAY: then each day goes through the filters.
pub fn is_mixed(asked: Asked) -> bool
    ensures { result ≡ is_mixed asked }
{
    asked.monthday
        | ((asked.month & (asked.yearday | (asked.weekno | asked.day)))
            | ((asked.yearday & (asked.weekno | asked.day)) | (asked.weekno & asked.day)))
}

// A stretch ends with the year's tables.
pub fn stretch_end(long: bool, to: usize) -> usize
    ensures { result ≡ min to (days_of long + 7) }
{
    to.min(days_of(long) + 7)
}

// The day set where no list is asked: all the places of a stretch of a year's tables.
// Places in a lent array, with their count: no heap. Counted by hand, since the count is the answer; a zip would reckon it apart.
pub fn plain_days(long: bool, from: usize, to: usize, days: &mut [u16; 373]) -> usize
    ensures count { result ≡ length (all_days from (min to (days_of long + 7))) }
    ensures places { days.new ≡ sets days.old 0 (all_days from (min to (days_of long + 7))) }
{
    let end = stretch_end(long, to);
    let mut written: usize = 0;
    for place in from..end {
        days[written] = place as u16;
        written += 1;
    }
    written
}

// The day set where BYMONTH alone is asked: the places of a stretch that pass it. Over a slice of months it is no plainer: `from` may lie past it.
// Places in a lent array, with their count: no heap.
pub fn days_by_month(
    rule: &Rule,
    info: &IterInfo,
    from: usize,
    to: usize,
    days: &mut [u16; 373],
) -> usize
    ensures count { result
        ≡ length (month_days info.now.months rule.now.bymonth from (min to (days_of info.now.year.long + 7))) }
    ensures places { days.new
        ≡ sets days.old 0 (month_days info.now.months rule.now.bymonth from (min to (days_of info.now.year.long + 7))) }
{
    let stop = stretch_end(info.year.long, to);
    let mut taken: usize = 0;
    for place in from..stop {
        if !has_month(&rule.bymonth, info.months[place]) {
            continue;
        }
        days[taken] = place as u16;
        taken += 1;
    }
    taken
}
