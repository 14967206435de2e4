// Day sets.
ghost use Rattle.std.specs.Prelude.{◌≡◌, ◌+◌, ◌≤◌, ◌<◌, min, length, set, if◌then◌else◌};
ghost use Rattle.std.proofs.lemmas.List.Edits.{sets};
ghost use Rattle.days.specs.Filters.{rule_lists};
ghost use Rattle.calendar.specs.Calendar.{days_of};
ghost use Rattle.days.specs.DaySets.{day_set, some_of_four, FirstMarked, has_every, marked_days, year_days, weekday_days, sole_days};

use crate::filters::{is_filtered, is_filtered_by_year_day, is_filtered_on};
use crate::places::{next_weekday, weekday_at};
use plain::iterinfo::{days_by_month, is_mixed, is_plain, plain_days, stretch_end};
use rule::rrule::Rule;
use years::iterinfo::IterInfo;
use years::lists::Asked;

// The passing places of a stretch, by all the filters, day by day.
// No heap: places in a lent array, and their count. A struct of the six is no plainer: the clause `day_set` names each by itself.
fn filtered_days(
    asked: Asked,
    rule: &Rule,
    info: &IterInfo,
    from: usize,
    to: usize,
    days: &mut [u16; 373],
) -> usize
    ensures count { result ≡ length (day_set asked info.now (rule_lists rule.now) from to) }
    ensures places { days.new ≡ sets days.old 0 (day_set asked info.now (rule_lists rule.now) from to) }
{
    let stop = stretch_end(info.year.long, to);
    let mut count: usize = 0;
    for place in from..stop {
        if is_filtered(asked, rule, info, place) {
            continue;
        }
        days[count] = place as u16;
        count += 1;
    }
    count
}

// Whether one of four flags is set.
// Four looks and no `any`: next_marked asks it at each step, and a bar of speed counts its instructions.
fn some_of_four(flags: &[bool], at: usize) -> bool
    requires { at + 4 ≤ length flags.now }
    ensures { result ≡ some_of_four flags.now at }
{
    flags[at] | (flags[at + 1] | (flags[at + 2] | flags[at + 3]))
}

// Whether BYDAY has an entry for every weekday of its kind.
// Not the function of records: its clause is another definition (rule specs/Records), and this one is asked in each period.
fn has_every(byday: &[bool; 749]) -> bool
    ensures { result ≡ has_every byday.now }
{
    some_of_four(byday, 371) | some_of_four(byday, 374)
}

// The first place of a stretch that a mask marks, or the stretch's end. With the iterator's `position` the proof didn't close.
fn first_marked(marks: &[bool; 373], from: usize, to: usize) -> usize
    requires { (from ≤ to) × (to ≤ 373) }
    ensures { FirstMarked marks.now from to result }
{
    for at in from..to {
        if marks[at] {
            return at;
        }
    }
    to
}

// The same where few places are marked: eight that aren't are passed at a step, by hand, since a bar of speed counts the instructions a day.
fn next_marked(marks: &[bool; 373], from: usize, to: usize) -> usize
    requires { (from ≤ to) × (to ≤ 373) }
    ensures { FirstMarked marks.now from to result }
{
    let mut at = from;
    while at + 8 <= to {
        if some_of_four(marks, at) | some_of_four(marks, at + 4) {
            return first_marked(marks, at, to);
        }
        at += 8;
    }
    first_marked(marks, at, to)
}

// The places of a stretch that a mask marks. No `for`: the next mark is looked for eight places at a step, which a bar of speed needs.
// No heap: places in a lent array, and their count.
fn marked_days(marks: &[bool; 373], from: usize, end: usize, days: &mut [u16; 373]) -> usize
    requires { (from < end) × (end ≤ 373) }
    ensures count { result ≡ length (marked_days marks.now from end) }
    ensures places { days.new ≡ sets days.old 0 (marked_days marks.now from end) }
{
    let mut marked: usize = 0;
    let mut place = next_marked(marks, from, end);
    while place < end {
        days[marked] = place as u16;
        marked += 1;
        place = next_marked(marks, place + 1, end);
    }
    marked
}

// Writes a place behind those that are kept, unless it is filtered out, and how many are kept now.
// No heap: a lent array, and how many of its slots are written.
fn keep(days: &mut [u16; 373], kept: usize, place: usize, out: bool) -> usize
    requires { (kept < 373) × (place < 373) }
    ensures count { result ≡ (if out then kept else kept + 1) }
    ensures places { days.new ≡ (if out then days.old else set days.old kept place) }
{
    if out {
        return kept;
    }
    days[kept] = place as u16;
    kept + 1
}

// The places of a stretch that pass BYYEARDAY.
// No heap: places in a lent array, and their count.
fn year_days(rule: &Rule, info: &IterInfo, from: usize, end: usize, days: &mut [u16; 373]) -> usize
    requires { (end ≤ 373) × (end ≤ days_of info.now.year.long + 7) }
    ensures count { result ≡ length (year_days info.now.year.long info.now.year.nextlong rule.now.byyearday from end) }
    ensures places { days.new
        ≡ sets days.old 0 (year_days info.now.year.long info.now.year.nextlong rule.now.byyearday from end) }
{
    let mut found: usize = 0;
    for place in from..end {
        let out = is_filtered_by_year_day(true, rule, info, place);
        found = keep(days, found, place, out);
    }
    found
}

// The places of a stretch that pass BYDAY. The weekday is carried from day to day.
// No heap: places in a lent array, and their count. Of what is asked it needs one flag, so that no struct of the six serves it.
fn weekday_days(
    nth: bool,
    rule: &Rule,
    info: &IterInfo,
    from: usize,
    end: usize,
    days: &mut [u16; 373],
) -> usize
    requires { (from < end) × (end ≤ 373) }
    ensures count { result ≡ length (weekday_days nth info.now.year.first rule.now.byday info.now.nths from end) }
    ensures places { days.new
        ≡ sets days.old 0 (weekday_days nth info.now.year.first rule.now.byday info.now.nths from end) }
{
    let mut passed: usize = 0;
    let mut weekday = weekday_at(info.year.first, from);
    for place in from..end {
        let out = is_filtered_on(nth, rule, info, weekday, place);
        passed = keep(days, passed, place, out);
        weekday = next_weekday(weekday);
    }
    passed
}

// The day set where BYYEARDAY, BYWEEKNO or BYDAY alone is asked. Where BYDAY has no entry for every weekday, the mask of the nths decides.
// No heap: places in a lent array, and their count. The six stand apart as in filtered_days: the clause `sole_days` names each.
fn sole_days(
    asked: Asked,
    rule: &Rule,
    info: &IterInfo,
    from: usize,
    to: usize,
    days: &mut [u16; 373],
) -> usize
    ensures count { result ≡ length (sole_days asked info.now (rule_lists rule.now) from (min to (days_of info.now.year.long + 7))) }
    ensures places { days.new
        ≡ sets days.old 0 (sole_days asked info.now (rule_lists rule.now) from (min to (days_of info.now.year.long + 7))) }
{
    let end = stretch_end(info.year.long, to);
    if end <= from {
        return 0;
    }
    if asked.yearday {
        return year_days(rule, info, from, end, days);
    }
    if asked.weekno {
        return marked_days(&info.weeks, from, end, days);
    }
    if asked.nth & !has_every(&rule.byday) {
        return marked_days(&info.nths, from, end, days);
    }
    weekday_days(asked.nth, rule, info, from, end, days)
}

// The passing days of a stretch of a year's tables, as their places in order, and how many there are. The slots behind them stay.
// Where one list is asked, its test alone decides.
// No heap: places in a lent array, and their count. The six stand apart: the clause `day_set` names each by itself.
pub fn get_dayset(
    asked: Asked,
    rule: &Rule,
    info: &IterInfo,
    from: usize,
    to: usize,
    days: &mut [u16; 373],
) -> usize
    ensures count { result ≡ length (day_set asked info.now (rule_lists rule.now) from to) }
    ensures places { days.new ≡ sets days.old 0 (day_set asked info.now (rule_lists rule.now) from to) }
{
    if is_plain(asked) {
        return plain_days(info.year.long, from, to, days);
    }
    if is_mixed(asked) {
        return filtered_days(asked, rule, info, from, to, days);
    }
    if asked.month {
        return days_by_month(rule, info, from, to, days);
    }
    sole_days(asked, rule, info, from, to, days)
}
