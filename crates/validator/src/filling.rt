// Filling in: what an accepted rule takes from its start.
ghost use Rattle.std.specs.Prelude.{◌≡◌, ◌≤◌};
ghost use Rattle.rule.specs.Filling.{no_days, fill};

use crate::entries::take;
use basics::lists::is_empty;
use basics::rrule::frequency_number;
use calendar::utils::EPOCH;
use dates::utils;
use rule::rrule::Rule;

// Whether BYWEEKNO, BYYEARDAY, BYMONTHDAY and BYDAY are all empty.
pub(crate) fn no_days(rule: &Rule) -> bool
    ensures { result ≡ no_days rule.now }
{
    is_empty(&rule.byweekno)
        & (is_empty(&rule.byyearday) & (is_empty(&rule.bymonthday) & is_empty(&rule.byday)))
}

// The record, filled in from its start, which is in range.
// The frequency by its number, as the definitions `same` and `is_below` have it (rule specs/Filling).
pub(crate) fn filled(rule: &Rule) -> Rule
    requires { rule.now.start ≤ 253402300799 }
    ensures { result ≡ fill rule.now }
{
    let second = rule.start + EPOCH;
    let day = (second / 86400) as u32;
    let date = utils::date_from_ordinal(day);
    let number = frequency_number(rule.freq);
    let free = no_days(rule);
    let month = (date.month as usize) - 1;
    let monthday = (date.day as usize) + 30;
    let weekday = 371 + (day % 7) as usize;
    let hour = (second % 86400 / 3600) as usize;
    let minute = (second % 3600 / 60) as usize;
    Rule {
        bymonth: take(rule.bymonth, free & (number == 0), month),
        bymonthday: take(
            rule.bymonthday,
            free & ((number == 0) | (number == 1)),
            monthday,
        ),
        byday: take(rule.byday, free & (number == 2), weekday),
        byhour: take(rule.byhour, number < 4, hour),
        byminute: take(rule.byminute, number < 5, minute),
        bysecond: take(rule.bysecond, number < 6, (second % 60) as usize),
        ..*rule
    }
}
