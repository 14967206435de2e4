// Whether a record is one that an accepted check yields. Each flag is read once, with no early exit: a run asks this at every call.
#![tactic(auto)]

ghost use Rattle.std.specs.Prelude.{◌≡◌};
ghost use Rattle.rule.specs.Records.{has_every, yielded};

use basics::lists::{has_nth, is_empty};
use basics::rrule::{count_and_until, frequency_number, has_nought, is_misplaced, is_until_out};
use calendar::utils::LAST_INSTANT;
use rule::rrule::Rule;

// Whether BYDAY's set has an entry with n = 0.
fn has_every(byday: &[bool; 749]) -> bool
    ensures { result ≡ has_every byday.now }
{
    !is_empty(&byday[371..378])
}

// Whether an accepted check yields the record.
// The frequency by its number, since is_misplaced, which the check asks too, takes a number.
pub fn is_record(rule: &Rule) -> bool
    ensures { result ≡ yielded rule.now }
{
    let nought = has_nought(rule.interval, rule.count);
    let both = count_and_until(rule.count, rule.until);
    let number = frequency_number(rule.freq);
    let until = is_until_out(rule.until);
    let every = has_every(&rule.byday);
    let nth = has_nth(&rule.byday);
    let months = is_empty(&rule.bymonth);
    let monthdays = is_empty(&rule.bymonthday);
    let yeardays = is_empty(&rule.byyearday);
    let weeknos = is_empty(&rule.byweekno);
    let hours = is_empty(&rule.byhour);
    let minutes = is_empty(&rule.byminute);
    let seconds = is_empty(&rule.bysecond);
    let positions = is_empty(&rule.bysetpos);
    let misplaced = is_misplaced(number, !weeknos, !yeardays, !monthdays);
    let days = weeknos & (yeardays & (monthdays & !(every | nth)));
    let others = months & (days & (hours & (minutes & seconds)));
    // the rows that a record can break, in the table's order
    let broken = (6 < rule.wkst)
        | (LAST_INSTANT < rule.start)
        | until
        | (every & nth)
        | (nth & (!weeknos | (1 < number)))
        | (!positions & others)
        | nought
        | both
        | misplaced;
    let unfilled = (days & (number < 3))
        | (((number < 4) & hours) | (((number < 5) & minutes) | ((number < 6) & seconds)));
    !(broken | unfilled)
}
