// The numbers of a frequency and of a refusal, the rows of the table that a rule and its record are asked alike, and the fresh cursor of a rule.
ghost use Rattle.std.specs.Prelude.{◌≡◌};
ghost use Rattle.machine.specs.Given.{reaches};
ghost use Rattle.rule.specs.Run.{count_of, start_in, fresh_of};
ghost use Rattle.rule.specs.Refusals.{refusal_number, nought, until_out, count_and_until, misplaces};
ghost use Rattle.rule.specs.Filling.{frequency_number, frequency};

use calendar::utils::LAST_INSTANT;
use machine::{Cause, Cursor, State};
use rule::rrule::{Frequency, Refusal, Rule};

// The number of a refusal in document 01's table.
pub fn refusal_number(refusal: Refusal) -> u8
    ensures { result ≡ refusal_number refusal }
{
    refusal as u8
}

// The number of a frequency in document 01.
pub fn frequency_number(freq: Frequency) -> u8
    ensures { result ≡ frequency_number freq }
{
    freq as u8
}

// The frequency with a number; one above 6 is refused before it is asked for.
// No TryFrom, which can fail: the clause `frequency` has a frequency for every number.
pub fn frequency_of(number: u8) -> Frequency
    ensures { result ≡ frequency number }
{
    match number {
        0 => Frequency::Yearly,
        1 => Frequency::Monthly,
        2 => Frequency::Weekly,
        3 => Frequency::Daily,
        4 => Frequency::Hourly,
        5 => Frequency::Minutely,
        _ => Frequency::Secondly,
    }
}

// Whether UNTIL is out of range.
pub fn is_until_out(until: Option<u64>) -> bool
    ensures { result ≡ until_out until }
{
    until.is_some_and(|t| LAST_INSTANT < t)
}

// Whether INTERVAL or COUNT is 0.
pub fn has_nought(interval: u16, count: Option<u32>) -> bool
    ensures { result ≡ nought interval count }
{
    (interval == 0) | is_nought(count)
}

// Whether COUNT and UNTIL are both present.
pub fn count_and_until(count: Option<u32>, until: Option<u64>) -> bool
    ensures { result ≡ count_and_until count until }
{
    until.is_some() & count.is_some()
}

// Whether a frequency has a list that it can't have: by its number, and which lists are present.
// A number and no Frequency: the check asks it of what is given, which may be above 6 (`misplaces`).
pub fn is_misplaced(freq: u8, weeknos: bool, yeardays: bool, monthdays: bool) -> bool
    ensures { result ≡ misplaces freq weeknos yeardays monthdays }
{
    (weeknos & (freq != 0))
        | (yeardays & ((freq == 3) | ((freq == 2) | (freq == 1))))
        | (monthdays & (freq == 2))
}

// A fresh cursor: ended by Count if COUNT is 0, else by Interval if INTERVAL is 0, else running.
pub fn fresh(rule: &Rule) -> Cursor
    ensures { result ≡ fresh_of rule.now }
{
    if is_nought(rule.count) {
        return cursor_in(State::Ended(Cause::Count));
    }
    if rule.interval == 0 {
        return cursor_in(State::Ended(Cause::Interval));
    }
    cursor_in(State::Running)
}

// Whether COUNT is 0.
fn is_nought(count: Option<u32>) -> bool
    ensures { result ≡ reaches (count_of count) 0 }
{
    count == Some(0)
}

fn cursor_in(state: State) -> Cursor
    ensures { result ≡ start_in state }
{
    Cursor {
        state,
        k: 0,
        place: 0,
        number: 0,
    }
}
