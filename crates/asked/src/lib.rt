// The rule that a line asks for.
#![tactic(auto)]

ghost use Rattle.std.specs.Prelude.{◌≡◌, true, IsOk};

use rule::rrule::{ByLists, Refusal, Rule, Unvalidated};
use validator::validate_rrule::{check, given_rule};
use words::Line;
use words::lists::{List, Pairs};

// The rule of a line, checked; or the record itself, with nothing checked and nothing filled in.
pub fn checked_in(line: &Line) -> Result<Rule, Refusal>
    ensures { line.now.is_record ≡ true → IsOk result }
{
    let given = given_in(line);
    if line.is_record {
        Ok(given_rule(&given, line.start))
    } else {
        check(&given, line.start)
    }
}

fn given_in(line: &Line) -> Unvalidated<'_> {
    let lists = &line.lists;
    let (bydayn, bydayw) = halves(&lists.byday);
    Unvalidated {
        freq: line.freq,
        interval: line.interval,
        count: line.count,
        until: line.until,
        wkst: line.wkst,
        lists: ByLists {
            bymonth: entries(&lists.bymonth),
            bymonthday: entries(&lists.bymonthday),
            byyearday: entries(&lists.byyearday),
            byweekno: entries(&lists.byweekno),
            bydayn,
            bydayw,
            byhour: entries(&lists.byhour),
            byminute: entries(&lists.byminute),
            bysecond: entries(&lists.bysecond),
            bysetpos: entries(&lists.bysetpos),
        },
    }
}

// A list that is missing is empty.
fn entries(list: &Option<List>) -> &[i16] {
    match list {
        Some(list) => list.as_slice(),
        None => &[],
    }
}

// The two halves of BYDAY's pairs.
fn halves(pairs: &Option<Pairs>) -> (&[i16], &[i16]) {
    match pairs {
        Some(pairs) => (pairs.nths.as_slice(), pairs.weekdays.as_slice()),
        None => (&[], &[]),
    }
}
