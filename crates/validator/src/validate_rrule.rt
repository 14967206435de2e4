// The check: from what is given to a record, or a refusal.
ghost use Rattle.std.specs.Prelude.{◌≡◌, ◌≤◌, Ok};
ghost use Rattle.rule.specs.Lists.{set_of};
ghost use Rattle.rule.specs.Raw.{entries, pairs, lists_of, raw_of};
ghost use Rattle.rule.specs.Filling.{blank, given, checked};
ghost use Rattle.rule.specs.Refusals.{entry_out, not_rising, positions_alone, verdict};
ghost use Rattle.rule.specs.Entries.{or_refused};

use crate::entries::{
    HOURS, MONTHDAYS, MONTHS, NTHS, POSITIONS, SIXTY, WEEKDAYS, WEEKNOS, YEARDAYS, are_rising,
    has_every, has_nth, has_strays, is_rising, mark_list, mark_pairs,
};
use crate::filling::filled;
use basics::rrule::{count_and_until, frequency_of, has_nought, is_misplaced, is_until_out};
use calendar::utils::LAST_INSTANT;
use rule::rrule::{ByLists, Frequency, Range, Refusal, Rule, Unvalidated};

// Whether an entry of a list lies outside its range, or one of BYDAY lacks a half.
fn entry_out(lists: &ByLists) -> bool
    ensures { result ≡ entry_out (lists_of lists.now) }
{
    has_strays(MONTHS, lists.bymonth)
        | has_strays(MONTHDAYS, lists.bymonthday)
        | has_strays(YEARDAYS, lists.byyearday)
        | has_strays(WEEKNOS, lists.byweekno)
        | (lists.bydayn.len() != lists.bydayw.len())
        | has_strays(NTHS, lists.bydayn)
        | has_strays(WEEKDAYS, lists.bydayw)
        | has_strays(HOURS, lists.byhour)
        | has_strays(SIXTY, lists.byminute)
        | has_strays(SIXTY, lists.bysecond)
        | has_strays(POSITIONS, lists.bysetpos)
}

// Whether a list doesn't rise strictly.
fn not_rising(lists: &ByLists) -> bool
    ensures { result ≡ not_rising (lists_of lists.now) }
{
    !is_rising(lists.bymonth)
        | !is_rising(lists.bymonthday)
        | !is_rising(lists.byyearday)
        | !is_rising(lists.byweekno)
        | !are_rising(lists.bydayn, lists.bydayw)
        | !is_rising(lists.byhour)
        | !is_rising(lists.byminute)
        | !is_rising(lists.bysecond)
        | !is_rising(lists.bysetpos)
}

// A row of the table: its refusal, if it applies.
fn row(applies: bool, refusal: Refusal) -> Result<(), Refusal>
    ensures { result ≡ or_refused (Ok tt) refusal applies }
{
    if applies { Err(refusal) } else { Ok(()) }
}

// The set of a list's entries.
fn marked<const N: usize>(range: Range, list: &[i16]) -> [bool; N]
    requires { (range.negatives ≤ 366) × (range.positives ≤ 366) }
    ensures { result ≡ set_of N (entries range list.now) }
{
    let mut flags = [false; N];
    mark_list(range, list, &mut flags);
    flags
}

// The set of BYDAY's pairs.
// Beside `marked`: one function of both would take the marking as a closure, and be no plainer.
fn marked_pairs(ns: &[i16], ws: &[i16]) -> [bool; 749]
    ensures { result ≡ set_of 749 (pairs ns.now ws.now) }
{
    let mut flags = [false; 749];
    mark_pairs(ns, ws, &mut flags);
    flags
}

// The record as it is given, before filling in: the sets of the lists.
pub fn given_rule(raw: &Unvalidated, start: u64) -> Rule
    ensures { result ≡ given (raw_of raw.now start) }
{
    let lists = &raw.lists;
    Rule {
        freq: frequency_of(raw.freq),
        interval: raw.interval,
        count: raw.count,
        until: raw.until,
        wkst: raw.wkst,
        start,
        bymonth: marked(MONTHS, lists.bymonth),
        bymonthday: marked(MONTHDAYS, lists.bymonthday),
        byyearday: marked(YEARDAYS, lists.byyearday),
        byweekno: marked(WEEKNOS, lists.byweekno),
        byday: marked_pairs(lists.bydayn, lists.bydayw),
        byhour: marked(HOURS, lists.byhour),
        byminute: marked(SIXTY, lists.byminute),
        bysecond: marked(SIXTY, lists.bysecond),
        bysetpos: marked(POSITIONS, lists.bysetpos),
    }
}

// Whether BYSETPOS is present and every other list empty.
fn positions_alone(lists: &ByLists) -> bool
    ensures { result ≡ positions_alone (lists_of lists.now) }
{
    !lists.bysetpos.is_empty()
        & (lists.bymonth.is_empty()
            & (lists.bymonthday.is_empty()
                & (lists.byyearday.is_empty()
                    & (lists.byweekno.is_empty()
                        & (lists.bydayn.is_empty()
                            & (lists.bydayw.is_empty()
                                & (lists.byhour.is_empty()
                                    & (lists.byminute.is_empty() & lists.bysecond.is_empty()))))))))
}

// The verdict: every row's test, then the rows in the table's order. The whole rule is handed over, whether a row asks for a part of it or not.
pub fn verdict_of(given: &Unvalidated, start: u64) -> Result<(), Refusal>
    ensures { result ≡ verdict (raw_of given.now start) }
{
    let lists = &given.lists;
    let entry = entry_out(lists);
    let order = not_rising(lists);
    let alone = positions_alone(lists);
    let nth = has_nth(lists.bydayn);
    let mixed = has_every(lists.bydayn) & nth;
    let misplaced = nth & (!lists.byweekno.is_empty() | (1 < given.freq));
    let nought = has_nought(given.interval, given.count);
    let both = count_and_until(given.count, given.until);
    let stray = is_misplaced(
        given.freq,
        !lists.byweekno.is_empty(),
        !lists.byyearday.is_empty(),
        !lists.bymonthday.is_empty(),
    );
    let until = is_until_out(given.until);
    row(6 < given.freq, Refusal::FrequencyAbove)
        .and(row(6 < given.wkst, Refusal::WeekStartAbove))
        .and(row(LAST_INSTANT < start, Refusal::StartOut))
        .and(row(until, Refusal::UntilOut))
        .and(row(entry, Refusal::EntryOut))
        .and(row(order, Refusal::NotRising))
        .and(row(mixed, Refusal::MixedDays))
        .and(row(misplaced, Refusal::NthMisplaced))
        .and(row(alone, Refusal::PositionsAlone))
        .and(row(nought, Refusal::Nought))
        .and(row(both, Refusal::CountAndUntil))
        .and(row(stray, Refusal::ListMisplaced))
}

// The record that holds nothing: the line program shows it of a rule that the check refuses.
// Written out: there is no `Default` of arrays this long, so none to derive for `Rule`.
pub fn blank_rule() -> Rule
    ensures { result ≡ blank }
{
    Rule {
        freq: Frequency::Yearly,
        interval: 0,
        count: None,
        until: None,
        wkst: 0,
        start: 0,
        bymonth: [false; 12],
        bymonthday: [false; 62],
        byyearday: [false; 732],
        byweekno: [false; 106],
        byday: [false; 749],
        byhour: [false; 24],
        byminute: [false; 60],
        bysecond: [false; 60],
        bysetpos: [false; 732],
    }
}

// The check: the record, filled in; or the lowest refusal that applies.
pub fn check(given: &Unvalidated, start: u64) -> Result<Rule, Refusal>
    ensures { result ≡ checked (raw_of given.now start) }
{
    verdict_of(given, start)?;
    Ok(filled(&given_rule(given, start)))
}
