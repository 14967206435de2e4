// Whether a running cursor fits its period, which is opened.
ghost use Rattle.std.specs.Prelude.{◌≡◌, ◌&&◌, ◌-◌, leb};
ghost use Rattle.machine.specs.Given.{below};
ghost use Rattle.rule.specs.Run.{count_of};
ghost use Rattle.fitting.specs.Fitting.{end_in, candidate_of, next_of, fits_period, is_fit};

use machine::Cursor;
use opening::period::OpenPeriod;
use plans::plan::Plan;
use rule::rrule::Frequency;
use stretches::counter_date::Days;
use units::unit::unit_of;
use walks::rrule_iter::{Bounds, Candidates};

// The first second after a period with this tick, whose days end before the day to; 0 where they are far out of range.
// No Option: the clause `end_in` has a second for every day and tick.
fn end_of(freq: Frequency, to: u64, tick: u64) -> u64
    ensures { result ≡ end_in freq to tick }
{
    if (4194304 <= to) | (86400 <= tick) {
        return 0;
    }
    to.saturating_sub(1) * 86400 + (tick + 1) * unit_of(freq)
}

// Whether a number is below COUNT, where that is given.
fn is_below(count: Option<u32>, number: u64) -> bool
    ensures { result ≡ below (count_of count) number }
{
    count.is_none_or(|n| number < n as u64)
}

// Which candidate is kept number i, with positions or without.
fn candidate_of(positioned: bool, places: &[u32], i: u32) -> u32
    ensures { result ≡ candidate_of positioned places.now i }
{
    if !positioned {
        return i;
    }
    places.get(i as usize).copied().unwrap_or(0)
}

// The second of kept number i, or the first second after the period where there is none such.
fn next_second(plan: &Plan, opened: &OpenPeriod, end: u64, i: u32) -> u64
    ensures { result ≡ next_of plan.now.shape.positioned opened.now.period end i opened.now.days plan.now.lists opened.now.places }
{
    if opened.period.kept <= i {
        return end;
    }
    let number = candidate_of(plan.shape.positioned, &opened.places, i);
    let candidates = Candidates {
        frame: opened.period.frame,
        days: &opened.days,
        lists: &plan.lists,
    };
    candidates.candidate_at(number)
}

// Whether so many can have been handed out when this second comes next: below COUNT, and one in each second at most.
fn is_due(bounds: Bounds, number: u64, next: u64) -> bool
    ensures { result ≡ below (count_of bounds.count) number && leb number (next - bounds.start) }
{
    is_below(bounds.count, number) & (number <= next.saturating_sub(bounds.start))
}

// Whether a cursor's place and number fit its period, which ends before this second.
fn fits_period(plan: &Plan, opened: &OpenPeriod, end: u64, cursor: Cursor) -> bool
    ensures { result ≡ fits_period plan.now.shape.positioned plan.now.bounds opened.now.period end cursor
        opened.now.days plan.now.lists opened.now.places }
{
    if opened.period.kept < cursor.place {
        return false;
    }
    let next = next_second(plan, opened, end, cursor.place);
    is_due(plan.bounds, cursor.number, next)
}

// Whether a cursor fits the period with this stretch of days and this tick.
// The five stand apart: stretch and tick are those of the turn, and the clause `is_fit` names each by itself.
pub fn is_fit(plan: &Plan, span: Days, tick: u64, opened: &OpenPeriod, cursor: Cursor) -> bool
    ensures { result ≡ is_fit plan.now.shape span tick plan.now.bounds opened.now.period cursor
        opened.now.days plan.now.lists opened.now.places }
{
    let end = end_of(plan.shape.freq, span.to, tick);
    fits_period(plan, opened, end, cursor)
}
