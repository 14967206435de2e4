// The run: a rule's due instants, from a cursor on, into a lent buffer, with a budget of moves.
ghost use Rattle.std.specs.Prelude.{◌≡◌, true, ◌||◌, ◌≤◌};
ghost use Rattle.machine.specs.declared.State.{State};
ghost use Rattle.machine.specs.Calls.{beside};
ghost use Rattle.rule.specs.Periods.{in_range};
ghost use Rattle.rule.specs.Records.{yielded};
ghost use Rattle.rule.specs.Run.{run_of};
ghost use Rattle.periods.specs.Counters.{counter_at};
ghost use Rattle.plans.specs.Plans.{plan_of};
ghost use Rattle.fitting.specs.Fitting.{is_fit};

use crate::walking::walk_period;
use basics::faults::refused;
use fitting::cursors::is_fit;
use machine::{Answer, Cursor, Fault, State, Stop};
use moves::counter_date::increment;
use opening::period::{OpenPeriod, none_open, open_period};
use periods::counter_date::{Counter, counter_at};
use plans::plan::{Plan, plan_of};
use records::is_record;
use rule::rrule::Rule;
use settling::rrule_iter::{answer, ended, held_at, moved_to, settle};
use stretches::counter_date::{Days, days_of};
use units::year::{covers, year_at};
use years::iterinfo::rebuild;

// Whether a cursor was tried before, or fits the period that is open.
// Asked in the loop, by a flag: a second open_period before it misses a bar of speed (docs/DECISIONS.md, "The run"). The rest are is_fit's.
fn is_taken(
    tried: bool,
    plan: &Plan,
    span: Days,
    tick: u64,
    opened: &OpenPeriod,
    cursor: Cursor,
) -> bool
    ensures { result ≡ tried || is_fit plan.now.shape span tick plan.now.bounds opened.now.period cursor
        opened.now.days plan.now.lists opened.now.places }
{
    tried || is_fit(plan, span, tick, opened, cursor)
}

// The run of a good record from a running cursor whose period begins in range. The cursor is tried when its period is opened, at the first turn.
// No `for`: the turns alone tell how many they are. Rule and plan are tied by one clause, here; a plan that lends its rule is no plainer.
fn run_on(
    rule: &Rule,
    plan: &Plan,
    begun: Counter,
    cursor: Cursor,
    buffer: &mut [u64],
    m: u32,
) -> Answer
    requires { (yielded rule.now ≡ true) × (plan.now ≡ plan_of rule.now) × (begun ≡ counter_at rule.now cursor.k)
        × (in_range rule.now cursor.k ≡ true) × (cursor.state ≡ State.Running) × (1 ≤ rule.now.interval) }
    ensures { beside result buffer.new ≡ run_of rule.now cursor buffer.old m }
{
    let shape = plan.shape;
    let freq = shape.freq;
    let mut counter = begun;
    let mut held = held_at(cursor);
    let mut tried = false;
    let mut opened = none_open(shape);
    let first = days_of(freq, counter.number);
    let mut info = rebuild(shape.asked, shape.inyear, year_at(first.from), rule);
    loop {
        let span = days_of(freq, counter.number);
        if !covers(info.year, span.from) {
            info = rebuild(shape.asked, shape.inyear, year_at(span.from), rule);
            continue;
        }
        open_period(plan, span, counter.tick, rule, &info, &mut opened);
        if !is_taken(tried, plan, span, counter.tick, &opened, cursor) {
            return refused(Fault::Cursor, cursor);
        }
        tried = true;
        let walked = walk_period(plan, &opened, held, buffer);
        held = walked.held;
        if let Some(answer) = settle(walked, buffer.len(), m) {
            return answer;
        }
        let passes = 0 < opened.period.frame.days;
        match increment(freq, plan.interval, counter, passes, &plan.clock) {
            Ok(next) => {
                counter = next;
                held = moved_to(next.k, held);
            }
            Err(cause) => return ended(cause, held),
        }
    }
}

// The run of a record, from a cursor, with a buffer and a budget of moves.
pub fn run(rule: &Rule, cursor: Cursor, buffer: &mut [u64], m: u32) -> Answer
    ensures { beside result buffer.new ≡ run_of rule.now cursor buffer.old m }
{
    if !is_record(rule) {
        return refused(Fault::Record, cursor);
    }
    let state = cursor.state;
    match state {
        State::Ended(_) => return answer(Stop::Ended, state, held_at(cursor)),
        State::Running => {}
    }
    match counter_at(rule.freq, rule.interval, rule.wkst, rule.start, cursor.k) {
        Ok(counter) => run_on(rule, &plan_of(rule), counter, cursor, buffer, m),
        Err(_) => refused(Fault::Cursor, cursor),
    }
}
