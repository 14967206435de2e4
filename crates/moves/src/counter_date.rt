// The increments of a counter.
ghost use Rattle.std.specs.Prelude.{◌≡◌, true, false, ◌+◌, ◌-◌, ◌*◌, ◌/◌, ◌%◌, ◌<◌, ◌≤◌};
ghost use Rattle.rule.specs.Filling.{is_below};
ghost use Rattle.rule.specs.Moves.{ticks};
ghost use Rattle.periods.specs.Counters.{step_of, limit_of, below};
ghost use Rattle.ticks.specs.Ticks.{tick_on, first_tick};
ghost use Rattle.moves.specs.Increments.{ahead, skipped, arrive, fits, incremented};

use calendar::utils::RANGE_END;
use machine::Cause;
use periods::counter_date::{Counter, in_range, limit_of, step_of};
use rule::rrule::Frequency;
use ticks::counter_date::find_tick;

// Whether a counter may be that of a period in range, where numbers stay below a limit and a day has so many periods.
fn can_move(interval: u64, counter: Counter, limit: u64, perday: u64) -> bool
    ensures { result ≡ fits limit perday interval counter }
{
    (0 < interval)
        & (counter.k <= 1099511627776)
        & (counter.number < limit)
        & (counter.tick < perday)
}

// Down to DAILY: the next period.
fn next_period(counter: Counter, step: u64, limit: u64) -> Result<Counter, Cause>
    requires { (counter.k ≤ 1099511627776) × (counter.number ≤ 3652059) × (counter.tick ≡ 0) × (step ≤ 458745) }
    ensures { result ≡ below limit (ahead 1 step counter 1) }
{
    in_range(
        Counter {
            k: counter.k + 1,
            number: counter.number + step,
            tick: 0,
        },
        limit,
    )
}

// How many periods a day has, and the step from one that counts to the next, below DAILY.
// No invariant: each function asks for the bounds that its own sums need, and next_tick has perday exactly (`ticks freq`).
#[derive(Clone, Copy)]
struct Grid {
    perday: u64,
    step: u64,
}

// How many more periods a day has.
#[tactic(auto, unfolding(crate::specs::Increments::skipped))]
fn left_of_day(grid: Grid, tick: u64) -> u64
    requires { (tick < grid.perday) × (1 ≤ grid.step) }
    ensures { result ≡ skipped grid.perday grid.step tick false }
{
    (grid.perday - 1 - tick) / grid.step
}

// Where the search sets off: at the period itself, or at the last period of its day where that doesn't pass.
fn set_off(grid: Grid, counter: Counter, passes: bool) -> Counter
    requires { (counter.k ≤ 1099511627776) × (counter.tick < grid.perday) × (grid.perday ≤ 86400) × (1 ≤ grid.step) }
    ensures { result ≡ ahead grid.perday grid.step counter (skipped grid.perday grid.step counter.tick passes) }
{
    if passes {
        return counter;
    }
    let left = left_of_day(grid, counter.tick);
    Counter {
        k: counter.k + left,
        tick: counter.tick + left * grid.step,
        ..counter
    }
}

// How many midnights n periods lead past. Most moves lead past none, and cost no division.
fn midnights(grid: Grid, tick: u64, n: u64) -> u64
    requires { (tick < grid.perday) × (grid.perday ≤ 86400) × (grid.step ≤ 65535) × (n ≤ 86400) }
    ensures { result ≡ (tick + n * grid.step) / grid.perday }
{
    let sum = tick + n * grid.step;
    if sum < grid.perday {
        return 0;
    }
    sum / grid.perday
}

// The counter n periods on, whose tick is known: the days that they lead past are counted at once.
fn counter_ahead(grid: Grid, from: Counter, n: u64, tick: u64) -> Counter
    requires k_bound { (from.k ≤ 1099511714176) × (from.number ≤ 3652059) × (from.tick < grid.perday) }
    requires perday_bound { (grid.perday ≤ 86400) × (grid.step ≤ 65535) × (n ≤ 86400) × (tick ≡ tick_on grid.perday grid.step from.tick n) }
    ensures { result ≡ ahead grid.perday grid.step from n }
{
    Counter {
        k: from.k + n,
        number: from.number + midnights(grid, from.tick, n),
        tick,
    }
}

// Below DAILY: the first later period whose tick passes.
fn next_tick(
    freq: Frequency,
    grid: Grid,
    from: Counter,
    clock: &[bool; 144],
) -> Result<Counter, Cause>
    requires perday_value { (grid.perday ≡ ticks freq) × (limit_of freq ≡ 3652059) × (grid.step ≤ 65535) }
    requires k_bound { (from.k ≤ 1099511714176) × (from.number ≤ 3652059) × (from.tick < grid.perday) }
    ensures { result ≡ arrive freq grid.step from (first_tick freq grid.step from.tick clock.now grid.perday 1) }
{
    match find_tick(freq, grid.step, from.tick, clock) {
        Some(hit) => in_range(counter_ahead(grid, from, hit.periods, hit.tick), RANGE_END),
        None => Err(Cause::NoTick),
    }
}

// Below DAILY, on a frequency's grid. It is compiled into each arm of `increment`, where perday is a number that the compiler knows.
#[inline(always)]
fn increment_on(
    freq: Frequency,
    grid: Grid,
    counter: Counter,
    passes: bool,
    clock: &[bool; 144],
) -> Result<Counter, Cause>
    requires grid_of { (grid.perday ≡ ticks freq) × (grid.step ≤ 65535) }
    requires fine { (is_below Frequency.Daily freq ≡ true) × (limit_of freq ≡ 3652059) × (step_of freq grid.step ≡ grid.step) }
    ensures { result ≡ incremented freq grid.step counter passes clock.now }
{
    if !can_move(grid.step, counter, RANGE_END, grid.perday) {
        return Err(Cause::Range);
    }
    let from = set_off(grid, counter, passes);
    next_tick(freq, grid, from, clock)
}

// The move from a period, whose day passes or not; the clock has the flags of the hours, minutes and seconds that pass, in a row.
pub fn increment(
    freq: Frequency,
    interval: u16,
    counter: Counter,
    passes: bool,
    clock: &[bool; 144],
) -> Result<Counter, Cause>
    ensures { result ≡ incremented freq interval counter passes clock.now }
{
    let step = interval as u64;
    match freq {
        Frequency::Yearly | Frequency::Monthly | Frequency::Weekly | Frequency::Daily => {
            let limit = limit_of(freq);
            if !can_move(step, counter, limit, 1) {
                return Err(Cause::Range);
            }
            next_period(counter, step_of(freq, interval), limit)
        }
        Frequency::Hourly => increment_on(freq, Grid { perday: 24, step }, counter, passes, clock),
        Frequency::Minutely => {
            increment_on(freq, Grid { perday: 1440, step }, counter, passes, clock)
        }
        Frequency::Secondly => {
            increment_on(
                freq,
                Grid {
                    perday: 86400,
                    step,
                },
                counter,
                passes,
                clock,
            )
        }
    }
}
