// The counter of a period, in and out by value.
ghost use Rattle.std.specs.Prelude.{◌≡◌, ◌+◌, ◌*◌, ◌<◌, ◌≤◌, min};
ghost use Rattle.rule.specs.Days.{week_of};
ghost use Rattle.periods.specs.Counters.{months_before, number_of, step_of, cut, limit_of, below, rule_from, reached_at};

use calendar::utils::{EPOCH, LAST_INSTANT, RANGE_END, year_of_day};
use dates::utils::date_from_ordinal;
use machine::Cause;
use rule::rrule::Frequency;
use ticks::counter_date::ticks_of;

// Period k: its number, as its frequency counts, and below DAILY its tick, which is its place in its day.
#[derive(Clone, Copy)]
pub struct Counter {
    pub k: u64,
    pub number: u64,
    pub tick: u64,
}

// The seconds of the years 1 to 9999: a period this many units after another begins after 9999.
const RANGE: u64 = 315537897600;

// The counter of period k where the start is in range and the period begins in it, else Range.
pub fn counter_at(
    freq: Frequency,
    interval: u16,
    wkst: u8,
    start: u64,
    k: u64,
) -> Result<Counter, Cause>
    ensures { result ≡ reached_at (rule_from freq interval wkst start) k }
{
    if LAST_INSTANT < start {
        return Err(Cause::Range);
    }
    let first = number_of(freq, wkst, start + EPOCH);
    let counter = cut_at(freq, k, first + added(k, step_of(freq, interval)));
    in_range(counter, limit_of(freq))
}

// The counter where its number is below the first whose period begins after 9999, else Range.
#[tactic(auto, unfolding(crate::specs::Counters::below))]
pub fn in_range(counter: Counter, limit: u64) -> Result<Counter, Cause>
    ensures { result ≡ below limit counter }
{
    if counter.number < limit {
        Ok(counter)
    } else {
        Err(Cause::Range)
    }
}

// The number of the period that holds a second from 1970 to 9999.
#[tactic(auto, unfolding(crate::specs::Counters::number_of))]
fn number_of(freq: Frequency, wkst: u8, second: u64) -> u64
    requires { (62135596800 ≤ second) × (second < 315537897600) }
    ensures { result ≡ number_of freq wkst second }
{
    match freq {
        Frequency::Yearly => year_of_day((second / 86400) as u32) as u64,
        Frequency::Monthly => month_of((second / 86400) as u32),
        Frequency::Weekly => week_of(wkst, second / 86400),
        Frequency::Daily => second / 86400,
        Frequency::Hourly => second / 3600,
        Frequency::Minutely => second / 60,
        Frequency::Secondly => second,
    }
}

// The months from the year 0 up to that of a day.
fn month_of(day: u32) -> u64
    ensures { result ≡ months_before day }
{
    let date = date_from_ordinal(day);
    12 * (date.year as u64) + (date.month as u64) - 1
}

// The first day of a day's week.
fn week_of(wkst: u8, day: u64) -> u64
    requires { (256 ≤ day) × (day < 3652059) }
    ensures { result ≡ week_of wkst day }
{
    day - (day + 7 - (wkst as u64)) % 7
}

// What INTERVAL adds to the number.
#[tactic(auto, unfolding(crate::specs::Counters::step_of))]
pub fn step_of(freq: Frequency, interval: u16) -> u64
    ensures { result ≡ step_of freq interval }
{
    let units = interval as u64;
    match freq {
        Frequency::Weekly => 7 * units,
        _ => units,
    }
}

// What k steps add to the number; where that is as much as the range has seconds, so much.
fn added(k: u64, step: u64) -> u64
    ensures { result ≡ min (k * step) 315537897600 }
{
    k.saturating_mul(step).min(RANGE)
}

// The counter of period k with this number, cut into day and tick below DAILY.
fn cut_at(freq: Frequency, k: u64, number: u64) -> Counter
    ensures { result ≡ cut freq k number }
{
    let perday = ticks_of(freq);
    Counter {
        k,
        number: number / perday,
        tick: number % perday,
    }
}

// The first number whose period begins after 9999.
#[tactic(auto, unfolding(crate::specs::Counters::limit_of))]
pub fn limit_of(freq: Frequency) -> u64
    ensures { result ≡ limit_of freq }
{
    match freq {
        Frequency::Yearly => 10000,
        Frequency::Monthly => 120000,
        _ => RANGE_END,
    }
}
