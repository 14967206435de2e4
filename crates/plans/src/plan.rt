// What a call needs of its rule, made once.
ghost use Rattle.std.specs.Prelude.{◌≡◌};
ghost use Rattle.plans.specs.Plans.{second_in, until_in, plan_in};

use basics::lists::is_empty;
use calendar::utils::{EPOCH, LAST_INSTANT};
use clocks::iterinfo::{get_clock, get_timeset};
use rule::rrule::{Frequency, Rule};
use times::iterinfo::Counts;
use walks::rrule_iter::Bounds;
use years::lists::{Asked, asked_lists};

// What the opening of a period asks of a rule, in small: frequency and week start, which day lists there are, whether BYDAY's nth
// entries count in the year, whether there are positions, and how many hours, minutes and seconds pass.
#[derive(Clone, Copy)]
pub struct Shape {
    pub freq: Frequency,
    pub wkst: u8,
    pub asked: Asked,
    pub inyear: bool,
    pub positioned: bool,
    pub counts: Counts,
}

// That and INTERVAL; the hours, minutes and seconds that pass, as flags and as short lists; and the bounds.
// The short lists' counts stand in the shape: no heap.
#[derive(Clone, Copy)]
pub struct Plan {
    pub shape: Shape,
    pub interval: u16,
    pub clock: [bool; 144],
    pub lists: [u8; 144],
    pub bounds: Bounds,
}

// An instant as a second; 0 where it is out of range.
// No Option: the clause `second_in` has a second for every instant, and no good record has one out of range.
fn second_in(instant: u64) -> u64
    ensures { result ≡ second_in instant }
{
    if LAST_INSTANT < instant {
        return 0;
    }
    instant + EPOCH
}

// UNTIL as a second.
fn until_in(until: Option<u64>) -> Option<u64>
    ensures { result ≡ until_in until }
{
    until.map(second_in)
}

pub fn plan_of(rule: &Rule) -> Plan
    ensures { result ≡ plan_in rule.now }
{
    let bounds = Bounds {
        start: second_in(rule.start),
        until: until_in(rule.until),
        count: rule.count,
    };
    let clock = get_clock(&rule.byhour, &rule.byminute, &rule.bysecond);
    let times = get_timeset(&clock);
    let asked = asked_lists(rule);
    let lists = times.lists;
    let shape = Shape {
        freq: rule.freq,
        wkst: rule.wkst,
        asked,
        inyear: (rule.freq == Frequency::Yearly) & !asked.month,
        positioned: !is_empty(&rule.bysetpos),
        counts: times.counts,
    };
    Plan {
        shape,
        interval: rule.interval,
        clock,
        lists,
        bounds,
    }
}
