// What a walk asks of its bounds. And whole days that lie before the start are passed at one go.
ghost use Rattle.std.specs.Prelude.{◌≡◌};
ghost use Rattle.machine.specs.Given.{above, reaches};
ghost use Rattle.rule.specs.Run.{count_of};
ghost use Rattle.walks.specs.Walks.{bound_of};
ghost use Rattle.passing.specs.Passing.{is_ready, is_passed, passed_days};

use calendar::utils::EPOCH;
use times::iterinfo::quotient;
use walks::rrule_iter::{Bounds, Frame, Held, is_framed, midnight_of};

// Whether a second is above UNTIL.
pub fn is_late(bounds: Bounds, second: u64) -> bool
    ensures { result ≡ above (bound_of bounds.until) second }
{
    bounds.until.is_some_and(|last| last < second)
}

// Whether COUNT is reached.
pub fn is_reached(bounds: Bounds, number: u64) -> bool
    ensures { result ≡ reaches (count_of bounds.count) number }
{
    bounds.count.is_some_and(|n| number == n as u64)
}

// Whether a call is ready to walk, with so much room in the buffer.
#[tactic(auto, unfolding(crate::specs::Passing::is_ready))]
pub fn is_ready(bounds: Bounds, held: Held, room: usize) -> bool
    ensures { result ≡ is_ready bounds held room }
{
    (EPOCH <= bounds.start) & ((held.handed <= room) & (held.cursor.number < 9223372036854775808))
}

// Whether a day may be passed at once, by its last second: it is before the start, and not above UNTIL.
fn is_passed(bounds: Bounds, last: u64) -> bool
    ensures { result ≡ is_passed bounds last }
{
    if bounds.start <= last {
        return false;
    }
    !is_late(bounds, last)
}

// Passes the days from the place on that lie before the start, at one go; none where the buffer is full, the place is within a day, or a sum
// could wrap.
// By number: the place may lie past the days, where a slice would ask for a test. No Candidates: it needs no lists of times.
pub fn pass_days(full: bool, frame: Frame, bounds: Bounds, held: Held, days: &[u16; 373]) -> Held
    ensures { result ≡ passed_days full frame bounds held days.now }
{
    let mut at = held;
    if full {
        return at;
    }
    if !is_framed(frame) {
        return at;
    }
    let first_day = quotient(held.cursor.place, frame.times);
    if first_day * frame.times != held.cursor.place {
        return at;
    }
    for day in first_day as usize..frame.days {
        let midnight = midnight_of(frame.first as u32, days, day);
        if !is_passed(bounds, midnight + 86399) {
            break;
        }
        let place = at.cursor.place + frame.times;
        at.cursor.place = place;
    }
    at
}
