// The walk over the candidates of a period: each is passed, and handed out if it is not before the start.
ghost use Rattle.std.specs.Prelude.{◌≡◌};
ghost use Rattle.walks.specs.Walks.{walked_by};
ghost use Rattle.crossing.specs.Crossing.{days_walk};

use calendar::utils::EPOCH;
use passing::rrule_iter::{is_late, is_reached, is_ready};
use times::iterinfo::quotient;
use walks::rrule_iter::{Bounds, Candidates, Held, Walked, Why, is_framed};

// The walk over the days and their times, from the place on: each candidate is passed, and handed out if it is not before the start. A full
// buffer, UNTIL and COUNT leave it from inside. Where a sum could wrap, it does nothing.
// The nest of loops is named by the design. walk_places has the same steps: as a function they miss a bar of speed (docs/DECISIONS.md, "The run").
// By number, as in walk_places. Bounds and held stand apart: the bounds stay, and what is held changes; the buffer and its count are C's.
pub fn walk_days(candidates: &Candidates, bounds: Bounds, held: Held, buffer: &mut [u64]) -> Walked
    ensures walked { walked_by result buffer.new
        ≡ days_walk candidates.now.frame bounds held candidates.now.days.now candidates.now.lists.now buffer.old }
    ensures state { result.held.cursor.state ≡ held.cursor.state }
{
    let frame = candidates.frame;
    let mut why = Why::Through;
    let mut at = held;
    if !(is_framed(frame) & is_ready(bounds, held, buffer.len())) {
        return Walked { why, held: at };
    }
    if frame.times == 0 {
        return Walked { why, held: at };
    }
    let first_day = quotient(at.cursor.place, frame.times);
    let mut from = at.cursor.place - first_day * frame.times;
    'days: for day in first_day as usize..frame.days {
        for time in from..frame.times {
            let slot = at.handed;
            if slot == buffer.len() {
                why = Why::Full;
                break 'days;
            }
            let second = candidates.second_on(frame.first as u32, day, time);
            if is_late(bounds, second) {
                why = Why::Until;
                break 'days;
            }
            let place = at.cursor.place + 1;
            at.cursor.place = place;
            if second < bounds.start {
                continue;
            }
            buffer[slot] = second - EPOCH;
            let number = at.cursor.number + 1;
            at.cursor.number = number;
            at.handed += 1;
            if is_reached(bounds, at.cursor.number) {
                why = Why::Count;
                break 'days;
            }
        }
        from = 0;
    }
    Walked { why, held: at }
}
