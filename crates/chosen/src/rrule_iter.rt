// The walk over the candidates of a period that positions choose.
ghost use Rattle.std.specs.Prelude.{◌≡◌};
ghost use Rattle.walks.specs.Walks.{walked_by};
ghost use Rattle.chosen.specs.Chosen.{places_walk};

use calendar::utils::EPOCH;
use passing::rrule_iter::{is_late, is_reached, is_ready};
use walks::rrule_iter::{Bounds, Candidates, Held, Walked, Why, is_framed};

// The walk over the kept candidates, where positions choose: their numbers stand in places. No period keeps more than these.
// By number: past the last place there is none, where a slice from the place on would ask for a test. The steps are those of walk_days, see there.
// The numbers' count stands beside them, since there is no heap; bounds, held and buffer stand apart as in walk_days.
pub fn walk_places(
    candidates: &Candidates,
    bounds: Bounds,
    held: Held,
    kept: usize,
    places: &[u32; 732],
    buffer: &mut [u64],
) -> Walked
    ensures walked { walked_by result buffer.new
        ≡ places_walk candidates.now.frame bounds held kept places.now candidates.now.days.now candidates.now.lists.now buffer.old }
    ensures state { result.held.cursor.state ≡ held.cursor.state }
{
    let mut why = Why::Through;
    let mut at = held;
    if !((kept <= 732) & (is_framed(candidates.frame) & is_ready(bounds, held, buffer.len()))) {
        return Walked { why, held: at };
    }
    for i in held.cursor.place as usize..kept {
        let slot = at.handed;
        if slot == buffer.len() {
            why = Why::Full;
            break;
        }
        let second = candidates.second_at(places[i]);
        if is_late(bounds, second) {
            why = Why::Until;
            break;
        }
        let place = at.cursor.place + 1;
        at.cursor.place = place;
        if second < bounds.start {
            continue;
        }
        buffer[slot] = second - EPOCH;
        let number = at.cursor.number + 1;
        at.cursor.number = number;
        at.handed += 1;
        if is_reached(bounds, at.cursor.number) {
            why = Why::Count;
            break;
        }
    }
    Walked { why, held: at }
}
