// The walk over a period that is open.
ghost use Rattle.std.specs.Prelude.{◌≡◌, ◌-◌};
ghost use Rattle.machine.specs.declared.State.{State};
ghost use Rattle.machine.specs.Compute.{walk};
ghost use Rattle.walks.specs.Walks.{Framed, Timely, given_by, now_of, walked_by, tabled};
ghost use Rattle.passing.specs.Passing.{Ready};
ghost use Rattle.crossing.specs.Crossing.{days_walk};
ghost use Rattle.opening.specs.Opening.{second_kept};
ghost use Rattle.opened.specs.Opened.{Sound};

use chosen::rrule_iter::walk_places;
use crossing::rrule_iter::walk_days;
use opening::period::OpenPeriod;
use passing::rrule_iter::pass_days;
use plans::plan::Plan;
use walks::rrule_iter::{Bounds, Candidates, Held, Walked, Why};

// The walk over all candidates, from the place on: over days and times, whole days before the start at one go.
// Bounds, held and buffer stand apart as in walk_days.
fn walk_all(candidates: &Candidates, bounds: Bounds, held: Held, buffer: &mut [u64]) -> Walked
    requires { Framed candidates.now.frame × Timely candidates.now.frame candidates.now.lists.now × Ready bounds held buffer.old }
    ensures { walked_by result buffer.new
        ≡ days_walk candidates.now.frame bounds held candidates.now.days.now candidates.now.lists.now buffer.old }
{
    // nothing is before the start where something was handed out already
    let none = (0 < held.cursor.number) | (held.handed == buffer.len());
    let passed = pass_days(none, candidates.frame, bounds, held, candidates.days);
    walk_days(candidates, bounds, passed, buffer)
}

// The walk over a period's kept candidates, from the place on.
pub(crate) fn walk_period(
    plan: &Plan,
    opened: &OpenPeriod,
    held: Held,
    buffer: &mut [u64],
) -> Walked
    requires { Sound plan.now.shape.positioned opened.now.period plan.now.lists × Ready plan.now.bounds held buffer.old }
    ensures { walked_by result buffer.new
        ≡ walk (given_by plan.now.bounds)
        (tabled (second_kept plan.now.shape.positioned opened.now.period.frame opened.now.days plan.now.lists opened.now.places)
        held.cursor.place (opened.now.period.kept - held.cursor.place)) (now_of State.Running held buffer.old) }
{
    let kept = opened.period.kept;
    if kept == 0 {
        return Walked {
            why: Why::Through,
            held,
        };
    }
    let candidates = Candidates {
        frame: opened.period.frame,
        days: &opened.days,
        lists: &plan.lists,
    };
    if !plan.shape.positioned {
        return walk_all(&candidates, plan.bounds, held, buffer);
    }
    walk_places(
        &candidates,
        plan.bounds,
        held,
        kept as usize,
        &opened.places,
        buffer,
    )
}
