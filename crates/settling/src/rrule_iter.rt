// What becomes of a call after a walk over a period: it stops with its answer, or moves on.
ghost use Rattle.std.specs.Prelude.{◌≡◌};
ghost use Rattle.machine.specs.declared.Stop.{Stop};
ghost use Rattle.machine.specs.declared.State.{State};
ghost use Rattle.settling.specs.Settling.{answer_of, held_of, moved_to, settled};

use machine::{Answer, Cause, Cursor, State, Stop};
use walks::rrule_iter::{Held, Walked, Why};

// The answer of what a call holds.
pub fn answer(stop: Stop, state: State, held: Held) -> Answer
    ensures { result ≡ answer_of stop state held }
{
    Answer {
        stop,
        cursor: Cursor {
            state,
            ..held.cursor
        },
        moves: held.moves,
        handed: held.handed,
    }
}

// The answer of a call that ends, by its cause.
pub fn ended(cause: Cause, held: Held) -> Answer
    ensures { result ≡ answer_of Stop.Ended (State.Ended cause) held }
{
    answer(Stop::Ended, State::Ended(cause), held)
}

// The answer of a call that stops after a walk; none where it moves on. Where no candidate remains it stops with More if the buffer is full, and
// with Limited if m moves are made.
#[tactic(auto, unfolding(crate::specs::Settling::settled))]
pub fn settle(walked: Walked, room: usize, m: u32) -> Option<Answer>
    ensures { result ≡ settled walked room m }
{
    let held = walked.held;
    match walked.why {
        Why::Full => Some(answer(Stop::More, State::Running, held)),
        Why::Until => Some(ended(Cause::Until, held)),
        Why::Count => Some(ended(Cause::Count, held)),
        Why::Through => {
            if held.handed == room {
                Some(answer(Stop::More, State::Running, held))
            } else if held.moves == m {
                Some(answer(Stop::Limited, State::Running, held))
            } else {
                None
            }
        }
    }
}

// What a call holds as it begins.
pub fn held_at(cursor: Cursor) -> Held
    ensures { result ≡ held_of cursor }
{
    Held {
        cursor,
        moves: 0,
        handed: 0,
    }
}

// A move sets the place to zero, and is counted; the largest count that there is stays.
pub fn moved_to(k: u64, held: Held) -> Held
    ensures { result ≡ moved_to k held }
{
    Held {
        cursor: Cursor {
            k,
            place: 0,
            ..held.cursor
        },
        moves: held.moves.saturating_add(1),
        ..held
    }
}
