// How a verdict, a cursor and a record are written.
#![tactic(auto)]

mod record;

ghost use Rattle.std.specs.Prelude.{◌≡◌, ◌++◌, codes, decimal, Some};
ghost use Rattle.rule.specs.Refusals.{refusal_number};
ghost use Rattle.shown.specs.Texts.{state_text, cause_text, cursor_text};

use basics::rrule::refusal_number;
use machine::{Cause, Cursor, State};
pub use record::ShownRecord;
use rule::rrule::Refusal;
use std::fmt;

// A refusal, by its number.
#[derive(Clone, Copy)]
pub struct ShownRefusal(pub Refusal);

impl fmt::Display for ShownRefusal {
    ghost output = { λ shown. Some (codes "refused " ++ decimal (refusal_number shown.0)) };

    fn fmt<W: fmt::Write>(&self, f: &mut fmt::Formatter<W>) -> fmt::Result {
        let number = refusal_number(self.0);
        write!(f, "refused {number}")
    }
}

// A cursor, in the words of a line.
#[derive(Clone, Copy)]
pub struct ShownCursor(pub Cursor);

impl fmt::Display for ShownCursor {
    ghost output = { λ shown. Some (cursor_text shown.0) };

    fn fmt<W: fmt::Write>(&self, f: &mut fmt::Formatter<W>) -> fmt::Result {
        let cursor = self.0;
        let state = state_word(cursor.state);
        write!(
            f,
            "cursor={state},{},{},{}",
            cursor.k, cursor.place, cursor.number
        )
    }
}

// The word of a state.
// A match here and below: a Display would be the same match, and the clauses promise the word itself, which `ShownCursor` puts into its line.
pub fn state_word(state: State) -> &'static str
    ensures { result.now ≡ state_text state }
{
    match state {
        State::Running => "running",
        State::Ended(cause) => cause_word(cause),
    }
}

fn cause_word(cause: Cause) -> &'static str
    ensures { result.now ≡ cause_text cause }
{
    match cause {
        Cause::Count => "count",
        Cause::Interval => "interval",
        Cause::Until => "until",
        Cause::NoTick => "notick",
        Cause::Range => "range",
    }
}
