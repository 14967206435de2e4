// The word of a cursor: STATE,K,PLACE,NUMBER. Behind the state stands a row of three numbers.
use crate::numbers::read;
use crate::rows::number_at;
use crate::text::split_once;
use arrayvec::ArrayVec;
use machine::{Cause, Cursor, State};

pub(crate) fn cursor_in(text: &[u8]) -> Option<Cursor> {
    let (state, numbers) = split_once(text, b',')?;
    let mut row = ArrayVec::<usize, 3>::new();
    for number in numbers.split(|byte| *byte == b',') {
        row.try_push(read(number)?).ok()?;
    }
    if !row.is_full() {
        return None;
    }
    Some(Cursor {
        state: state_of(state)?,
        k: number_at(row.as_slice(), 0) as u64,
        place: u32::try_from(number_at(row.as_slice(), 1)).ok()?,
        number: number_at(row.as_slice(), 2) as u64,
    })
}

// A match: a TryFrom would be the same match, and could only stand in machine, which has no words.
fn state_of(word: &[u8]) -> Option<State> {
    match word {
        b"running" => Some(State::Running),
        b"count" => Some(State::Ended(Cause::Count)),
        b"interval" => Some(State::Ended(Cause::Interval)),
        b"until" => Some(State::Ended(Cause::Until)),
        b"notick" => Some(State::Ended(Cause::NoTick)),
        b"range" => Some(State::Ended(Cause::Range)),
        _ => None,
    }
}
