// A cursor as bytes, the version first.
ghost use Rattle.std.specs.Prelude.{◌≡◌};
ghost use Rattle.edge.specs.Layout.{state_number, state_of, cursor_length, encode_cursor, cursor_in, is_cursor_bytes, decode_cursor};
ghost use Rattle.cursor_layout.specs.Lengths.{of_length, put, put_to};

use crate::numbers::{put_1, put_4, put_8, read_4, read_8};
use machine::{Cause, Cursor, State};

const CURSOR_LENGTH: usize = 22;

const CURSOR_VERSION: u8 = 2;

// The number of the cause, or 0 where the cursor is running.
// No `as` and no From: an enum that holds a value has no number, and this function is promised to panel.
pub fn state_number(state: State) -> u8
    ensures { result ≡ state_number state }
{
    match state {
        State::Running => 0,
        State::Ended(cause) => cause as u8,
    }
}

// No TryFrom, which can fail: the clause `state_of` has a state for every number, and is_cursor_bytes refuses one above 5.
fn state_of(number: u8) -> State
    ensures { result ≡ state_of number }
{
    match number {
        0 => State::Running,
        1 => State::Ended(Cause::Count),
        2 => State::Ended(Cause::Interval),
        3 => State::Ended(Cause::Until),
        4 => State::Ended(Cause::NoTick),
        _ => State::Ended(Cause::Range),
    }
}

pub fn is_cursor_bytes(bytes: &[u8]) -> bool
    ensures { result ≡ is_cursor_bytes bytes.now }
{
    bytes.len() == CURSOR_LENGTH && (bytes[0] == CURSOR_VERSION) & (bytes[1] <= 5)
}

// The cursor that bytes hold; those of another length are read as if there were none.
pub fn cursor_in(bytes: &[u8]) -> Cursor
    ensures { result ≡ cursor_in (of_length cursor_length bytes.now) }
{
    if bytes.len() != CURSOR_LENGTH {
        return Cursor {
            state: State::Running,
            k: 0,
            place: 0,
            number: 0,
        };
    }
    Cursor {
        state: state_of(bytes[1]),
        k: read_8(bytes, 2),
        place: read_4(bytes, 10) as u32,
        number: read_8(bytes, 14),
    }
}

// The cursor that bytes hold, if they hold one.
// An `if` and no `then`: its closure would have to carry the fact of the length.
pub fn decode_cursor(bytes: &[u8]) -> Option<Cursor>
    ensures { result ≡ decode_cursor bytes.now }
{
    if is_cursor_bytes(bytes) {
        Some(cursor_in(bytes))
    } else {
        None
    }
}

// Writes a cursor, and answers whether the bytes have its length; others are left as they were.
// A bool and no Result: there is one refusal, and the clause `put` has a flag.
pub fn put_cursor(cursor: Cursor, bytes: &mut [u8]) -> bool
    ensures { put result bytes.new ≡ put_to cursor_length (encode_cursor cursor) bytes.old }
{
    if bytes.len() != CURSOR_LENGTH {
        return false;
    }
    put_1(bytes, 0, CURSOR_VERSION);
    put_1(bytes, 1, state_number(cursor.state));
    put_8(bytes, 2, cursor.k);
    put_4(bytes, 10, cursor.place);
    put_8(bytes, 14, cursor.number);
    true
}
