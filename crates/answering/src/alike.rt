// Where the answers are known, the same listing is made in chains of calls, for each room and each budget from 0 to 5, and each has to be
// answered alike.
use crate::chain;
use crate::chain::{Chain, Cut};
use machine::{Cursor, Stop};
use output::Out;
use rule::rrule::Rule;

// A listing with more room or more moves is not made again in chains, which would take long.
const MOST_ROOM: u32 = 100;

const MOST_MOVES: u64 = 400;

// A chain of a listing within these bounds has fewer calls.
const MOST_CALLS: u32 = 2000;

// Whether a listing is made in chains too: one that Ended or has More.
pub(crate) fn is_chained(room: u32, last: Chain) -> bool {
    matches!(last.stop, Stop::Ended | Stop::More) && room <= MOST_ROOM && last.moves <= MOST_MOVES
}

// A loop and no `all`: one `out` of 65,536 bytes serves every turn, and a closure would have to change it.
pub(crate) fn are_alike(rule: &Rule, from: Cursor, room: u32, answer: &[u8]) -> bool {
    let mut out = Out::new();
    for both in 0..36 {
        out.waiting.clear();
        chain::run(rule, from, cut_of(both, room), true, &mut [0; 8], &mut out);
        if out.waiting.as_slice() != answer {
            return false;
        }
    }
    true
}

fn cut_of(both: u32, room: u32) -> Cut {
    Cut {
        room: both % 6,
        moves: both / 6,
        calls: MOST_CALLS,
        most: u64::from(room),
        turns: true,
    }
}
