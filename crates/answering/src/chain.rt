// A chain of calls, each from the cursor that the one before left.
use crate::stop::ShownStop;
use listing::rrule_iter;
use machine::{Answer, Cursor, Stop};
use output::Out;
use rule::rrule::Rule;
use shown::ShownCursor;
use std::fmt;

// How a chain is cut: the room and the budget of each call, how many calls there are at most, and how many instants. Where it is in turns,
// 0 and 1 in turn stand for a room or a budget of 0.
#[derive(Clone, Copy)]
pub(crate) struct Cut {
    pub room: u32,
    pub moves: u32,
    pub calls: u32,
    pub most: u64,
    pub turns: bool,
}

impl Cut {
    fn room_at(self, turn: u32, handed: u64) -> u64 {
        let left = self.most.saturating_sub(handed);
        u64::from(self.in_turn(self.room, turn)).min(left)
    }

    fn budget_at(self, turn: u32) -> u32 {
        self.in_turn(self.moves, turn)
    }

    fn in_turn(self, number: u32, turn: u32) -> u32 {
        if self.turns && number == 0 {
            turn % 2
        } else {
            number
        }
    }
}

// What a chain has come to: how its last call stopped, the cursor, the sums of moves and handed out, and whether the rest of the buffer
// was kept.
#[derive(Clone, Copy)]
pub(crate) struct Chain {
    pub stop: Stop,
    pub cursor: Cursor,
    pub moves: u64,
    pub handed: u64,
    pub is_kept: bool,
}

impl Chain {
    fn from_cursor(cursor: Cursor) -> Self {
        Chain {
            stop: Stop::More,
            cursor,
            moves: 0,
            handed: 0,
            is_kept: true,
        }
    }

    // Only behind More and Limited another call follows.
    fn is_over(self) -> bool {
        match self.stop {
            Stop::More => false,
            Stop::Limited => false,
            Stop::Ended => true,
            Stop::Refused(_) => true,
        }
    }

    fn call(self, rule: &Rule, budget: u32, buffer: &mut [u64], out: &mut Out) -> Self {
        fill(buffer);
        let answer = rrule_iter::run(rule, self.cursor, buffer, budget);
        put_instants(buffer, answer.handed, out);
        self.with(answer, is_kept(buffer, answer.handed))
    }

    fn with(self, answer: Answer, is_kept: bool) -> Self {
        Chain {
            stop: answer.stop,
            cursor: answer.cursor,
            moves: self.moves.wrapping_add(u64::from(answer.moves)),
            handed: self.handed.wrapping_add(answer.handed as u64),
            is_kept: self.is_kept && is_kept,
        }
    }
}

impl fmt::Display for Chain {
    fn fmt<W: fmt::Write>(&self, f: &mut fmt::Formatter<W>) -> fmt::Result {
        let rest = if self.is_kept { "kept" } else { "changed" };
        write!(f, " moves={} handed={}", self.moves, self.handed)?;
        write!(f, " {} rest={rest}", ShownCursor(self.cursor))
    }
}

// Makes the calls, and writes what they hand out and how they end. Of a refused run the rest is written where the answers are known.
// Six parameters: no contract has a fact of them, and the two callers give each a cut, a buffer and an `out` of their own.
pub(crate) fn run(
    rule: &Rule,
    from: Cursor,
    cut: Cut,
    known: bool,
    buffer: &mut [u64],
    out: &mut Out,
) -> Chain {
    let last = make_calls(rule, from, cut, buffer, out);
    out.put(ShownStop(last.stop));
    if known || !matches!(last.stop, Stop::Refused(_)) {
        out.put(last);
    }
    last
}

// Each call has the part of the buffer that its room asks for.
fn make_calls(rule: &Rule, from: Cursor, cut: Cut, buffer: &mut [u64], out: &mut Out) -> Chain {
    let mut chain = Chain::from_cursor(from);
    for turn in 0..cut.calls {
        let room = room_in(buffer, cut.room_at(turn, chain.handed));
        chain = chain.call(rule, cut.budget_at(turn), room, out);
        if chain.is_over() || cut.most <= chain.handed {
            break;
        }
    }
    chain
}

fn room_in(buffer: &mut [u64], room: u64) -> &mut [u64] {
    let end = buffer.len().min(room as usize);
    &mut buffer[..end]
}

// What slot i holds before a call.
fn filler(i: usize) -> u64 {
    (i64::MAX as u64).wrapping_sub(i as u64)
}

fn fill(buffer: &mut [u64]) {
    for (i, slot) in buffer.iter_mut().enumerate() {
        *slot = filler(i);
    }
}

// Whether the slots past those handed out hold what they held.
fn is_kept(buffer: &[u64], handed: usize) -> bool {
    handed <= buffer.len()
        && buffer
            .iter()
            .enumerate()
            .skip(handed)
            .all(|(i, slot)| *slot == filler(i))
}

fn put_instants(buffer: &[u64], handed: usize, out: &mut Out) {
    for instant in buffer.iter().take(handed) {
        out.put(format_args!("{instant} "));
    }
}
