// One run's cursor and answer. What a run does is said in specs/, over any periods and any moves.
#![tactic(auto)]

// Why a cursor is ended, each cause with its number at the edge to C.
#[derive(Clone, Copy, PartialEq, Eq)]
pub enum Cause {
    Count = 1,
    Interval = 2,
    Until = 3,
    NoTick = 4,
    Range = 5,
}

// No Option<Cause>: the design names this form (docs/DECISIONS.md, "The run"), and Running and Ended are the words of the theorems in specs/.
#[derive(Clone, Copy, PartialEq, Eq)]
pub enum State {
    Running,
    Ended(Cause),
}

// What a run refuses: the record, or the cursor. Each with its number.
#[derive(Clone, Copy, PartialEq, Eq)]
pub enum Fault {
    Record = 20,
    Cursor = 21,
}

// Why a call has stopped. Refused is a kind and no Err: what a refused run leaves is promised with its answer, `refused_answer`.
#[derive(Clone, Copy)]
pub enum Stop {
    Ended,
    More,
    Limited,
    Refused(Fault),
}

// The period k, its kept candidates already passed, and the number handed out in all.
#[derive(Clone, Copy)]
pub struct Cursor {
    pub state: State,
    pub k: u64,
    pub place: u32,
    pub number: u64,
}

// The moves made and the count handed out are those of this call.
#[derive(Clone, Copy)]
pub struct Answer {
    pub stop: Stop,
    pub cursor: Cursor,
    pub moves: u32,
    pub handed: usize,
}
