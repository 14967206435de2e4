// A period's candidates: each is told by its number, as a second.
ghost use Rattle.std.specs.Prelude.{◌≡◌, ◌+◌, ◌*◌, ◌%◌, ◌<◌, ◌^◌, get_or};
ghost use Rattle.times.specs.TimeSets.{time_at};
ghost use Rattle.walks.specs.Walks.{in_year, is_framed, second_on, second_at, candidate_at};

use machine::Cursor;
use rule::rrule::Frequency;
use times::iterinfo::{Counts, quotient, time_at};

// Why a walk has stopped; Through where no candidate remains. A kind and no None: `walked_by` and `settled` say of each of the four what follows.
#[derive(Clone, Copy)]
pub enum Why {
    Full,
    Until,
    Count,
    Through,
}

// What a call holds between two turns: the cursor, the moves made and the count handed out in this call.
// The count stands beside the buffer, which is C's (yomaveludge_run).
#[derive(Clone, Copy)]
pub struct Held {
    pub cursor: Cursor,
    pub moves: u32,
    pub handed: usize,
}

// What a walk comes to: why it has stopped, and what the call then holds.
#[derive(Clone, Copy)]
pub struct Walked {
    pub why: Why,
    pub held: Held,
}

// The start and UNTIL, as seconds since 0001-01-01, and COUNT.
#[derive(Clone, Copy)]
pub struct Bounds {
    pub start: u64,
    pub until: Option<u64>,
    pub count: Option<u32>,
}

// What a period's candidates are told by: their days are places of the year that begins on the day first, their times are told by number.
#[derive(Clone, Copy)]
pub struct Frame {
    pub freq: Frequency,
    pub begins: u32,
    pub counts: Counts,
    pub first: u64,
    pub days: usize,
    pub times: u32,
}

// The first second of a day, which is told by its place in the list of days; past that list, of the year's first day.
pub fn midnight_of(first: u32, days: &[u16], day: usize) -> u64
    ensures is { result ≡ (first + get_or days.now day 0) * 86400 }
    ensures small { result < 2 ^ 50 }
{
    let place = days.get(day).copied().unwrap_or(0);
    (first as u64 + place as u64) * 86400
}

// The time of this number, in seconds of its day.
fn time_of(frame: Frame, lists: &[u8; 144], time: u32) -> u64
    ensures is { result ≡ time_at frame.freq frame.begins frame.counts lists.now time }
    ensures small { result < 2 ^ 40 }
{
    time_at(frame.freq, frame.begins, frame.counts, lists, time)
}

// Whether a frame is small enough that no sum wraps, as every period's is.
#[tactic(auto, unfolding(crate::specs::Walks::is_framed))]
pub fn is_framed(frame: Frame) -> bool
    ensures { result ≡ is_framed frame }
{
    (frame.days <= 373) & ((frame.times < 131072) & (frame.first < 4194304))
}

// A period's candidates: their frame, the places of their days in the year, and the hours, minutes and seconds of their times, in a row.
// Whole arrays, with their counts in the frame: no heap, and a period that holds the arrays can't hold slices of them.
#[derive(Clone, Copy)]
pub struct Candidates<'a> {
    pub frame: Frame,
    pub days: &'a [u16; 373],
    pub lists: &'a [u8; 144],
}

impl<'a> Candidates<'a> {
    // The time of this number on the day of this number, as a second. The year's first day is told in 32 bits, so that no sum wraps.
    pub fn second_on(&self, first: u32, day: usize, time: u32) -> u64
        ensures { result ≡ second_on (in_year self.now.frame first) self.now.days.now self.now.lists.now day time }
    {
        let frame = self.frame;
        let days = self.days;
        let lists = self.lists;
        midnight_of(first, days, day) + time_of(frame, lists, time)
    }

    // The candidate of this number, as a second. Of the year's first day 32 bits are read, so that no sum wraps.
    pub fn second_at(&self, number: u32) -> u64
        ensures { result ≡ second_at (in_year self.now.frame (self.now.frame.first % 4294967296)) self.now.days.now self.now.lists.now number }
    {
        let first = (self.frame.first % 4294967296) as u32;
        let day = quotient(number, self.frame.times);
        self.second_on(first, day as usize, number - day * self.frame.times)
    }

    // The candidate of this number, as a second; 0 where a sum could wrap.
    // No Option: the clause `candidate_at` has a second for every number.
    pub fn candidate_at(&self, number: u32) -> u64
        ensures { result ≡ candidate_at self.now.frame self.now.days.now self.now.lists.now number }
    {
        if !is_framed(self.frame) {
            return 0;
        }
        self.second_at(number)
    }
}
