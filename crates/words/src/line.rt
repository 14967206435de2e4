// A line of words, as `freq=1 byday=-1:4 room=2`.
ghost use Rattle.std.specs.Prelude.{◌≡◌, ◌<◌, ◌++◌, length, codes, decimal, Some, Err};

use crate::lists::Lists;
use crate::manner::Manner;
use crate::numbers::flag;
use crate::words::Words;
use machine::Cursor;
use std::fmt;

// The longest line.
const LONGEST: usize = 65536;

// What a line asks for.
// FREQ and WKST are numbers, as `Unvalidated` takes them: a line may give the check a number that is none.
#[derive(Drop)]
pub struct Line {
    pub freq: u8,
    pub start: u64,
    pub interval: u16,
    pub count: Option<u32>,
    pub until: Option<u64>,
    pub wkst: u8,
    pub lists: Lists,
    // Whether the words are the record itself.
    pub is_record: bool,
    // Whether the record is asked for in place of a run.
    pub is_shown: bool,
    pub cursor: Option<Cursor>,
    // The length of the buffer, the budget of each call, and how many calls there are at most.
    pub room: u32,
    pub moves: u32,
    pub calls: u32,
}

// Where the first word begins that can't be taken.
#[derive(Clone, Copy)]
pub struct BadWord {
    pub place: usize,
}

impl fmt::Display for BadWord {
    ghost output = { λ bad. Some (codes "bad " ++ decimal bad.place) };

    fn fmt<W: fmt::Write>(&self, f: &mut fmt::Formatter<W>) -> fmt::Result {
        let place = self.place;
        write!(f, "bad {place}")
    }
}

// Reads a line. Where a key that it needs is missing, its end counts as the bad word.
pub fn read(text: &[u8], known: bool) -> Result<Line, BadWord>
    ensures { 65536 < length text.now → result ≡ Err (record { place = 65536 }) }
{
    if LONGEST < text.len() {
        return Err(BadWord { place: LONGEST });
    }
    let record = is_record(text);
    let words = take_words(text, Manner { known, record })?;
    line_of(words, record).ok_or(BadWord { place: text.len() })
}

fn take_words(text: &[u8], manner: Manner) -> Result<Words, BadWord> {
    let mut words = Words::none(manner);
    let mut place = 0usize;
    for word in text.split(|byte| *byte == b' ') {
        words.take(word).ok_or(BadWord { place })?;
        place = place.saturating_add(word.len() + 1);
    }
    Ok(words)
}

// Whether a word says that the words are the record itself, wherever it stands, and whatever else is wrong.
fn is_record(text: &[u8]) -> bool {
    let Some(value) = text
        .split(|byte| *byte == b' ')
        .find_map(|word| word.strip_prefix(b"record="))
    else {
        return false;
    };
    let mut entries = value.split(|byte| *byte == b',');
    entries.next().and_then(flag) == Some(true)
}

fn line_of(words: Words, is_record: bool) -> Option<Line> {
    Some(Line {
        freq: words.freq?,
        start: words.start?,
        interval: words.interval.unwrap_or(1),
        count: words.count,
        until: words.until,
        wkst: words.wkst.unwrap_or(0),
        lists: words.lists,
        is_record,
        is_shown: words.show.is_some() && !is_record,
        cursor: words.cursor,
        room: words.room.unwrap_or(20),
        moves: words.moves.unwrap_or(u32::MAX),
        calls: words.calls.unwrap_or(1),
    })
}
