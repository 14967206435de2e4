// The words of a line, each taken at most once.
use crate::cursors::cursor_in;
use crate::lists::Lists;
use crate::manner::Manner;
use crate::numbers::{flag, read, read_between};
use crate::text::split_once;
use machine::Cursor;

// The words that were taken so far.
#[derive(Default, Drop)]
pub(crate) struct Words {
    manner: Manner,
    pub freq: Option<u8>,
    pub start: Option<u64>,
    pub interval: Option<u16>,
    pub count: Option<u32>,
    pub until: Option<u64>,
    pub wkst: Option<u8>,
    pub lists: Lists,
    pub record: Option<bool>,
    pub show: Option<bool>,
    pub cursor: Option<Cursor>,
    pub room: Option<u32>,
    pub moves: Option<u32>,
    pub calls: Option<u32>,
}

impl Words {
    pub(crate) fn none(manner: Manner) -> Self {
        Words {
            manner,
            ..Words::default()
        }
    }

    // Takes a word, if it can be taken.
    pub(crate) fn take(&mut self, word: &[u8]) -> Option<()> {
        let (key, value) = split_once(word, b'=')?;
        if key.starts_with(b"by") {
            return self.lists.take(self.manner, key, value);
        }
        match key {
            b"freq" => put(&mut self.freq, self.manner.frequency(value)),
            b"start" => put(&mut self.start, read(value)),
            b"interval" => put(&mut self.interval, read(value)),
            b"count" => put(&mut self.count, read(value)),
            b"until" => put(&mut self.until, read(value)),
            b"wkst" => put(&mut self.wkst, read(value)),
            _ => self.take_call(key, value),
        }
    }

    // Words that say how the answer is wanted.
    fn take_call(&mut self, key: &[u8], value: &[u8]) -> Option<()> {
        match key {
            b"record" => put(&mut self.record, flag(value)),
            b"show" if self.manner.known => put(&mut self.show, flag(value)),
            b"cursor" => put(&mut self.cursor, cursor_in(value)),
            b"room" => put(&mut self.room, read_between(0, 4096, value)),
            b"moves" => put(&mut self.moves, read(value)),
            b"calls" => put(&mut self.calls, read_between(1, 65535, value)),
            _ => None,
        }
    }
}

// A key stands at most once.
pub(crate) fn put<T: Drop>(field: &mut Option<T>, value: Option<T>) -> Option<()> {
    if field.is_some() {
        return None;
    }
    *field = Some(value?);
    Some(())
}
