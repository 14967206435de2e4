// How the words of a line are read.
use crate::lists::{List, Pairs};
use crate::numbers::read;
use crate::ranges;
use crate::ranges::holds;
use crate::text::split_once;
use rule::rrule::Range;

// Whether the answers of the lines are known, and whether the words of this one are the record itself.
#[derive(Clone, Copy, Default)]
pub(crate) struct Manner {
    pub known: bool,
    pub record: bool,
}

impl Manner {
    // A record's frequency is one of the seven.
    pub(crate) fn frequency(self, text: &[u8]) -> Option<u8> {
        let freq = read(text)?;
        if self.record && 6 < freq {
            return None;
        }
        Some(freq)
    }

    pub(crate) fn list(self, range: Range, text: &[u8]) -> Option<List> {
        let mut list = List::new();
        for entry in text.split(|byte| *byte == b',') {
            list.try_push(self.entry(range, entry)?).ok()?;
        }
        Some(list)
    }

    pub(crate) fn pairs(self, text: &[u8]) -> Option<Pairs> {
        let mut nths = List::new();
        let mut weekdays = List::new();
        for pair in text.split(|byte| *byte == b',') {
            let (nth, weekday) = split_once(pair, b':')?;
            self.put_half(ranges::NTHS, nth, &mut nths)?;
            self.put_half(ranges::WEEKDAYS, weekday, &mut weekdays)?;
        }
        Some(Pairs { nths, weekdays })
    }

    // A half may be missing where the answers are known and the rule is checked.
    fn put_half(self, range: Range, text: &[u8], list: &mut List) -> Option<()> {
        if self.known && !self.record && text.is_empty() {
            return Some(());
        }
        list.try_push(self.entry(range, text)?).ok()
    }

    // A list that is checked takes every i16.
    fn entry(self, range: Range, text: &[u8]) -> Option<i16> {
        let value = read(text)?;
        if self.record && !holds(range, value) {
            return None;
        }
        Some(value)
    }
}
