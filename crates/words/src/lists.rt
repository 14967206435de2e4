// The lists of a line: numbers joined by commas, and BYDAY's pairs of numbers.
use crate::manner::Manner;
use crate::ranges;
use crate::words::put;
use arrayvec::ArrayVec;

pub type List = ArrayVec<i16, 1024>;

// BYDAY's entries n:w. Where halves may be missing, the two lists can differ in length.
#[derive(Drop)]
pub struct Pairs {
    pub nths: List,
    pub weekdays: List,
}

// The lists that a line has.
#[derive(Default, Drop)]
pub struct Lists {
    pub bymonth: Option<List>,
    pub bymonthday: Option<List>,
    pub byyearday: Option<List>,
    pub byweekno: Option<List>,
    pub byday: Option<Pairs>,
    pub byhour: Option<List>,
    pub byminute: Option<List>,
    pub bysecond: Option<List>,
    pub bysetpos: Option<List>,
}

impl Lists {
    // Takes the word of a list, if it can be taken.
    pub(crate) fn take(&mut self, manner: Manner, key: &[u8], text: &[u8]) -> Option<()> {
        match key {
            b"bymonth" => put(&mut self.bymonth, manner.list(ranges::MONTHS, text)),
            b"bymonthday" => put(&mut self.bymonthday, manner.list(ranges::MONTHDAYS, text)),
            b"byyearday" => put(&mut self.byyearday, manner.list(ranges::YEARDAYS, text)),
            b"byweekno" => put(&mut self.byweekno, manner.list(ranges::WEEKNOS, text)),
            b"byday" => put(&mut self.byday, manner.pairs(text)),
            b"byhour" => put(&mut self.byhour, manner.list(ranges::HOURS, text)),
            b"byminute" => put(&mut self.byminute, manner.list(ranges::SIXTY, text)),
            b"bysecond" => put(&mut self.bysecond, manner.list(ranges::SIXTY, text)),
            b"bysetpos" => put(&mut self.bysetpos, manner.list(ranges::POSITIONS, text)),
            _ => None,
        }
    }
}
