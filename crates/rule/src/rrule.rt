// The types of a rule. An instant is a count of UTC seconds since 1970-01-01T00:00:00Z.

#[derive(Clone, Copy, PartialEq, Eq, PartialOrd, Ord)]
pub enum Frequency {
    Yearly,
    Monthly,
    Weekly,
    Daily,
    Hourly,
    Minutely,
    Secondly,
}

// A list's range: the values -negatives..-1, then 0 if it is in the range, then 1..positives.
// No invariant bounds it: SlotOfItsValue is of every range. The validator asks for 366 where it reckons.
#[derive(Clone, Copy)]
pub struct Range {
    pub negatives: usize,
    pub zeroin: bool,
    pub positives: usize,
}

// A rule record: COUNT is how often, and UNTIL an instant, where there is one. Each list has one slot for each value that its range allows, in
// rising order.
// The week start is a number: a record read of bytes can hold any, and the test of a record refuses one above 6 (`yielded`).
#[derive(Clone, Copy)]
pub struct Rule {
    pub freq: Frequency,
    pub interval: u16,
    pub count: Option<u32>,
    pub until: Option<u64>,
    pub wkst: u8,
    pub start: u64,
    pub bymonth: [bool; 12],
    pub bymonthday: [bool; 62],
    pub byyearday: [bool; 732],
    pub byweekno: [bool; 106],
    pub byday: [bool; 749],
    pub byhour: [bool; 24],
    pub byminute: [bool; 60],
    pub bysecond: [bool; 60],
    pub bysetpos: [bool; 732],
}

// Why the check says no: the rows of document 01's table, each with its number.
#[derive(Clone, Copy, PartialEq, Eq)]
pub enum Refusal {
    FrequencyAbove = 1,
    WeekStartAbove = 2,
    StartOut = 3,
    UntilOut = 4,
    EntryOut = 5,
    NotRising = 6,
    MixedDays = 7,
    NthMisplaced = 8,
    PositionsAlone = 9,
    Nought = 10,
    CountAndUntil = 11,
    ListMisplaced = 12,
}

// The lists of a rule as they are given: BYDAY's entries are pairs, whose halves stand in two lists.
// Two lists, since the C interface lends them so (yomaveludge_check), and a list of pairs made of them would need a heap.
#[derive(Clone, Copy)]
pub struct ByLists<'a> {
    pub bymonth: &'a [i16],
    pub bymonthday: &'a [i16],
    pub byyearday: &'a [i16],
    pub byweekno: &'a [i16],
    pub bydayn: &'a [i16],
    pub bydayw: &'a [i16],
    pub byhour: &'a [i16],
    pub byminute: &'a [i16],
    pub bysecond: &'a [i16],
    pub bysetpos: &'a [i16],
}

// A rule as it is given, but for its start: nothing is checked, and nothing filled in.
// Frequency and week start are numbers: it is the check that refuses one above 6 (`verdict`). The start stands beside, as a rule's text has none.
#[derive(Clone, Copy)]
pub struct Unvalidated<'a> {
    pub freq: u8,
    pub interval: u16,
    pub count: Option<u32>,
    pub until: Option<u64>,
    pub wkst: u8,
    pub lists: ByLists<'a>,
}
