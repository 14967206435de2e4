// The texts of rules (RECUR of RFC 5545): the types of their readers and of the writer. The code is in the crates from spelling to display.
#![tactic(auto)]

ghost use Rattle.std.specs.Prelude.{◌≡◌};
ghost use Rattle.recur.specs.declared.Unwritten.{Unwritten};
ghost use Rattle.recur.specs.declared.Unparsed.{Unparsed};

use rule::rrule::Refusal;

// A symbol that is whole: the place behind it, and its value. A reader that finds none answers the place where it stopped.
#[derive(Clone, Copy)]
pub struct Symbol<T> {
    pub place: usize,
    pub value: T,
}

// An entry of BYDAY: a weekday, and which one; 0 for every such weekday.
// Both are numbers, and `nth` 0 where there is none: they go as they are into the i16 lists of BYDAY that `ByLists` and the C interface have.
#[derive(Clone, Copy)]
pub struct Day {
    pub nth: i16,
    pub weekday: i16,
}

// What a text says, but for the entries of its lists, of which it has the numbers.
// FREQ and WKST are numbers, and a list's length stands apart from its entries in `Slots`: `outline_of` and `lists_left`, in `read`'s clause, say so.
#[derive(Clone, Copy)]
pub struct Outline {
    pub freq: u8,
    pub interval: u16,
    pub count: Option<u32>,
    pub until: Option<u64>,
    pub wkst: u8,
    pub bymonth: usize,
    pub bymonthday: usize,
    pub byyearday: usize,
    pub byweekno: usize,
    pub byday: usize,
    pub byhour: usize,
    pub byminute: usize,
    pub bysecond: usize,
    pub bysetpos: usize,
}

// The slots of the ten lists: into the first of each the reader puts as many entries as the outline says.
// Arrays, as the memory is fixed; BYDAY's halves are two, as `ByLists` and the C interface take them.
#[derive(Drop)]
pub struct Slots {
    pub bymonth: [i16; 749],
    pub bymonthday: [i16; 749],
    pub byyearday: [i16; 749],
    pub byweekno: [i16; 749],
    pub bydayn: [i16; 749],
    pub bydayw: [i16; 749],
    pub byhour: [i16; 749],
    pub byminute: [i16; 749],
    pub bysecond: [i16; 749],
    pub bysetpos: [i16; 749],
}

// Why no text is written: the buffer is short of the length needed, or the check refuses the rule.
#[derive(Clone, Copy)]
pub enum Unwritten {
    Short(usize),
    Refused(Refusal),
}

impl From<Refusal> for Unwritten {
    ghost from_gives = { λ refusal e. e ≡ Unwritten.Refused refusal };

    fn from(refusal: Refusal) -> Unwritten {
        Unwritten::Refused(refusal)
    }
}

// Why a text and a start give no rule: where the text can't be read, or why the check refuses what it says.
#[derive(Clone, Copy)]
pub enum Unparsed {
    Unread(usize),
    Refused(Refusal),
}

impl From<Refusal> for Unparsed {
    ghost from_gives = { λ refusal e. e ≡ Unparsed.Refused refusal };

    fn from(refusal: Refusal) -> Unparsed {
        Unparsed::Refused(refusal)
    }
}

// The text ends at a place where more is wanted, or has there what can't be.
impl From<usize> for Unparsed {
    ghost from_gives = { λ place e. e ≡ Unparsed.Unread place };

    fn from(place: usize) -> Unparsed {
        Unparsed::Unread(place)
    }
}
