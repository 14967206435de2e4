// The ranges of a record's lists.
use rule::rrule::Range;

// validator has these nine too, for the check: the slips record-month-day-minus-31 and record-week-minus-54 are of a record's alone.
pub(crate) const MONTHS: Range = Range {
    negatives: 0,
    zeroin: false,
    positives: 12,
};

pub(crate) const MONTHDAYS: Range = Range {
    negatives: 31,
    zeroin: false,
    positives: 31,
};

pub(crate) const YEARDAYS: Range = Range {
    negatives: 366,
    zeroin: false,
    positives: 366,
};

pub(crate) const WEEKNOS: Range = Range {
    negatives: 53,
    zeroin: false,
    positives: 53,
};

pub(crate) const NTHS: Range = Range {
    negatives: 53,
    zeroin: true,
    positives: 53,
};

pub(crate) const WEEKDAYS: Range = Range {
    negatives: 0,
    zeroin: true,
    positives: 6,
};

pub(crate) const HOURS: Range = Range {
    negatives: 0,
    zeroin: true,
    positives: 23,
};

pub(crate) const SIXTY: Range = Range {
    negatives: 0,
    zeroin: true,
    positives: 59,
};

pub(crate) const POSITIONS: Range = Range {
    negatives: 366,
    zeroin: false,
    positives: 366,
};

// Whether a range holds a value.
// validator's `is_outside` asks it too, by slots and within its crate: words doesn't stand on validator.
pub(crate) fn holds(range: Range, value: i16) -> bool {
    let size = usize::from(value.unsigned_abs());
    if value < 0 {
        size <= range.negatives
    } else if value == 0 {
        range.zeroin
    } else {
        size <= range.positives
    }
}
