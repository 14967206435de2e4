// The entries of a list as given. Behind `slot_of` all numbers are unsigned.
ghost use Rattle.std.specs.Prelude.{◌≡◌, ◌≤◌, Some};
ghost use Rattle.std.specs.Int.Signed.{lt_z};
ghost use Rattle.rule.specs.Lists.{within, zeros, slot_of, pair_slot, mark};
ghost use Rattle.rule.specs.Filling.{takes};
ghost use Rattle.rule.specs.Raw.{entries, pairs};
ghost use Rattle.rule.specs.Entries.{Moved, slot_at, marks};
ghost use Rattle.rule.specs.Refusals.{stray_in, strays, rises, pair_below, pairs_rise, is_zero, some_every, some_nth};

use basics::lists::is_empty;
use rule::rrule::Range;

// The ranges of the lists.
pub(crate) const MONTHS: Range = Range {
    negatives: 0,
    zeroin: false,
    positives: 12,
};

pub(crate) const MONTHDAYS: Range = Range {
    negatives: 31,
    zeroin: false,
    positives: 31,
};

pub(crate) const YEARDAYS: Range = Range {
    negatives: 366,
    zeroin: false,
    positives: 366,
};

pub(crate) const WEEKNOS: Range = Range {
    negatives: 53,
    zeroin: false,
    positives: 53,
};

pub(crate) const NTHS: Range = Range {
    negatives: 53,
    zeroin: true,
    positives: 53,
};

pub(crate) const WEEKDAYS: Range = Range {
    negatives: 0,
    zeroin: true,
    positives: 6,
};

pub(crate) const HOURS: Range = Range {
    negatives: 0,
    zeroin: true,
    positives: 23,
};

pub(crate) const SIXTY: Range = Range {
    negatives: 0,
    zeroin: true,
    positives: 59,
};

pub(crate) const POSITIONS: Range = Range {
    negatives: 366,
    zeroin: false,
    positives: 366,
};

// A value moved up by 32,768.
fn shifted(value: i16) -> usize
    ensures { Moved value result }
{
    ((value as i32) + 32768) as usize
}

// The slot of a value in a list's range: one function for all lists.
fn slot_of(range: Range, value: i16) -> Option<usize>
    requires { (range.negatives ≤ 366) × (range.positives ≤ 366) }
    ensures { result ≡ slot_of range value }
{
    slot_at(range, shifted(value))
}

// The slot of a value that was moved up.
fn slot_at(range: Range, up: usize) -> Option<usize>
    requires { (range.negatives ≤ 366) × (range.positives ≤ 366) }
    ensures { result ≡ slot_at range up }
{
    if up < 32768 {
        let below = 32768 - up;
        if range.negatives < below {
            return None;
        }
        return Some(range.negatives - below);
    }
    if up == 32768 {
        return middle_slot(range);
    }
    let above = up - 32768;
    if range.positives < above {
        return None;
    }
    Some(range.negatives + middle_slots(range) + (above - 1))
}

fn middle_slot(range: Range) -> Option<usize>
    ensures { result ≡ within range.zeroin range.negatives }
{
    range.zeroin.then_some(range.negatives)
}

fn middle_slots(range: Range) -> usize
    ensures { result ≡ zeros range }
{
    range.zeroin as usize
}

// Whether a value lies outside a range.
fn is_outside(range: Range, value: i16) -> bool
    requires { (range.negatives ≤ 366) × (range.positives ≤ 366) }
    ensures { result ≡ stray_in range value }
{
    slot_of(range, value).is_none()
}

// Whether an entry of a list lies outside its range.
pub(crate) fn has_strays(range: Range, list: &[i16]) -> bool
    requires { (range.negatives ≤ 366) × (range.positives ≤ 366) }
    ensures { result ≡ strays range list.now }
{
    list.iter().any(|value| is_outside(range, *value))
}

fn is_less(x: i16, y: i16) -> bool
    ensures { result ≡ lt_z x y }
{
    x < y
}

// Whether a list rises strictly.
pub(crate) fn is_rising(list: &[i16]) -> bool
    ensures { result ≡ rises list.now }
{
    list.is_sorted_by(|x, y| is_less(*x, *y))
}

fn is_every(n: i16) -> bool
    ensures { result ≡ is_zero n }
{
    n == 0
}

// Whether BYDAY has an entry with n = 0, and whether it has one with n not 0.
pub(crate) fn has_every(ns: &[i16]) -> bool
    ensures { result ≡ some_every ns.now }
{
    ns.iter().any(|n| is_every(*n))
}

pub(crate) fn has_nth(ns: &[i16]) -> bool
    ensures { result ≡ some_nth ns.now }
{
    ns.iter().any(|n| !is_every(*n))
}

// Whether the pair (n, w) is below (m, v).
fn is_below(n: i16, w: i16, m: i16, v: i16) -> bool
    ensures { result ≡ pair_below n w m v }
{
    (n, w) < (m, v)
}

// Whether BYDAY's pairs rise strictly, by n, then weekday.
// Two lists side by side here and below, as the C interface lends them (yomaveludge_check): no heap for a list of pairs.
pub(crate) fn are_rising(ns: &[i16], ws: &[i16]) -> bool
    ensures { result ≡ pairs_rise ns.now ws.now }
{
    let next = ns.iter().zip(ws).skip(1);
    ns.iter()
        .zip(ws)
        .zip(next)
        .all(|((n, w), (m, v))| is_below(*n, *w, *m, *v))
}

// Marks a set with the entries of a list.
pub(crate) fn mark_list(range: Range, list: &[i16], flags: &mut [bool])
    requires { (range.negatives ≤ 366) × (range.positives ≤ 366) }
    ensures { flags.new ≡ marks flags.old (entries range list.now) }
{
    for value in list {
        mark_slot(slot_of(range, *value), flags);
    }
}

// Marks BYDAY's set with its pairs.
// Beside mark_list, since one function over an iterator of slots is no plainer: both loops are of one line.
pub(crate) fn mark_pairs(ns: &[i16], ws: &[i16], flags: &mut [bool])
    ensures { flags.new ≡ marks flags.old (pairs ns.now ws.now) }
{
    for (n, w) in ns.iter().zip(ws) {
        mark_slot(pair_slot(*n, *w), flags);
    }
}

// The slot of a pair of BYDAY.
fn pair_slot(n: i16, w: i16) -> Option<usize>
    ensures { result ≡ pair_slot n w }
{
    let a = slot_of(NTHS, n)?;
    let b = slot_of(WEEKDAYS, w)?;
    Some(a * 7 + b)
}

// No get_mut: it is as long, and lends a slot where a store is enough.
fn mark_slot(slot: Option<usize>, flags: &mut [bool])
    ensures { flags.new ≡ mark flags.old slot }
{
    let Some(i) = slot else {
        return;
    };
    if i < flags.len() {
        flags[i] = true;
    }
}

// A set takes a slot, where it is empty and is to.
pub(crate) fn take<const N: usize>(mut flags: [bool; N], when: bool, slot: usize) -> [bool; N]
    ensures { result ≡ takes when flags.entry (Some slot) }
{
    if when & is_empty(&flags) {
        mark_slot(Some(slot), &mut flags);
    }
    flags
}
