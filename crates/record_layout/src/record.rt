// A record as bytes: the version, 26 bytes of numbers, then one byte for each flag of each set.
ghost use Rattle.std.specs.Prelude.{◌≡◌, ◌≤◌, [], length};
ghost use Rattle.std.proofs.lemmas.List.Edits.{sets};
ghost use Rattle.edge.specs.Layout.{is_tagged, head_bytes, day_bytes, time_bytes};
ghost use Rattle.edge.specs.Layout.{record_length, encode_record, record_in, is_record_bytes};
ghost use Rattle.cursor_layout.specs.Lengths.{of_length, put, put_to};

use crate::flags::{are_flags, flags, put_flags};
use basics::rrule::{frequency_number, frequency_of};
use cursor_layout::numbers::{put_1, put_2, put_4, put_8, read_2, read_4, read_8};
use rule::rrule::{Frequency, Rule};

const RECORD_LENGTH: usize = 2564;

const RECORD_VERSION: u8 = 1;

// Whether a tag and its number are such as are written: absent has one form only.
// A tag beside a number: so the bytes hold an Option, and their layout may not change (`encode_record`).
fn is_tagged(tag: u8, number: u64) -> bool
    ensures { result ≡ is_tagged tag number }
{
    (tag == 1) | ((tag == 0) & (number == 0))
}

// Tried with `record_in` as one function that answers Option<Rule>: the record is copied once more, and a call with one slot takes 9 % more instructions.
pub fn is_record_bytes(bytes: &[u8]) -> bool
    ensures { result ≡ is_record_bytes bytes.now }
{
    if bytes.len() != RECORD_LENGTH {
        return false;
    }
    let count = read_4(bytes, 5);
    let until = read_8(bytes, 10);
    (bytes[0] == RECORD_VERSION)
        & ((bytes[1] <= 6)
            & (is_tagged(bytes[4], count) & (is_tagged(bytes[9], until) & are_flags(&bytes[27..]))))
}

// What bytes of another length are read as: the record of no bytes at all.
// Alike to validator's `blank_rule` by its numbers alone: this one is what the clause's `record_in []` says, and the layout may change.
fn record_of_none() -> Rule
    ensures { result ≡ record_in [] }
{
    Rule {
        freq: Frequency::Yearly,
        interval: 0,
        count: None,
        until: None,
        wkst: 0,
        start: 0,
        bymonth: [false; 12],
        bymonthday: [false; 62],
        byyearday: [false; 732],
        byweekno: [false; 106],
        byday: [false; 749],
        byhour: [false; 24],
        byminute: [false; 60],
        bysecond: [false; 60],
        bysetpos: [false; 732],
    }
}

// The record that bytes hold; those of another length are read as if there were none.
pub fn record_in(bytes: &[u8]) -> Rule
    ensures { result ≡ record_in (of_length record_length bytes.now) }
{
    if bytes.len() != RECORD_LENGTH {
        return record_of_none();
    }
    Rule {
        freq: frequency_of(bytes[1]),
        interval: read_2(bytes, 2) as u16,
        count: (bytes[4] != 0).then_some(read_4(bytes, 5) as u32),
        until: (bytes[9] != 0).then_some(read_8(bytes, 10)),
        wkst: bytes[18],
        start: read_8(bytes, 19),
        bymonth: flags(bytes, 27),
        bymonthday: flags(bytes, 39),
        byyearday: flags(bytes, 101),
        byweekno: flags(bytes, 833),
        byday: flags(bytes, 939),
        byhour: flags(bytes, 1688),
        byminute: flags(bytes, 1712),
        bysecond: flags(bytes, 1772),
        bysetpos: flags(bytes, 1832),
    }
}

// Writes the numbers of a record.
fn put_head(rule: &Rule, bytes: &mut [u8])
    requires { 27 ≤ length bytes.old }
    ensures { bytes.new ≡ sets bytes.old 1 (head_bytes rule.now.freq rule.now.interval rule.now.count rule.now.until rule.now.wkst rule.now.start) }
{
    put_1(bytes, 1, frequency_number(rule.freq));
    put_2(bytes, 2, rule.interval);
    put_1(bytes, 4, rule.count.is_some() as u8);
    put_4(bytes, 5, rule.count.unwrap_or(0));
    put_1(bytes, 9, rule.until.is_some() as u8);
    put_8(bytes, 10, rule.until.unwrap_or(0));
    put_1(bytes, 18, rule.wkst);
    put_8(bytes, 19, rule.start);
}

// Writes the sets of months, days and weeks.
fn put_days(rule: &Rule, bytes: &mut [u8])
    requires { 1688 ≤ length bytes.old }
    ensures { (bytes.new ≡ sets bytes.old 27 (day_bytes rule.now)) × (length (day_bytes rule.now) ≡ 1661) }
{
    put_flags(&rule.bymonth, bytes, 27);
    put_flags(&rule.bymonthday, bytes, 39);
    put_flags(&rule.byyearday, bytes, 101);
    put_flags(&rule.byweekno, bytes, 833);
    put_flags(&rule.byday, bytes, 939);
}

// Writes the sets of hours, minutes and seconds, and the positions.
fn put_times(rule: &Rule, bytes: &mut [u8])
    requires { 2564 ≤ length bytes.old }
    ensures { (bytes.new ≡ sets bytes.old 1688 (time_bytes rule.now)) × (length (time_bytes rule.now) ≡ 876) }
{
    put_flags(&rule.byhour, bytes, 1688);
    put_flags(&rule.byminute, bytes, 1712);
    put_flags(&rule.bysecond, bytes, 1772);
    put_flags(&rule.bysetpos, bytes, 1832);
}

// Writes a record, and answers whether the bytes have its length; others are left as they were.
// A bool and no Result: there is one refusal, and the clause `put` has a flag.
pub fn put_record(rule: &Rule, bytes: &mut [u8]) -> bool
    ensures { put result bytes.new ≡ put_to record_length (encode_record rule.now) bytes.old }
{
    if bytes.len() != RECORD_LENGTH {
        return false;
    }
    put_1(bytes, 0, RECORD_VERSION);
    put_head(rule, bytes);
    put_days(rule, bytes);
    put_times(rule, bytes);
    true
}
