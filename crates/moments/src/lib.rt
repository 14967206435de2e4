// UNTIL: a date and a time of UTC, read as an instant.
#![tactic(auto)]

ghost use Rattle.std.specs.Prelude.{◌≡◌, ◌≤◌, length, drop};
ghost use Rattle.symbols.specs.Readers.{turned};
ghost use Rattle.calendar.specs.Calendar.{month_length};
ghost use Rattle.recur.specs.Grammar.{day_number, clock_seconds};
ghost use Rattle.recur.specs.Reading.{date_at, time_at, moment_at};
ghost use Rattle.recur.specs.Shown.{shown};
ghost use Rattle.moments.specs.Lettered.{lettered_at};

use calendar::utils::{EPOCH, is_leap_year};
use dates::utils::day_of_date;
use numerals::{field_at, is_at};
use recur::Symbol;

// How many days a month has.
fn month_length(long: bool, month: u64) -> u64
    requires { (1 ≤ month) × (month ≤ 12) }
    ensures { result ≡ month_length long month }
{
    match month {
        2 => if long { 29 } else { 28 },
        4 | 6 | 9 | 11 => 30,
        _ => 31,
    }
}

// A number of two digits with a letter behind it, which is a capital or a small letter just as it is given.
// `text` and `at` go side by side here and below: the clauses speak of `drop at text.now`, and of the two `at` alone moves on.
fn lettered_at(
    text: &[u8],
    at: usize,
    low: u64,
    high: u64,
    letter: u8,
) -> Result<Symbol<u64>, usize>
    requires { (at ≤ length text.now) × (low ≤ high) × (high ≤ 99) }
    ensures { result ≡ shown (lettered_at low high letter at (drop at text.now)) }
{
    let number = field_at(text, at, 2, low, high)?;
    if !is_at(text, number.place, letter) {
        return Err(number.place);
    }
    Ok(Symbol {
        place: number.place + 1,
        value: number.value,
    })
}

// Year, month and day, and the letter T behind them: the day, counted from 0001-01-01. Where one of them isn't whole, the date stops where that one does.
fn date_at(text: &[u8], at: usize) -> Result<Symbol<u64>, usize>
    requires { at ≤ length text.now }
    ensures { result ≡ shown (turned day_number date_at at (drop at text.now)) }
{
    let year = field_at(text, at, 4, 1970, 9999)?;
    let month = field_at(text, year.place, 2, 1, 12)?;
    let last = month_length(is_leap_year(year.value as u32), month.value);
    let day = lettered_at(text, month.place, 1, last, b'T')?;
    Ok(Symbol {
        place: day.place,
        value: day_of_date(year.value as u32, month.value as u8, day.value as u8),
    })
}

// Hour, minute and second, and the letter Z behind them: the second of the day.
fn time_at(text: &[u8], at: usize) -> Result<Symbol<u64>, usize>
    requires { at ≤ length text.now }
    ensures { result ≡ shown (turned clock_seconds time_at at (drop at text.now)) }
{
    let hour = field_at(text, at, 2, 0, 23)?;
    let minute = field_at(text, hour.place, 2, 0, 59)?;
    let second = lettered_at(text, minute.place, 0, 59, b'Z')?;
    Ok(Symbol {
        place: second.place,
        value: hour.value * 3600 + minute.value * 60 + second.value,
    })
}

// A moment, as an instant.
pub fn moment_at(text: &[u8], at: usize) -> Result<Symbol<u64>, usize>
    requires { at ≤ length text.now }
    ensures { result ≡ shown (moment_at at (drop at text.now)) }
{
    let date = date_at(text, at)?;
    let time = time_at(text, date.place)?;
    Ok(Symbol {
        place: time.place,
        value: date.value * 86400 + time.value - EPOCH,
    })
}
