// The value of an RRULE line: its parts, in any order.
ghost use Rattle.std.specs.Prelude.{◌≡◌, ◌&&◌, ◌||◌, map, ◌≤◌, length, get_or, drop, eqb, leb, ltb};
ghost use Rattle.std.proofs.lemmas.List.Edits.{sets};
ghost use Rattle.symbols.specs.Readers.{head_is};
ghost use Rattle.recur.specs.Grammar.{frequency, up_to_high, moment, weekday, entries, day_entries, semicolon};
ghost use Rattle.recur.specs.Grammar.{number_or, as_count, as_until, as_list, as_days, nth_of, weekday_of};
ghost use Rattle.recur.specs.Reading.{read_of};
ghost use Rattle.recur.specs.Places.{nowhere};
ghost use Rattle.recur.specs.Shown.{outline_of, reading_of, slots_of, filled_with, lists_left};
ghost use Rattle.parser.specs.Scans.{place_of, stop_at, scan_from, good_by};
ghost use Rattle.parser.specs.Values.{value_by, Standing, AllStanding, rule_at, lists_at};

use comma_lists::{days_at, entries_at, fill_days, fill_entries};
use moments::moment_at;
use numerals::{is_at, number_at};
use recur::{Outline, Slots, Symbol};
use spelling::{frequency_at, name_at, weekday_at};

// A text may have so many bytes.
const LONGEST: usize = 16384;

fn stop_of(number: Result<Symbol<u64>, usize>) -> Result<usize, usize>
    ensures { result ≡ place_of number }
{
    Ok(number?.place)
}

// Whether the numbers of a list may have signs: those of BYMONTHDAY, BYYEARDAY, BYWEEKNO and BYSETPOS may.
// By the number of a name, as `value_at` tells.
fn has_signs(name: u64) -> bool
    ensures { result ≡ ((leb 6 name && leb name 8) || eqb name 13) }
{
    matches!(name, 6..=8 | 13)
}

// Where the value behind a name stops.
// A name goes by its number in the grammar's table, as its place does: an enum would only be turned into the number again.
// The readers have bounds of their own, and two of them answer a place and no value: a table of closures would be this match again.
// `text` and its place go side by side here and below: `stop_at` and `Standing` in the clauses speak of `drop at text.now`.
fn value_at(text: &[u8], at: usize, name: u64) -> Result<usize, usize>
    requires { (at ≤ length text.now) × (name ≤ 13) }
    ensures { result ≡ stop_at name at text.now }
{
    match name {
        0 => stop_of(frequency_at(text, at)),
        1 => stop_of(number_at(text, at, 65535)),
        2 => stop_of(number_at(text, at, 4294967295)),
        3 => stop_of(moment_at(text, at)),
        4 => stop_of(weekday_at(text, at)),
        9 => days_at(text, at),
        _ => entries_at(text, at, has_signs(name)),
    }
}

// Whether a part follows what stops at a place: a semicolon stands there, and some part is left.
fn goes_on(text: &[u8], place: usize, left: usize) -> bool
    ensures { result ≡ (ltb 0 left && head_is semicolon (drop place text.now)) }
{
    (0 < left) & is_at(text, place, b';')
}

// Where the parts stop, and where the value of each name stands: 0 where there is none. It puts nothing anywhere.
// The last part is read like the others: so the loop counts the parts left, as a `for` would have to read one more behind its end.
// 0 and no Option: `nowhere` in the clause, `used_by` and the theorem `ValuesByPlaces` of recur read the places as numbers, 0 for none.
fn scan(text: &[u8]) -> Result<Symbol<[usize; 14]>, usize>
    ensures { result ≡ scan_from 13 (nowhere 14) 0 text.now }
{
    let mut places = [0; 14];
    let mut at = 0;
    let mut left = 13;
    loop {
        let name = name_at(text, at, places)?;
        places[name.value as usize] = name.place;
        let place = value_at(text, name.place, name.value)?;
        if !goes_on(text, place, left) {
            return Ok(Symbol {
                place,
                value: places,
            });
        }
        left -= 1;
        at = place + 1;
    }
}

// The numbers behind the names, and what holds where a name is missing.
// The five differ in reader, default or type: one function over a closure would leave each of them its call and its cast.
// Here and below 0 is no place, as `Standing` and `value_by` in the clauses have it.
fn freq_in(text: &[u8], place: usize) -> u8
    requires { Standing frequency place text.now }
    ensures { result ≡ number_or 0 (value_by frequency place text.now) }
{
    if place == 0 {
        return 0;
    }
    frequency_at(text, place).unwrap().value as u8
}

fn interval_in(text: &[u8], place: usize) -> u16
    requires { Standing (up_to_high 65535) place text.now }
    ensures { result ≡ number_or 1 (value_by (up_to_high 65535) place text.now) }
{
    if place == 0 {
        return 1;
    }
    number_at(text, place, 65535).unwrap().value as u16
}

fn count_in(text: &[u8], place: usize) -> Option<u32>
    requires { Standing (up_to_high 4294967295) place text.now }
    ensures { result ≡ as_count (value_by (up_to_high 4294967295) place text.now) }
{
    if place == 0 {
        return None;
    }
    Some(number_at(text, place, 4294967295).unwrap().value as u32)
}

fn until_in(text: &[u8], place: usize) -> Option<u64>
    requires { Standing moment place text.now }
    ensures { result ≡ as_until (value_by moment place text.now) }
{
    if place == 0 {
        return None;
    }
    Some(moment_at(text, place).unwrap().value)
}

// Like `freq_in` but for the reader, and for the kind in both clauses: one function would take the reader, the kind and what ties them.
fn wkst_in(text: &[u8], place: usize) -> u8
    requires { Standing weekday place text.now }
    ensures { result ≡ number_or 0 (value_by weekday place text.now) }
{
    if place == 0 {
        return 0;
    }
    weekday_at(text, place).unwrap().value as u8
}

// Fills a list from its value's place, where it has one, and answers how many entries it has.
// Here and below the count is answered apart from the lent slots: `read`'s clause tells the counts (`outline_of`) and the slots (`lists_left`).
fn fill_list(text: &[u8], place: usize, signs: bool, list: &mut [i16; 749]) -> usize
    requires { Standing (entries signs) place text.now }
    ensures { (list.new ≡ sets list.old 0 (as_list (value_by (entries signs) place text.now)))
        × (result ≡ length (as_list (value_by (entries signs) place text.now))) }
{
    if place == 0 {
        return 0;
    }
    fill_entries(text, place, signs, list)
}

// The same for BYDAY's two lists.
// Apart from `fill_list`: BYDAY's halves are two lists in `ByLists` and the C interface, and have a reader of their own.
fn fill_byday(text: &[u8], place: usize, ns: &mut [i16; 749], ws: &mut [i16; 749]) -> usize
    requires { Standing day_entries place text.now }
    ensures { (ns.new ≡ sets ns.old 0 (map nth_of (as_days (value_by day_entries place text.now))))
        × (ws.new ≡ sets ws.old 0 (map weekday_of (as_days (value_by day_entries place text.now))))
        × (result ≡ length (as_days (value_by day_entries place text.now))) }
{
    if place == 0 {
        return 0;
    }
    fill_days(text, place, ns, ws)
}

// The rule of the values at the places; its lists are put into the slots.
// Places by number: `rule_at` in the clause counts the grammar's names so (`kind_of`).
fn filled(text: &[u8], places: [usize; 14], slots: &mut Slots) -> Outline
    requires { AllStanding places text.now }
    ensures { (result ≡ outline_of (rule_at places text.now))
        × (slots_of slots.new ≡ filled_with (slots_of slots.old) (lists_at places text.now)) }
{
    Outline {
        freq: freq_in(text, places[0]),
        interval: interval_in(text, places[1]),
        count: count_in(text, places[2]),
        until: until_in(text, places[3]),
        wkst: wkst_in(text, places[4]),
        bymonth: fill_list(text, places[5], false, &mut slots.bymonth),
        bymonthday: fill_list(text, places[6], true, &mut slots.bymonthday),
        byyearday: fill_list(text, places[7], true, &mut slots.byyearday),
        byweekno: fill_list(text, places[8], true, &mut slots.byweekno),
        byday: fill_byday(text, places[9], &mut slots.bydayn, &mut slots.bydayw),
        byhour: fill_list(text, places[10], false, &mut slots.byhour),
        byminute: fill_list(text, places[11], false, &mut slots.byminute),
        bysecond: fill_list(text, places[12], false, &mut slots.bysecond),
        bysetpos: fill_list(text, places[13], true, &mut slots.bysetpos),
    }
}

// Whether a text whose parts are whole is good: nothing is left behind them, and FREQ has a place.
fn is_good(text: &[u8], parts: &Symbol<[usize; 14]>) -> bool
    ensures { result ≡ good_by text.now parts.now }
{
    (text.len() <= parts.place) & (0 < parts.value[0])
}

// Reads a text into the lent slots. First all of it is scanned; only where it is good are the lists filled, each from its own value's place.
pub fn read(text: &[u8], slots: &mut Slots) -> Result<Outline, usize>
    ensures { (result ≡ reading_of (read_of text.now)) × (slots_of slots.new ≡ lists_left (read_of text.now) (slots_of slots.old)) }
{
    if LONGEST < text.len() {
        return Err(LONGEST);
    }
    let parts = scan(text)?;
    if !is_good(text, &parts) {
        return Err(parts.place);
    }
    Ok(filled(text, parts.value, slots))
}
