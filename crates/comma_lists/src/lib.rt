// The lists of a text: entries joined by commas, at most 749. First it is told where a list stops, and later its entries are put into their slots.
#![tactic(auto)]

ghost use Rattle.std.specs.Prelude.{◌≡◌, true, map, ◌≤◌, ◌<◌, length, List, ℕ, ℤ, drop, set};
ghost use Rattle.std.proofs.lemmas.List.Edits.{sets};
ghost use Rattle.symbols.specs.Takes.{Took};
ghost use Rattle.recur.specs.Grammar.{nth_of, weekday_of};
ghost use Rattle.recur.specs.Reading.{day_at, entry_at, entries_at, days_at};
ghost use Rattle.recur.specs.Shown.{shown, shown_as, stopped, day_of};
ghost use Rattle.comma_lists.specs.Lists.{Within, list_of, nth_of_day};
ghost use Rattle.comma_lists.specs.Inside.{entry_within, nth_in_text};

use numerals::{entry_at, is_at, nth_at};
use recur::{Day, Symbol};
use spelling::weekday_at;

// How many entries a list may have behind its first.
const MORE: usize = 748;

// What the entries of a list are, each a number for its slot.
// `text` and `at` go side by side here and below: the clauses speak of `drop at text.now`, and of the two `at` alone moves on.
trait Entries {
    ghost take: { Self → ℕ → List ℕ → Took ℤ };

    fn read(&self, text: &[u8], at: usize) -> Result<Symbol<i16>, usize>
        requires { at ≤ length text.now }
        ensures { result ≡ shown (take self.now at (drop at text.now)) };

    ghost within: { (x : Self) (at : ℕ) (t : List ℕ) → at ≤ length t → Within t at (take x at (drop at t)) };
}

// Numbers, with signs or without.
#[derive(Clone, Copy)]
struct Numbers {
    signs: bool,
}

impl Entries for Numbers {
    ghost take = { λ x. entry_at x.signs };

    ghost within = { λ x at t h. entry_within x.signs at t h };

    fn read(&self, text: &[u8], at: usize) -> Result<Symbol<i16>, usize> {
        entry_at(text, at, self.signs)
    }
}

// The numbers of BYDAY's days.
#[derive(Clone, Copy)]
struct Nths;

impl Entries for Nths {
    ghost take = { λ x. nth_of_day };

    ghost within = { λ x at t h. nth_in_text at t h };

    fn read(&self, text: &[u8], at: usize) -> Result<Symbol<i16>, usize> {
        let day = day_at(text, at)?;
        Ok(Symbol {
            place: day.place,
            value: day.value.nth,
        })
    }
}

// An entry of BYDAY.
fn day_at(text: &[u8], at: usize) -> Result<Symbol<Day>, usize>
    requires { at ≤ length text.now }
    ensures { result ≡ shown_as day_of (day_at at (drop at text.now)) }
{
    let nth = nth_at(text, at)?;
    let weekday = weekday_at(text, nth.place)?;
    Ok(Symbol {
        place: weekday.place,
        value: Day {
            nth: nth.value,
            weekday: weekday.value as i16,
        },
    })
}

// Where a list stops.
fn list_at<E: Entries>(entries: &E, text: &[u8], at: usize) -> Result<usize, usize>
    requires { at ≤ length text.now }
    ensures { result ≡ stopped (list_of (E.take entries.now) 748 at (drop at text.now)) }
{
    let mut place = at;
    for _read in 0..MORE {
        let entry = entries.read(text, place)?;
        if !is_at(text, entry.place, b',') {
            return Ok(entry.place);
        }
        place = entry.place + 1;
    }
    let last = entries.read(text, place)?;
    Ok(last.place)
}

// Where a list of numbers stops.
pub fn entries_at(text: &[u8], at: usize, signs: bool) -> Result<usize, usize>
    requires { at ≤ length text.now }
    ensures { result ≡ stopped (entries_at signs 748 at (drop at text.now)) }
{
    list_at(&Numbers { signs }, text, at)
}

// Where a list of days stops.
pub fn days_at(text: &[u8], at: usize) -> Result<usize, usize>
    requires { at ≤ length text.now }
    ensures { result ≡ stopped (days_at 748 at (drop at text.now)) }
{
    list_at(&Nths, text, at)
}

// Puts the entries of a list that is whole into its first slots, and answers how many they are.
// The loop goes by entries, not by slots, which may be fewer: `sets` in the clause puts none past the end, and the count is of all.
fn fill<E: Entries>(entries: &E, text: &[u8], at: usize, list: &mut [i16]) -> usize
    requires { (at ≤ length text.now) × ((list_of (E.take entries.now) 748 at (drop at text.now)).whole ≡ true) }
    ensures { (list.new ≡ sets list.old 0 (list_of (E.take entries.now) 748 at (drop at text.now)).value)
        × (result ≡ length (list_of (E.take entries.now) 748 at (drop at text.now)).value) }
{
    let mut place = at;
    for slot in 0..MORE {
        let entry = entries.read(text, place).unwrap();
        store(list, slot, entry.value);
        if !is_at(text, entry.place, b',') {
            return slot + 1;
        }
        place = entry.place + 1;
    }
    let last = entries.read(text, place).unwrap();
    store(list, MORE, last.value);
    MORE + 1
}

// The same for a list of numbers.
// The count is answered apart from the lent slots: memory is fixed, and `read`'s clause tells the two apart (`outline_of`, `lists_left`).
pub fn fill_entries(text: &[u8], at: usize, signs: bool, list: &mut [i16]) -> usize
    requires { (at ≤ length text.now) × ((entries_at signs 748 at (drop at text.now)).whole ≡ true) }
    ensures { (list.new ≡ sets list.old 0 (entries_at signs 748 at (drop at text.now)).value)
        × (result ≡ length (entries_at signs 748 at (drop at text.now)).value) }
{
    fill(&Numbers { signs }, text, at, list)
}

// Puts the days of a list that is whole into the first slots of BYDAY's two lists, and answers how many they are.
// Each day is read once, and both its halves are put: two calls of `fill` would read the list twice.
// Two lists and a count, as `fill_entries` tells; BYDAY's halves are two lists in `ByLists` and the C interface.
pub fn fill_days(text: &[u8], at: usize, ns: &mut [i16], ws: &mut [i16]) -> usize
    requires { (at ≤ length text.now) × ((days_at 748 at (drop at text.now)).whole ≡ true) }
    ensures { (ns.new ≡ sets ns.old 0 (map nth_of (days_at 748 at (drop at text.now)).value))
        × (ws.new ≡ sets ws.old 0 (map weekday_of (days_at 748 at (drop at text.now)).value))
        × (result ≡ length (days_at 748 at (drop at text.now)).value) }
{
    let mut place = at;
    for count in 0..MORE {
        let day = day_at(text, place).unwrap();
        store(ns, count, day.value.nth);
        store(ws, count, day.value.weekday);
        if !is_at(text, day.place, b',') {
            return count + 1;
        }
        place = day.place + 1;
    }
    let last = day_at(text, place).unwrap();
    store(ns, MORE, last.value.nth);
    store(ws, MORE, last.value.weekday);
    MORE + 1
}

// Puts an entry into a slot, where the list has it.
// Like `put_1` of cursor_layout but for the type: of the crates only calendar lies below both, and it has dates alone.
fn store(list: &mut [i16], slot: usize, entry: i16)
    ensures { list.new ≡ set list.old slot entry }
{
    if slot < list.len() {
        list[slot] = entry;
    }
}
