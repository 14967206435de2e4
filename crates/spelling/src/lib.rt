// Words of a table, in either letter case: the names of parts, the frequencies and the weekdays. Of several words the one that the text spells is found, or
// how far the text begins some word.
#![tactic(auto)]

ghost use Rattle.std.specs.Prelude.{◌≡◌, ◌+◌, ◌≤◌, length, map, drop, []};
ghost use Rattle.symbols.specs.Languages.{upper};
ghost use Rattle.symbols.specs.Readers.{chosen, word};
ghost use Rattle.recur.specs.Grammar.{names};
ghost use Rattle.recur.specs.Reading.{freq_at, weekday_at};
ghost use Rattle.recur.specs.Places.{used_by};
ghost use Rattle.recur.specs.Shown.{shown};
ghost use Rattle.spelling.specs.Offers.{InCommon, Offered, Chosen};

use recur::Symbol;
use symbols::Best;

// How many bytes of a word begin the text from a place on, in either letter case.
// `text` and `at` go side by side here and below: the clauses speak of `drop at text.now`, and of the two `at` alone moves on.
fn in_common(word: &[u8], text: &[u8], at: usize) -> usize
    requires { at ≤ length text.now }
    ensures { InCommon word.now text.now at result }
{
    word.iter()
        .zip(&text[at..])
        .take_while(|(letter, byte)| byte.to_ascii_uppercase() == **letter)
        .count()
}

// The best match with a word more, unless that is used up: a place above 0 says so. Once a word is found no other is asked.
// Six parameters and one call: a word of the table with its number and its place, and the text. That 0 is no place, `used_by` says in the clauses.
fn offered(best: Best, which: usize, place: usize, word: &[u8], text: &[u8], at: usize) -> Best
    requires { at + best.count ≤ length text.now }
    ensures { Offered best which place word.now text.now at result }
{
    if best.which.is_some() | (0 < place) {
        return best;
    }
    let count = in_common(word, text, at);
    if count == word.len() {
        return Best {
            which: Some(which),
            count,
        };
    }
    if best.count < count {
        return Best { which: None, count };
    }
    best
}

// The best match of the words of a table, each unless it is used up.
// `places[which]` is no harder to read than `for (which, (word, place)) in words.iter().zip(places).enumerate()`.
fn best_of(words: &[&[u8]], places: &[usize], text: &[u8], at: usize) -> Best
    requires { (at ≤ length text.now) × (length places.now ≡ length words.now) }
    ensures { Chosen (map (λ w. w.now) words.now) (used_by places.now) text.now at result }
{
    let mut best = Best {
        which: None,
        count: 0,
    };
    for (which, word) in words.iter().enumerate() {
        best = offered(best, which, places[which], word, text, at);
        if best.which.is_some() {
            return best;
        }
    }
    best
}

// What the best match of a table comes to.
fn reached(best: Best, at: usize) -> Result<Symbol<u64>, usize>
    requires { at + best.count ≤ 9223372036854775807 }
    ensures { result ≡ shown (chosen best at []) }
{
    let place = at + best.count;
    match best.which {
        Some(which) => Ok(Symbol {
            place,
            value: which as u64,
        }),
        None => Err(place),
    }
}

// The frequencies, each at its number.
const FREQUENCIES: [&[u8]; 7] = [
    b"YEARLY",
    b"MONTHLY",
    b"WEEKLY",
    b"DAILY",
    b"HOURLY",
    b"MINUTELY",
    b"SECONDLY",
];

// A frequency.
// Here and below a word is answered by its number in the table: `freq_at`, `weekday_at` and `word names` in the clauses count it so.
pub fn frequency_at(text: &[u8], at: usize) -> Result<Symbol<u64>, usize>
    requires { at ≤ length text.now }
    ensures { result ≡ shown (freq_at at (drop at text.now)) }
{
    reached(best_of(&FREQUENCIES, &[0; 7], text, at), at)
}

// The weekdays, each at its number.
const WEEKDAYS: [&[u8]; 7] = [b"MO", b"TU", b"WE", b"TH", b"FR", b"SA", b"SU"];

// A weekday.
pub fn weekday_at(text: &[u8], at: usize) -> Result<Symbol<u64>, usize>
    requires { at ≤ length text.now }
    ensures { result ≡ shown (weekday_at at (drop at text.now)) }
{
    reached(best_of(&WEEKDAYS, &[0; 7], text, at), at)
}

// The names of parts, each at its number.
const NAMES: [&[u8]; 14] = [
    b"FREQ=",
    b"INTERVAL=",
    b"COUNT=",
    b"UNTIL=",
    b"WKST=",
    b"BYMONTH=",
    b"BYMONTHDAY=",
    b"BYYEARDAY=",
    b"BYWEEKNO=",
    b"BYDAY=",
    b"BYHOUR=",
    b"BYMINUTE=",
    b"BYSECOND=",
    b"BYSETPOS=",
];

// A part's name with its `=`, unless it is used up: `places` tells where the values of the parts before stand, and 0 where a name is open.
// 0 and no Option: `used_by` in the clause and the theorem `ValuesByPlaces` of recur read the places as numbers, 0 for none.
pub fn name_at(text: &[u8], at: usize, places: [usize; 14]) -> Result<Symbol<u64>, usize>
    requires { at ≤ length text.now }
    ensures { result ≡ shown (word names (used_by places) at (drop at text.now)) }
{
    reached(best_of(&NAMES, &places, text, at), at)
}
