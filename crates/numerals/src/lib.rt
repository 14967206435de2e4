// Numbers in digits, with or without a sign, each read as far as some number of its kind goes.
#![tactic(auto)]

ghost use Rattle.std.specs.Prelude.{◌≡◌, [], ◌+◌, ◌-◌, ◌*◌, ◌≤◌, length, drop, get_or, pos, if◌then◌else◌, IfOk};
ghost use Rattle.symbols.specs.Languages.{is_digit};
ghost use Rattle.symbols.specs.Takes.{took};
ghost use Rattle.symbols.specs.Readers.{may_take, digits, head_is};
ghost use Rattle.symbols.specs.Counts.{up_to, three, field};
ghost use Rattle.recur.specs.Grammar.{below};
ghost use Rattle.recur.specs.Reading.{signed_at, entry_at, nth_at, field_at};
ghost use Rattle.recur.specs.Shown.{shown};
ghost use Rattle.numerals.specs.Bytes.{passes, DigitAt, entry_of};

use recur::Symbol;

// Whether this byte stands at a place.
// `text` and its place go side by side here and below: the clauses speak of `drop at text.now`, and of the two the place alone moves on.
pub fn is_at(text: &[u8], place: usize, byte: u8) -> bool
    ensures { result ≡ head_is byte (drop place text.now) }
{
    text.get(place) == Some(&byte)
}

// Whether a digit stands at a place.
// The bound and the index are shorter than `text.get(place).is_some_and(|byte| byte.is_ascii_digit())`.
fn is_digit_at(text: &[u8], place: usize) -> bool
    ensures { result ≡ passes is_digit (drop place text.now) }
{
    place < text.len() && text[place].is_ascii_digit()
}

// A number with the digit at a place behind its own.
fn with_digit(text: &[u8], place: usize, value: u64) -> u64
    requires { DigitAt text.now place × (value ≤ 4294967295) }
    ensures { result ≡ value * 10 + (get_or text.now place 0 - 48) }
{
    value * 10 + ((text[place] - 48) as u64)
}

// What a reader of digits answers.
fn reached(whole: bool, place: usize, value: u64) -> Result<Symbol<u64>, usize>
    ensures { result ≡ shown (took whole place [] value) }
{
    if whole {
        return Ok(Symbol { place, value });
    }
    Err(place)
}

// Whether a digit stands at a place with which the number isn't above a highest.
fn number_goes_on(text: &[u8], place: usize, value: u64, high: u64) -> bool
    requires { (value ≤ high) × (high ≤ 4294967295) }
    ensures { result ≡ passes (may_take (up_to high) 0 value) (drop place text.now) }
{
    if !is_digit_at(text, place) {
        return false;
    }
    with_digit(text, place, value) <= high
}

// A number of one digit or more, not above a highest.
// Which digit may come hangs on the value so far: a `while` asks it. A trait of the three tests would be longer than the three loops.
pub fn number_at(text: &[u8], at: usize, high: u64) -> Result<Symbol<u64>, usize>
    requires { (at ≤ length text.now) × (high ≤ 4294967295) }
    ensures { result ≡ shown (digits (up_to high) 0 0 at (drop at text.now)) }
{
    let mut place = at;
    let mut value = 0;
    while number_goes_on(text, place, value, high) {
        value = with_digit(text, place, value);
        place += 1;
    }
    reached(0 < place - at, place, value)
}

// Whether a digit stands at a place that may be the next of one to three; where the number may not be 0, the third isn't the third nought.
fn three_go_on(text: &[u8], place: usize, count: usize, value: u64, low: u64) -> bool
    requires { value ≤ 4294967295 }
    ensures { result ≡ passes (may_take (three low) count value) (drop place text.now) }
{
    if !is_digit_at(text, place) {
        return false;
    }
    if 3 <= count {
        return false;
    }
    if count < 2 {
        return true;
    }
    low <= with_digit(text, place, value)
}

// One to three digits; `low` is 1 where the number may not be 0.
// A `while` of its own, as `number_at` tells.
fn three_at(text: &[u8], at: usize, low: u64) -> Result<Symbol<u64>, usize>
    requires { at ≤ length text.now }
    ensures value { result ≡ shown (digits (three low) 0 0 at (drop at text.now)) }
    ensures value_bound { IfOk result (λ number. number.value ≤ 999) }
{
    let mut place = at;
    let mut value = 0;
    while three_go_on(text, place, place - at, value, low) {
        value = with_digit(text, place, value);
        place += 1;
    }
    reached((0 < place - at) & (low <= value), place, value)
}

// Whether a digit stands at a place that may be the next of so many: with it, and whatever digits behind it, some number of the range is left.
// Seven parameters: `place`, `count` and `value` change with each turn, and the field's own three stand in two contracts alone.
fn field_goes_on(
    text: &[u8],
    place: usize,
    count: usize,
    wide: usize,
    value: u64,
    low: u64,
    high: u64,
) -> bool
    requires { (wide ≤ 4) × (value ≤ 9999) }
    ensures { result ≡ passes (may_take (field wide low high) count value) (drop place text.now) }
{
    if !is_digit_at(text, place) {
        return false;
    }
    if wide <= count {
        return false;
    }
    let unit = 10u64.pow((wide - (count + 1)) as u32);
    let lowest = with_digit(text, place, value) * unit;
    if high < lowest {
        return false;
    }
    low <= lowest + unit - 1
}

// So many digits, of a number from `low` to `high`.
// A `while` of its own, as `number_at` tells.
pub fn field_at(
    text: &[u8],
    at: usize,
    wide: usize,
    low: u64,
    high: u64,
) -> Result<Symbol<u64>, usize>
    requires { (at ≤ length text.now) × (1 ≤ wide) × (wide ≤ 4) × (low ≤ 9999) × (high ≤ 9999) }
    ensures { result ≡ shown (field_at wide low high at (drop at text.now)) }
{
    let mut place = at;
    let mut value = 0;
    while field_goes_on(text, place, place - at, wide, value, low, high) {
        value = with_digit(text, place, value);
        place += 1;
    }
    reached(place - at == wide, place, value)
}

// A size with its sign; -0 is 0.
fn signed(negative: bool, size: u64) -> i16
    requires { size ≤ 999 }
    ensures { result ≡ (if negative then below size else pos size) }
{
    let value = size as i16;
    if negative { -value } else { value }
}

// A number as an entry, with a minus or without.
fn as_entry(negative: bool, number: Result<Symbol<u64>, usize>) -> Result<Symbol<i16>, usize>
    requires { IfOk number (λ size. size.value ≤ 999) }
    ensures { result ≡ entry_of negative number }
{
    let size = number?;
    Ok(Symbol {
        place: size.place,
        value: signed(negative, size.value),
    })
}

// A number that may have a sign; `low` is 1 where it may not be 0.
fn signed_at(text: &[u8], at: usize, low: u64) -> Result<Symbol<i16>, usize>
    requires { at ≤ length text.now }
    ensures { result ≡ shown (signed_at low at (drop at text.now)) }
{
    if is_at(text, at, b'-') {
        return as_entry(true, three_at(text, at + 1, low));
    }
    if is_at(text, at, b'+') {
        return as_entry(false, three_at(text, at + 1, low));
    }
    as_entry(false, three_at(text, at, low))
}

// An entry of a list of numbers.
pub fn entry_at(text: &[u8], at: usize, signs: bool) -> Result<Symbol<i16>, usize>
    requires { at ≤ length text.now }
    ensures { result ≡ shown (entry_at signs at (drop at text.now)) }
{
    if signs {
        return signed_at(text, at, 0);
    }
    as_entry(false, three_at(text, at, 0))
}

// The number before a weekday, or 0 where none stands there.
// 0 and no Option: the clause's `nth_at` gives `pos 0`, and BYDAY's i16 list holds 0 for every such weekday.
pub fn nth_at(text: &[u8], at: usize) -> Result<Symbol<i16>, usize>
    requires { at ≤ length text.now }
    ensures { result ≡ shown (nth_at at (drop at text.now)) }
{
    if is_digit_at(text, at) | (is_at(text, at, b'+') | is_at(text, at, b'-')) {
        return signed_at(text, at, 1);
    }
    Ok(Symbol {
        place: at,
        value: 0,
    })
}
