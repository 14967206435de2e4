// The parts of a rule's text, each behind its semicolon.
ghost use Rattle.std.specs.Prelude.{◌≡◌, eqb};
ghost use Rattle.symbols.specs.Languages.{both};
ghost use Rattle.recur.specs.Grammar.{number};
ghost use Rattle.recur.specs.Writing.{signed_text, nth_text, day_text, weekday_number, paired, part_text, unless, count_part, until_part, day_part};
ghost use Rattle.recur.specs.Claims.{UntilInRange};
ghost use Rattle.recur.specs.Pieces.{parts_behind, entries_behind};
ghost use Rattle.puts.specs.Put.{Puts, Room};
ghost use Rattle.display.specs.Parts.{list_bytes};

use puts::bytes::Text;

// FREQ.
pub(crate) fn put_freq(text: &mut Text, freq: u8)
    requires { Room text.old.place (part_text (both 0 (number freq))) }
    ensures { Puts text.old (part_text (both 0 (number freq))) text.new }
{
    text.put_word(b"FREQ=");
    text.put_frequency(freq);
}

// INTERVAL, unless it is 1.
// Like `put_wkst` but for the name, the default, the type and how it is put: one function would take all four, to share an `if`.
pub(crate) fn put_interval(text: &mut Text, interval: u16)
    requires { Room text.old.place (parts_behind (unless (eqb interval 1) (both 1 (number interval)))) }
    ensures { Puts text.old (parts_behind (unless (eqb interval 1) (both 1 (number interval)))) text.new }
{
    if interval == 1 {
        return;
    }
    text.put_word(b";INTERVAL=");
    text.put_number(interval as u32);
}

// COUNT, if there is one.
// Like `put_until` but for the name, the type and how it is put: one function would take all three, to share an `if let`.
pub(crate) fn put_count(text: &mut Text, count: Option<u32>)
    requires { Room text.old.place (parts_behind (count_part count)) }
    ensures { Puts text.old (parts_behind (count_part count)) text.new }
{
    if let Some(times) = count {
        text.put_word(b";COUNT=");
        text.put_number(times);
    }
}

// UNTIL, if there is one.
pub(crate) fn put_until(text: &mut Text, until: Option<u64>)
    requires { UntilInRange until × Room text.old.place (parts_behind (until_part until)) }
    ensures { Puts text.old (parts_behind (until_part until)) text.new }
{
    if let Some(instant) = until {
        text.put_word(b";UNTIL=");
        text.put_moment(instant);
    }
}

// WKST, unless it is Monday.
pub(crate) fn put_wkst(text: &mut Text, wkst: u8)
    requires { Room text.old.place (parts_behind (unless (eqb wkst 0) (both 4 (number wkst)))) }
    ensures { Puts text.old (parts_behind (unless (eqb wkst 0) (both 4 (number wkst)))) text.new }
{
    if wkst == 0 {
        return;
    }
    text.put_word(b";WKST=");
    text.put_weekday(wkst as u32);
}

// Entries, each behind a comma.
fn put_more(text: &mut Text, entries: &[i16])
    requires { Room text.old.place (entries_behind signed_text entries.now) }
    ensures { Puts text.old (entries_behind signed_text entries.now) text.new }
{
    for entry in entries {
        text.put_byte(b',');
        text.put_signed(*entry);
    }
}

// A list, if it isn't empty.
pub(crate) fn put_list(text: &mut Text, name: &[u8], list: &[i16])
    requires { Room text.old.place (list_bytes name.now list.now) }
    ensures { Puts text.old (list_bytes name.now list.now) text.new }
{
    if let [first, more @ ..] = list {
        text.put_word(name);
        text.put_signed(*first);
        put_more(text, more);
    }
}

// A weekday's number without its sign; below 0 there is none.
fn weekday_number(value: i16) -> u32
    ensures { result ≡ weekday_number value }
{
    u32::try_from(value).unwrap_or(0)
}

// What stands before a weekday: nothing where it is every such weekday.
// 0 and no Option: BYDAY's i16 list holds 0 for every such weekday, as `ByLists` and the C interface have it.
fn put_nth(text: &mut Text, nth: i16)
    requires { Room text.old.place (nth_text nth) }
    ensures { Puts text.old (nth_text nth) text.new }
{
    if nth == 0 {
        return;
    }
    text.put_signed(nth);
}

// An entry of BYDAY.
fn put_day(text: &mut Text, nth: i16, weekday: i16)
    requires { Room text.old.place (day_text (both nth (weekday_number weekday))) }
    ensures { Puts text.old (day_text (both nth (weekday_number weekday))) text.new }
{
    put_nth(text, nth);
    text.put_weekday(weekday_number(weekday));
}

// Entries of BYDAY, each behind a comma.
// Here and below BYDAY's halves are two lists, as `ByLists` and the C interface have them.
fn put_more_days(text: &mut Text, ns: &[i16], ws: &[i16])
    requires { Room text.old.place (entries_behind day_text (paired ns.now ws.now)) }
    ensures { Puts text.old (entries_behind day_text (paired ns.now ws.now)) text.new }
{
    for (nth, weekday) in ns.iter().zip(ws) {
        text.put_byte(b',');
        put_day(text, *nth, *weekday);
    }
}

// BYDAY, if it isn't empty.
pub(crate) fn put_days(text: &mut Text, ns: &[i16], ws: &[i16])
    requires { Room text.old.place (parts_behind (day_part (paired ns.now ws.now))) }
    ensures { Puts text.old (parts_behind (day_part (paired ns.now ws.now))) text.new }
{
    if let ([nth, more_ns @ ..], [weekday, more_ws @ ..]) = (ns, ws) {
        text.put_word(b";BYDAY=");
        put_day(text, *nth, *weekday);
        put_more_days(text, more_ns, more_ws);
    }
}
