// A rule's text, whole.
ghost use Rattle.std.specs.Prelude.{◌≡◌, ◌≤◌, length};
ghost use Rattle.std.proofs.lemmas.List.Edits.{sets};
ghost use Rattle.rule.specs.Raw.{lists_of, raw_of};
ghost use Rattle.rule.specs.Refusals.{verdict};
ghost use Rattle.recur.specs.Writing.{text_of, written_of, text_left};
ghost use Rattle.recur.specs.Claims.{UntilInRange};
ghost use Rattle.puts.specs.Put.{Puts, Room};
ghost use Rattle.display.specs.Parts.{head_bytes, day_bytes, time_bytes, FittedIn};

use crate::parts::{put_count, put_days, put_freq, put_interval, put_list, put_until, put_wkst};
use puts::bytes::Text;
use recur::Unwritten;
use rule::rrule::{ByLists, Unvalidated};
use validator::validate_rrule::verdict_of;

// FREQ, and what isn't a list.
fn put_head(text: &mut Text, given: &Unvalidated)
    requires { UntilInRange given.now.until × Room text.old.place (head_bytes (raw_of given.now 0)) }
    ensures { Puts text.old (head_bytes (raw_of given.now 0)) text.new }
{
    put_freq(text, given.freq);
    put_interval(text, given.interval);
    put_count(text, given.count);
    put_until(text, given.until);
    put_wkst(text, given.wkst);
}

// The lists of months, days and weeks.
fn put_day_lists(text: &mut Text, lists: &ByLists)
    requires { Room text.old.place (day_bytes (lists_of lists.now)) }
    ensures { Puts text.old (day_bytes (lists_of lists.now)) text.new }
{
    put_list(text, b";BYMONTH=", lists.bymonth);
    put_list(text, b";BYMONTHDAY=", lists.bymonthday);
    put_list(text, b";BYYEARDAY=", lists.byyearday);
    put_list(text, b";BYWEEKNO=", lists.byweekno);
    put_days(text, lists.bydayn, lists.bydayw);
}

// The lists of hours, minutes and seconds, and the positions.
fn put_time_lists(text: &mut Text, lists: &ByLists)
    requires { Room text.old.place (time_bytes (lists_of lists.now)) }
    ensures { Puts text.old (time_bytes (lists_of lists.now)) text.new }
{
    put_list(text, b";BYHOUR=", lists.byhour);
    put_list(text, b";BYMINUTE=", lists.byminute);
    put_list(text, b";BYSECOND=", lists.bysecond);
    put_list(text, b";BYSETPOS=", lists.bysetpos);
}

// The whole text.
fn put_rule(text: &mut Text, given: &Unvalidated)
    requires { UntilInRange given.now.until × Room text.old.place (text_of (raw_of given.now 0)) }
    ensures { Puts text.old (text_of (raw_of given.now 0)) text.new }
{
    put_head(text, given);
    put_day_lists(text, &given.lists);
    put_time_lists(text, &given.lists);
}

// The whole text, from a buffer's first byte on, as far as it reaches; how long the text is.
// The length is answered apart from the lent buffer: `write` promises it of a buffer that is too short, too (`written_of`).
fn put_first(given: &Unvalidated, bytes: &mut [u8]) -> usize
    requires { UntilInRange given.now.until × Room 0 (text_of (raw_of given.now 0)) }
    ensures needed { result ≡ length (text_of (raw_of given.now 0)) }
    ensures stands { bytes.new ≡ sets bytes.old 0 (text_of (raw_of given.now 0)) }
{
    let mut text = Text { bytes, place: 0 };
    put_rule(&mut text, given);
    text.place
}

// What the types of two numbers say of them; of a rule behind a reference it isn't told.
fn within_types(interval: u16, times: u32)
    ensures interval { interval ≤ 65535 }
    ensures times { times ≤ 4294967295 }
{}

// The text of a rule that the check takes: measured by writing it into nothing, and written where there is room for it.
fn write_fitting(given: &Unvalidated, text: &mut [u8]) -> Result<usize, Unwritten>
    requires { verdict (raw_of given.now 0) ≡ Ok tt }
    ensures { FittedIn (text_of (raw_of given.now 0)) text.old text.new result }
{
    within_types(given.interval, given.count.unwrap_or(0));
    let needed = put_first(given, &mut text[..0]);
    if text.len() < needed {
        return Err(Unwritten::Short(needed));
    }
    Ok(put_first(given, text))
}

// First the check, for start 0, then the length; with either refusal every byte is as it was.
pub fn write(given: &Unvalidated, text: &mut [u8]) -> Result<usize, Unwritten>
    ensures { (result ≡ written_of (raw_of given.now 0) (length text.old)) × (text.new ≡ text_left (raw_of given.now 0) text.old) }
{
    verdict_of(given, 0)?;
    write_fitting(given, text)
}
