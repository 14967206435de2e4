// A rule's text, read and checked with a start.
#![tactic(auto)]

ghost use Rattle.std.specs.Prelude.{◌≡◌};
ghost use Rattle.rule.specs.Filling.{checked};
ghost use Rattle.recur.specs.Parsed.{parsed_of};
ghost use Rattle.recur.specs.Shown.{slots_of};
ghost use Rattle.parsed.specs.Outlined.{Full, LongEnough, rule_with};

use parser::rule_content_line::read;
use recur::{Outline, Slots, Unparsed};
use rule::rrule::{ByLists, Refusal, Rule, Unvalidated};
use validator::validate_rrule::check;

// Slots that nothing is read into yet.
// Written out: there is no `Default` of an array of 749, so none to derive for `Slots`.
fn empty_slots() -> Slots
    ensures { Full (slots_of result) }
{
    Slots {
        bymonth: [0; 749],
        bymonthday: [0; 749],
        byyearday: [0; 749],
        byweekno: [0; 749],
        bydayn: [0; 749],
        bydayw: [0; 749],
        byhour: [0; 749],
        byminute: [0; 749],
        bysecond: [0; 749],
        bysetpos: [0; 749],
    }
}

// Checks the rule of an outline, whose entries stand in the first slots of the lists.
// The lengths stand beside the slots, as `Outline` tells.
fn check_outline(outline: Outline, slots: &Slots, start: u64) -> Result<Rule, Refusal>
    requires { LongEnough outline (slots_of slots.now) }
    ensures { result ≡ checked (rule_with outline start (slots_of slots.now)) }
{
    let given = Unvalidated {
        freq: outline.freq,
        interval: outline.interval,
        count: outline.count,
        until: outline.until,
        wkst: outline.wkst,
        lists: ByLists {
            bymonth: &slots.bymonth[..outline.bymonth],
            bymonthday: &slots.bymonthday[..outline.bymonthday],
            byyearday: &slots.byyearday[..outline.byyearday],
            byweekno: &slots.byweekno[..outline.byweekno],
            bydayn: &slots.bydayn[..outline.byday],
            bydayw: &slots.bydayw[..outline.byday],
            byhour: &slots.byhour[..outline.byhour],
            byminute: &slots.byminute[..outline.byminute],
            bysecond: &slots.bysecond[..outline.bysecond],
            bysetpos: &slots.bysetpos[..outline.bysetpos],
        },
    };
    check(&given, start)
}

// Reads a text and checks the rule with the start.
pub fn parsed(text: &[u8], start: u64) -> Result<Rule, Unparsed>
    ensures { result ≡ parsed_of text.now start }
{
    let mut slots = empty_slots();
    let outline = read(text, &mut slots)?;
    Ok(check_outline(outline, &slots, start)?)
}
