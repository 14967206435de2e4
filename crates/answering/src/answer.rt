// The answer of a line.
use crate::chain::{Chain, Cut};
use crate::{alike, chain};
use basics::rrule::fresh;
use machine::Cursor;
use output::Out;
use rule::rrule::{Refusal, Rule};
use shown::{ShownRecord, ShownRefusal};
use validator::validate_rrule::blank_rule;
use words::Line;

// Writes the answer of a line without its end.
pub(crate) fn write_line(text: &[u8], known: bool, out: &mut Out) {
    if text.is_empty() {
        return;
    }
    match words::read(text, known) {
        Ok(line) => write_answer(&line, known, out),
        Err(bad) => out.put(bad),
    }
}

fn write_answer(line: &Line, known: bool, out: &mut Out) {
    let checked = asked::checked_in(line);
    if line.is_shown {
        return write_checked(checked, out);
    }
    match checked {
        Ok(rule) => write_run(&rule, line, known, out),
        Err(refusal) => out.put(ShownRefusal(refusal)),
    }
}

// The record that the check answers; where it refuses, which gives none, a blank one stands beside the refusal.
fn write_checked(checked: Result<Rule, Refusal>, out: &mut Out) {
    match checked {
        Ok(rule) => {
            out.put("accepted");
            out.put(ShownRecord(&rule));
        }
        Err(refusal) => {
            out.put(ShownRefusal(refusal));
            out.put(ShownRecord(&blank_rule()));
        }
    }
}

// Makes the calls of a line, and writes what they come to.
fn write_run(rule: &Rule, line: &Line, known: bool, out: &mut Out) {
    let mut buffer = [0; 4096];
    let from = line.cursor.unwrap_or_else(|| fresh(rule));
    let last = chain::run(rule, from, cut_of(line), known, &mut buffer, out);
    if known {
        hold_chains(rule, from, line.room, last, out);
    }
}

fn cut_of(line: &Line) -> Cut {
    Cut {
        room: line.room,
        moves: line.moves,
        calls: line.calls,
        most: u64::MAX,
        turns: false,
    }
}

// Where a chain isn't answered alike, or the rest of the buffer is changed, the answer is that alone.
fn hold_chains(rule: &Rule, from: Cursor, room: u32, last: Chain, out: &mut Out) {
    let chained = alike::is_chained(room, last);
    let alike = !chained || alike::are_alike(rule, from, room, out.waiting.as_slice());
    if !last.is_kept || !alike {
        out.waiting.clear();
        out.put("astray");
    } else if chained {
        out.put(" chains=36");
    }
}
