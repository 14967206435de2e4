// The edge to C: the check, the fresh cursor and the run, on numbers and slices. A record and a cursor cross as bytes, which are read by
// functions that are total: whatever bytes come, the answer is one of those that include/yomaveludge.h lists.
#![tactic(auto)]

ghost use Rattle.std.specs.Prelude.{◌≡◌};
ghost use Rattle.rule.specs.Raw.{raw, raw_lists};
ghost use Rattle.rule.specs.Records.{yielded};
ghost use Rattle.edge.specs.Layout.{count_from, until_from};
ghost use Rattle.edge.specs.Edge.{said, check_says, fresh_says, shown, run_says, stop_number, is_refused, unreadable};

use basics::faults::fault_number;
use basics::rrule::{fresh, refusal_number};
use cursor_layout::cursor::{decode_cursor, put_cursor, state_number};
use listing::rrule_iter::run;
use machine::{Fault, Stop};
use record_layout::record::{is_record_bytes, put_record, record_in};
use records::is_record;
use rule::rrule::{ByLists, Rule, Unvalidated};
use validator::validate_rrule::check;

const BAD_RECORD: u8 = Fault::Record as u8;

const BAD_CURSOR: u8 = Fault::Cursor as u8;

// The check. COUNT is absent where `counted` is 0, and UNTIL where `bounded` is 0.
// These numbers, flags and slices are the C interface (include/yomaveludge.h), which may not change.
#[unsafe(no_mangle)]
pub extern "C" fn yomaveludge_check(
    freq: u8,
    interval: u16,
    counted: u8,
    count: u32,
    bounded: u8,
    until: u64,
    wkst: u8,
    start: u64,
    bymonth: &[i16],
    bymonthday: &[i16],
    byyearday: &[i16],
    byweekno: &[i16],
    bydayn: &[i16],
    bydayw: &[i16],
    byhour: &[i16],
    byminute: &[i16],
    bysecond: &[i16],
    bysetpos: &[i16],
    rulebytes: &mut [u8],
) -> u8
    ensures { said result rulebytes.new ≡ check_says (raw freq interval (count_from counted count) (until_from bounded until) wkst start (raw_lists bymonth.now bymonthday.now byyearday.now byweekno.now bydayn.now bydayw.now byhour.now byminute.now bysecond.now bysetpos.now)) rulebytes.old }
{
    let lists = ByLists {
        bymonth,
        bymonthday,
        byyearday,
        byweekno,
        bydayn,
        bydayw,
        byhour,
        byminute,
        bysecond,
        bysetpos,
    };
    let given = Unvalidated {
        freq,
        interval,
        count: (counted != 0).then_some(count),
        until: (bounded != 0).then_some(until),
        wkst,
        lists,
    };
    match check(&given, start) {
        Err(refusal) => refusal_number(refusal),
        Ok(rule) => {
            if put_record(&rule, rulebytes) {
                0
            } else {
                BAD_RECORD
            }
        }
    }
}

// The fresh cursor of a record.
#[unsafe(no_mangle)]
pub extern "C" fn yomaveludge_fresh(rulebytes: &[u8], cursorbytes: &mut [u8]) -> u8
    ensures { said result cursorbytes.new ≡ fresh_says rulebytes.now cursorbytes.old }
{
    if !is_record_bytes(rulebytes) {
        return BAD_RECORD;
    }
    let rule = record_in(rulebytes);
    if !is_record(&rule) {
        return BAD_RECORD;
    }
    if put_cursor(fresh(&rule), cursorbytes) {
        0
    } else {
        BAD_CURSOR
    }
}

// No `as`: a refused stop has its fault's number, and the others are those of include/yomaveludge.h (clause `stop_number`).
fn stop_number(stop: Stop) -> u8
    ensures { result ≡ stop_number stop }
{
    match stop {
        Stop::More => 100,
        Stop::Limited => 101,
        Stop::Ended => 102,
        Stop::Refused(fault) => fault_number(fault),
    }
}

fn is_refused(stop: Stop) -> bool
    ensures { result ≡ is_refused stop }
{
    matches!(stop, Stop::Refused(_))
}

// The refusal where no cursor can be read: a bad record's number is the lower one.
fn unreadable_number(rule: &Rule) -> u8
    ensures { result ≡ unreadable (yielded rule.now) }
{
    if is_record(rule) {
        BAD_CURSOR
    } else {
        BAD_RECORD
    }
}

// The run. `made`, `handed` and `cause` take the moves made, the count handed out and the cause's number.
// These parameters are the C interface (include/yomaveludge.h), which may not change.
#[unsafe(no_mangle)]
pub extern "C" fn yomaveludge_run(
    rulebytes: &[u8],
    cursorbytes: &mut [u8],
    buffer: &mut [u64],
    moves: u32,
    made: &mut u32,
    handed: &mut usize,
    cause: &mut u8,
) -> u8
    ensures { shown result cursorbytes.new buffer.new made.new handed.new cause.new ≡ run_says rulebytes.now cursorbytes.old buffer.old moves }
{
    *made = 0;
    *handed = 0;
    *cause = 0;
    if !is_record_bytes(rulebytes) {
        return BAD_RECORD;
    }
    let rule = record_in(rulebytes);
    let Some(cursor) = decode_cursor(cursorbytes) else {
        return unreadable_number(&rule);
    };
    let answer = run(&rule, cursor, buffer, moves);
    let stop = answer.stop;
    let number = stop_number(stop);
    if is_refused(stop) {
        return number;
    }
    put_cursor(answer.cursor, cursorbytes);
    *made = answer.moves;
    *handed = answer.handed;
    *cause = state_number(answer.cursor.state);
    number
}
