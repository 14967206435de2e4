// A period opened: its candidates by number, and how many are kept.
ghost use Rattle.std.specs.Prelude.{◌≡◌, ◌≤◌, length};
ghost use Rattle.std.proofs.lemmas.List.Edits.{sets};
ghost use Rattle.days.specs.Filters.{rule_lists};
ghost use Rattle.days.specs.DaySets.{day_set};
ghost use Rattle.opening.specs.Opening.{tick_second, frame_of, kept_count, chosen_over, days_by, no_period, none_open, period_by, chosen_by};

use days::iterinfo::get_dayset;
use plain::iterinfo::{days_by_month, is_month_alone, is_plain, plain_days};
use plans::plan::{Plan, Shape};
use positions::pos_list::build_pos_list;
use rule::rrule::{Frequency, Rule};
use stretches::counter_date::Days;
use times::iterinfo::{open_times, times_len};
use units::unit::unit_of;
use walks::rrule_iter::Frame;
use years::iterinfo::IterInfo;
use years::lists::Asked;

// A period's frame, and how many of its candidates are kept.
#[derive(Clone, Copy)]
pub struct Period {
    pub frame: Frame,
    pub kept: u32,
}

// A period that is open: the places of its passing days and, with positions, the numbers of its kept candidates stand in the first slots; what
// stood in the slots behind them stays.
// Arrays with their counts in the period: no heap.
#[derive(Clone, Copy)]
pub struct OpenPeriod {
    pub period: Period,
    pub days: [u16; 373],
    pub places: [u32; 732],
}

// The passing days of a period. Where no list is asked, or BYMONTH alone, get_dayset, which is long, isn't called for each period.
// No heap: places in a lent array, and their count. The six stand apart as in get_dayset: the clause `day_set` names each.
fn period_days(
    asked: Asked,
    rule: &Rule,
    info: &IterInfo,
    from: usize,
    to: usize,
    days: &mut [u16; 373],
) -> usize
    ensures count { result ≡ length (day_set asked info.now (rule_lists rule.now) from to) }
    ensures places { days.new ≡ sets days.old 0 (day_set asked info.now (rule_lists rule.now) from to) }
{
    if is_plain(asked) {
        return plain_days(info.year.long, from, to, days);
    }
    if is_month_alone(asked) {
        return days_by_month(rule, info, from, to, days);
    }
    get_dayset(asked, rule, info, from, to, days)
}

// The second of its day at which a period with this tick begins; 0 where a day has no such tick.
// No Option: the clause `tick_second` has a second for every tick.
fn second_of_tick(freq: Frequency, tick: u64) -> u32
    ensures { result ≡ tick_second freq tick }
{
    if 86400 <= tick {
        return 0;
    }
    let second = tick * unit_of(freq);
    if 86400 <= second {
        return 0;
    }
    second as u32
}

// The frame of a period with so many passing days in the year that begins on the day first.
fn frame_of(shape: Shape, tick: u64, first: u64, days: usize, clock: &[bool; 144]) -> Frame
    ensures { result ≡ frame_of shape.freq shape.counts tick first days clock.now }
{
    let begins = second_of_tick(shape.freq, tick);
    let open = open_times(shape.freq, begins, clock, shape.counts);
    Frame {
        freq: shape.freq,
        begins,
        counts: open,
        first,
        days,
        times: times_len(open),
    }
}

// How many of a frame's candidates are kept; with positions, their numbers are written.
fn kept_of(positioned: bool, bysetpos: &[bool; 732], frame: Frame, places: &mut [u32; 732]) -> u32
    requires { (frame.days ≤ 373) × (frame.times ≤ 86400) }
    ensures count { result ≡ kept_count positioned bysetpos.now frame.days frame.times }
    ensures chosen { places.new ≡ chosen_over positioned bysetpos.now frame.days frame.times places.old }
{
    let all = (frame.days as u32) * frame.times;
    if !positioned {
        return all;
    }
    build_pos_list(bysetpos, all, places) as u32
}

// A period in which no candidate is kept.
fn none_kept(shape: Shape, first: u64) -> Period
    ensures { result ≡ no_period shape.freq shape.counts first }
{
    let frame = Frame {
        freq: shape.freq,
        begins: 0,
        counts: shape.counts,
        first,
        days: 0,
        times: 0,
    };
    Period { frame, kept: 0 }
}

// What is open before the first period: nothing is kept, and each slot is 0.
pub fn none_open(shape: Shape) -> OpenPeriod
    ensures { result ≡ none_open shape }
{
    OpenPeriod {
        period: none_kept(shape, 0),
        days: [0; 373],
        places: [0; 732],
    }
}

// Opens the period with this stretch of days and this tick, in the year that its first day lies in: the places of its passing days are
// written, and with positions those of its kept candidates. Where no day passes, as in many periods of a rule, no more is opened.
// A struct of what it is lent is no plainer: run_on alone would make it, anew at each turn, as stretch, tick and year change.
pub fn open_period(
    plan: &Plan,
    span: Days,
    tick: u64,
    rule: &Rule,
    info: &IterInfo,
    opened: &mut OpenPeriod,
)
    ensures period { opened.new.period ≡ period_by plan.now.shape info.now.year.first
        (length (days_by plan.now.shape info.now (rule_lists rule.now) span)) tick plan.now.clock rule.now.bysetpos }
    ensures days { opened.new.days ≡ sets opened.old.days 0 (days_by plan.now.shape info.now (rule_lists rule.now) span) }
    ensures places { opened.new.places ≡ chosen_by plan.now.shape info.now.year.first
        (length (days_by plan.now.shape info.now (rule_lists rule.now) span)) tick plan.now.clock rule.now.bysetpos opened.old.places }
{
    let shape = plan.shape;
    let first = info.year.first;
    let from = span.from.saturating_sub(first) as usize;
    let to = span.to.saturating_sub(first) as usize;
    let count = period_days(shape.asked, rule, info, from, to, &mut opened.days);
    if count == 0 {
        opened.period = none_kept(shape, first);
        return;
    }
    let frame = frame_of(shape, tick, first, count, &plan.clock);
    if 86400 < frame.times {
        opened.period = none_kept(shape, first);
        return;
    }
    let kept = kept_of(shape.positioned, &rule.bysetpos, frame, &mut opened.places);
    opened.period = Period { frame, kept };
}
