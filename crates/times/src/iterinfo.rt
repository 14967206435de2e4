// The times of a period by number: what it has to choose from, how many times that makes, and each of them.
// Hours, minutes and seconds stand in rows of 144 places: hour h at h, minute m at 24 + m, second s at 84 + s.
ghost use Rattle.std.specs.Prelude.{◌≡◌, ◌/◌, false, get_or, if◌then◌else◌};
ghost use Rattle.times.specs.TimeSets.{count_of, open_of, times_len, time_at};

use rule::rrule::Frequency;

// How many hours, minutes and seconds there are to choose from.
#[derive(Clone, Copy)]
pub struct Counts {
    pub hours: u8,
    pub minutes: u8,
    pub seconds: u8,
}

// How many hours, minutes and seconds the period that begins at this second of its day has to choose from:
// all that pass, where its frequency is coarser, else the one that it fixes, if that passes.
pub fn open_times(freq: Frequency, begins: u32, flags: &[bool; 144], counts: Counts) -> Counts
    ensures { result ≡ open_of freq begins flags.now counts }
{
    let hour = flag_in(&flags[..24], begins / 3600);
    let minute = flag_in(&flags[24..84], begins / 60 % 60);
    let second = flag_in(&flags[84..144], begins % 60);
    Counts {
        hours: count_of(freq < Frequency::Hourly, counts.hours, hour),
        minutes: count_of(freq < Frequency::Minutely, counts.minutes, minute),
        seconds: count_of(freq < Frequency::Secondly, counts.seconds, second),
    }
}

// Whether a value passes; one that is too high doesn't.
fn flag_in(flags: &[bool], value: u32) -> bool
    ensures { result ≡ get_or flags.now value false }
{
    flags.get(value as usize).copied().unwrap_or(false)
}

// All that pass, or the one that is fixed, if that passes.
fn count_of(coarser: bool, count: u8, passes: bool) -> u8
    ensures { result ≡ count_of coarser count passes }
{
    if coarser {
        return count;
    }
    passes as u8
}

// How many times a period has.
pub fn times_len(counts: Counts) -> u32
    ensures { result ≡ times_len counts }
{
    (counts.hours as u32) * ((counts.minutes as u32) * (counts.seconds as u32))
}

// Time number t of the period that begins at this second of its day, counted from 0: a second of the day.
pub fn time_at(freq: Frequency, begins: u32, counts: Counts, lists: &[u8; 144], t: u32) -> u64
    ensures { result ≡ time_at freq begins counts lists.now t }
{
    let minutecount = counts.minutes as u32;
    let secondcount = counts.seconds as u32;
    let past = quotient(t, secondcount);
    let place = quotient(past, minutecount);
    let anyhour = freq < Frequency::Hourly;
    let hour = value_at(anyhour, &lists[..24], place, begins / 3600);
    let minuteplace = past - place * minutecount;
    let anyminute = freq < Frequency::Minutely;
    let minute = value_at(anyminute, &lists[24..84], minuteplace, begins / 60 % 60);
    let secondplace = t - past * secondcount;
    let anysecond = freq < Frequency::Secondly;
    let second = value_at(anysecond, &lists[84..144], secondplace, begins % 60);
    (hour as u64) * 3600 + ((minute as u64) * 60 + (second as u64))
}

// How often a count goes into a number, 0 where the count is 0: no `checked_div`, since a division costs more than the tests where it is plain.
pub fn quotient(number: u32, count: u32) -> u32
    ensures { result ≡ number / count }
{
    if number < count {
        return 0;
    }
    if count == 0 {
        return 0;
    }
    if count == 1 {
        return number;
    }
    number / count
}

// An entry of a list, 0 past its places; or the value that is fixed.
fn value_at(coarser: bool, list: &[u8], place: u32, fixed: u32) -> u32
    ensures { result ≡ (if coarser then get_or list.now place 0 else fixed) }
{
    if !coarser {
        return fixed;
    }
    list.get(place as usize).copied().unwrap_or(0) as u32
}
