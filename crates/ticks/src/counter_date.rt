// The search for the next tick of the day that passes. It knows ticks alone: no day, no counter, no k.
ghost use Rattle.std.specs.Prelude.{◌≡◌, ◌+◌, ◌%◌, ◌<◌, ◌≤◌};
ghost use Rattle.rule.specs.Moves.{ticks};
ghost use Rattle.ticks.specs.Ticks.{tick_is_in, next_tick};

use rule::rrule::Frequency;

// A tick that passes, and how many periods on it is.
#[derive(Clone, Copy)]
pub struct Hit {
    pub periods: u64,
    pub tick: u64,
}

// How many periods a day has.
pub fn ticks_of(freq: Frequency) -> u64
    ensures { result ≡ ticks freq }
{
    match freq {
        Frequency::Yearly | Frequency::Monthly | Frequency::Weekly | Frequency::Daily => 1,
        Frequency::Hourly => 24,
        Frequency::Minutely => 1440,
        Frequency::Secondly => 86400,
    }
}

// What a step adds to the tick: itself without its whole days. Most have none, and cost no division.
fn hop_of(step: u64, perday: u64) -> u64
    requires { 0 < perday }
    ensures { result ≡ step % perday }
{
    if step < perday {
        return step;
    }
    step % perday
}

// The tick of the next period: a hop further, with one carry at midnight.
// No `%`: the search asks it at each tick, and a division costs more than the test.
fn tick_after(tick: u64, perday: u64, hop: u64) -> u64
    requires { (tick < perday) × (hop < perday) × (perday ≤ 86400) }
    ensures { result ≡ (tick + hop) % perday }
{
    let sum = tick + hop;
    if sum < perday {
        return sum;
    }
    sum - perday
}

// Whether a tick passes, as far as the frequency fixes hour, minute and second. Of a second the minute is asked first: with BYMINUTE alone
// that settles most ticks in one look.
#[tactic(auto, unfolding(crate::specs::Ticks::tick_is_in))]
fn tick_passes(freq: Frequency, tick: u64, clock: &[bool; 144]) -> bool
    requires { tick < ticks freq }
    ensures { result ≡ tick_is_in freq clock.now tick }
{
    match freq {
        Frequency::Yearly | Frequency::Monthly | Frequency::Weekly | Frequency::Daily => true,
        Frequency::Hourly => clock[tick as usize],
        Frequency::Minutely => clock[(tick / 60) as usize] && clock[24 + (tick % 60) as usize],
        Frequency::Secondly => {
            let second = tick as u32;
            let minutes = second / 60;
            clock[24 + (minutes % 60) as usize]
                && clock[(minutes / 60) as usize]
                && clock[84 + (second % 60) as usize]
        }
    }
}

// The first later tick that passes, a step of INTERVAL from tick to tick; the clock has the flags of the hours, minutes and seconds that pass,
// in a row. The ticks repeat with the day, so a search of one cycle is enough. What is no tick of the day has none.
pub fn find_tick(freq: Frequency, interval: u64, tick: u64, clock: &[bool; 144]) -> Option<Hit>
    ensures { result ≡ next_tick freq interval tick clock.now }
{
    let perday = ticks_of(freq);
    if perday <= tick {
        return None;
    }
    let hop = hop_of(interval, perday);
    let mut at = tick;
    for periods in 1..perday + 1 {
        at = tick_after(at, perday, hop);
        if tick_passes(freq, at, clock) {
            return Some(Hit { periods, tick: at });
        }
    }
    None
}
