// The time sets of a rule: the hours, minutes and seconds that pass, as flags and as short rising lists.
// They stand in rows of 144 places: hour h at h, minute m at 24 + m, second s at 84 + s.
ghost use Rattle.std.specs.Prelude.{◌≡◌, ◌+◌, ◌≤◌, length};
ghost use Rattle.clocks.specs.Clocks.{written, or_all, clock_of, flagged, timeset_of};

use basics::lists::is_empty;
use times::iterinfo::Counts;

// The hours, minutes and seconds that pass, each rising, with zeros behind them, and how many there are.
// Lists with their counts beside them: no heap.
#[derive(Clone, Copy)]
pub struct TimeSet {
    pub lists: [u8; 144],
    pub counts: Counts,
}

// Which hours, minutes and seconds pass, by the sets of a rule: an empty set passes all.
pub fn get_clock<'a>(
    byhour: &'a [bool; 24],
    byminute: &'a [bool; 60],
    bysecond: &'a [bool; 60],
) -> [bool; 144]
    ensures { result ≡ clock_of byhour.now byminute.now bysecond.now }
{
    let mut flags = [false; 144];
    put(byhour, &mut flags, 0);
    put(byminute, &mut flags, 24);
    put(bysecond, &mut flags, 84);
    flags
}

// Writes a set into a row, from a place on; where it is empty, all of it.
// A row and a place: the clause `written` speaks of the whole row, and what stands beside the set stays.
fn put(set: &[bool], flags: &mut [bool], from: usize)
    requires { from + length set.now ≤ length flags.old }
    ensures { flags.new ≡ written flags.old from (or_all (length set.now) set.now) }
{
    let all = is_empty(set);
    for (i, flag) in set.iter().enumerate() {
        flags[from + i] = *flag | all;
    }
}

// The short lists of what passes.
pub fn get_timeset(flags: &[bool; 144]) -> TimeSet
    ensures { result ≡ timeset_of flags.now }
{
    let mut lists = [0; 144];
    let hours = collect(flags, 0, 24, &mut lists);
    let minutes = collect(flags, 24, 60, &mut lists);
    let seconds = collect(flags, 84, 60, &mut lists);
    let counts = Counts {
        hours,
        minutes,
        seconds,
    };
    TimeSet { lists, counts }
}

// Writes the numbers of the set flags, of so many from a place on, and says how many there are.
// A list with its count: no heap. It is counted by hand, since the count is the answer.
fn collect(flags: &[bool], from: usize, size: usize, list: &mut [u8]) -> u8
    requires { (size ≤ 60) × (from + size ≤ length flags.now) × (from + size ≤ length list.old) }
    ensures counts { result ≡ length (flagged from size flags.now) }
    ensures lists { list.new ≡ written list.old from (flagged from size flags.now) }
{
    let mut count: u8 = 0;
    for (i, flag) in flags[from..from + size].iter().enumerate() {
        if *flag {
            list[from + count as usize] = i as u8;
            count += 1;
        }
    }
    count
}
