// Moments: a date and a time of the day.
ghost use Rattle.std.specs.Prelude.{◌≤◌, ◌/◌, [], ◌∷◌, ◌++◌};
ghost use Rattle.calendar.specs.Calendar.{date_of};
ghost use Rattle.rule.specs.Instants.{last_instant};
ghost use Rattle.recur.specs.Writing.{date_text, clock_text, moment_text};
ghost use Rattle.puts.specs.Put.{Puts, Room};

use crate::bytes::Text;
use calendar::utils::EPOCH;
use dates::utils::date_from_ordinal;

impl Text<'_> {
    // The date of a day.
    fn put_date(&mut self, day: u32)
        requires { Room self.old.place (date_text (date_of day)) }
        ensures { Puts self.old (date_text (date_of day)) self.new }
    {
        let date = date_from_ordinal(day);
        self.put_four(date.year);
        self.put_two(date.month as u32);
        self.put_two(date.day as u32);
    }

    // The time of the day.
    fn put_clock(&mut self, second: u64)
        requires { Room self.old.place (clock_text second) }
        ensures { Puts self.old (clock_text second) self.new }
    {
        self.put_two((second % 86400 / 3600) as u32);
        self.put_two((second % 3600 / 60) as u32);
        self.put_two((second % 60) as u32);
    }

    // An instant, as a date and a time with T between them and Z behind.
    pub fn put_moment(&mut self, instant: u64)
        requires { (instant ≤ last_instant) × Room self.old.place (moment_text instant) }
        ensures { Puts self.old (moment_text instant) self.new }
    {
        let second = instant + EPOCH;
        self.put_date((second / 86400) as u32);
        self.put_byte(b'T');
        self.put_clock(second);
        self.put_byte(b'Z');
    }
}
