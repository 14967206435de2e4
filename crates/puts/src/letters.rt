// The words of a text.
ghost use Rattle.symbols.specs.Languages.{word_at};
ghost use Rattle.recur.specs.Grammar.{frequencies, weekday_names};
ghost use Rattle.puts.specs.Put.{Puts, Room};

use crate::bytes::Text;

impl Text<'_> {
    // A weekday's two letters, and none where there is no such weekday.
    // By number, as `word_at` in the clause: an enum would be a narrower type, and a number above 6 puts nothing.
    pub fn put_weekday(&mut self, weekday: u32)
        requires { Room self.old.place (word_at weekday_names weekday) }
        ensures { Puts self.old (word_at weekday_names weekday) self.new }
    {
        match weekday {
            0 => self.put_pair(b'M', b'O'),
            1 => self.put_pair(b'T', b'U'),
            2 => self.put_pair(b'W', b'E'),
            3 => self.put_pair(b'T', b'H'),
            4 => self.put_pair(b'F', b'R'),
            5 => self.put_pair(b'S', b'A'),
            6 => self.put_pair(b'S', b'U'),
            _ => {}
        }
    }

    // A frequency's name, and none where there is no such frequency.
    // By number, as `word_at` in the clause: an enum would be a narrower type, and a number above 6 puts nothing.
    pub fn put_frequency(&mut self, freq: u8)
        requires { Room self.old.place (word_at frequencies freq) }
        ensures { Puts self.old (word_at frequencies freq) self.new }
    {
        match freq {
            0 => self.put_word(b"YEARLY"),
            1 => self.put_word(b"MONTHLY"),
            2 => self.put_word(b"WEEKLY"),
            3 => self.put_word(b"DAILY"),
            4 => self.put_word(b"HOURLY"),
            5 => self.put_word(b"MINUTELY"),
            6 => self.put_word(b"SECONDLY"),
            _ => {}
        }
    }
}
