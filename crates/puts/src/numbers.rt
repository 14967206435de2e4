// Numbers in digits.
ghost use Rattle.recur.specs.Writing.{decimal, padded, signed_text};
ghost use Rattle.puts.specs.Put.{Puts, Room};

use crate::bytes::Text;

impl Text<'_> {
    // A number without zeros in front.
    // Digits by hand, here and below: `write!` would answer a Result that is never Err, and `{:02}` cuts no number to its last digits.
    pub fn put_number(&mut self, number: u32)
        requires { Room self.old.place (decimal number) }
        ensures { Puts self.old (decimal number) self.new }
    {
        if number < 10 {
            self.put_byte((48 + number) as u8);
        } else {
            self.put_number(number / 10);
            self.put_byte((48 + number % 10) as u8);
        }
    }

    // A number in two digits, and in four: its last ones.
    pub fn put_two(&mut self, number: u32)
        requires { Room self.old.place (padded 2 number) }
        ensures { Puts self.old (padded 2 number) self.new }
    {
        self.put_pair((48 + number / 10 % 10) as u8, (48 + number % 10) as u8);
    }

    pub fn put_four(&mut self, number: u32)
        requires { Room self.old.place (padded 4 number) }
        ensures { Puts self.old (padded 4 number) self.new }
    {
        self.put_two(number / 100);
        self.put_two(number);
    }

    // A number with its sign, if it has one.
    pub fn put_signed(&mut self, value: i16)
        requires { Room self.old.place (signed_text value) }
        ensures { Puts self.old (signed_text value) self.new }
    {
        if value < 0 {
            self.put_byte(b'-');
        }
        self.put_number(value.unsigned_abs() as u32);
    }
}
