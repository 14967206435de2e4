// Bytes on their way to standard output.
#![tactic(auto)]

ghost use Rattle.std.specs.Prelude.{◌≡◌, ◌<◌, ◌≤◌, [], ◌∷◌, ◌++◌, length};

use arrayvec::ArrayVec;
use std::fmt;
use std::fmt::{Display, Write};

// So many bytes are written at once.
const SIZE: usize = 65536;

// Bytes that wait to be written.
#[derive(Drop)]
pub struct Out {
    pub waiting: ArrayVec<u8, SIZE>,
    pub ghost bounded: { length waiting.items ≤ 65536 },
}

impl Out {
    pub fn new() -> Self
        ensures { result.waiting.items ≡ [] }
    {
        Out {
            waiting: ArrayVec::new(),
        }
    }

    // Puts a byte behind those that wait. Where there is no room, they are written first.
    pub fn push(&mut self, byte: u8)
        ensures room { length self.old.waiting.items < 65536 → self.new.waiting.items ≡ self.old.waiting.items ++ byte ∷ [] }
        ensures full { 65536 ≤ length self.old.waiting.items → self.new.waiting.items ≡ byte ∷ [] }
    {
        if self.waiting.is_full() {
            self.flush();
        }
        self.waiting.push(byte);
    }

    // Puts a value as text. Writing into memory doesn't fail.
    pub fn put<D: Display + Drop>(&mut self, value: D)
        ensures { length self.new.waiting.items ≤ 65536 }
    {
        let _ = write!(self, "{value}");
    }

    // Writes what waits.
    pub fn flush(&mut self)
        ensures { self.new.waiting.items ≡ [] }
    {
        io::write_all(1, self.waiting.as_slice());
        self.waiting.clear();
    }
}

impl Write for Out {
    fn write_str(&mut self, text: &str) -> fmt::Result {
        for byte in text.as_bytes() {
            self.push(*byte);
        }
        Ok(())
    }
}
