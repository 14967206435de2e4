// A text as it is written, its bytes and words.
ghost use Rattle.std.specs.Prelude.{[], ◌∷◌};
ghost use Rattle.puts.specs.Put.{Puts, Room};

// A text as it is written: its bytes, and the place of the next one.
// The place goes on past the end, so it is the length of no slice: `Puts` counts bytes that have no place, and a text is measured so.
#[derive(Drop)]
pub struct Text<'a> {
    pub bytes: &'a mut [u8],
    pub place: usize,
}

impl Text<'_> {
    // One byte.
    pub fn put_byte(&mut self, byte: u8)
        requires { Room self.old.place (byte ∷ []) }
        ensures { Puts self.old (byte ∷ []) self.new }
    {
        if self.place < self.bytes.len() {
            self.bytes[self.place] = byte;
        }
        self.place += 1;
    }

    // Two bytes.
    pub fn put_pair(&mut self, first: u8, second: u8)
        requires { Room self.old.place (first ∷ (second ∷ [])) }
        ensures { Puts self.old (first ∷ (second ∷ [])) self.new }
    {
        self.put_byte(first);
        self.put_byte(second);
    }

    // A word, as far as the text reaches.
    pub fn put_word(&mut self, word: &[u8])
        requires { Room self.old.place word.now }
        ensures { Puts self.old word.now self.new }
    {
        if self.place < self.bytes.len() {
            let fitting = word.len().min(self.bytes.len() - self.place);
            self.bytes[self.place..self.place + fitting].copy_from_slice(&word[..fitting]);
        }
        self.place += word.len();
    }
}
