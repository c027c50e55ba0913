// Text in a lent buffer: bytes and decimal numbers, put one behind the other.
// What the buffer does not reach is not put but counted, so a buffer of no bytes measures a text.
#![tactic(auto)]

ghost use Rattle.std.specs.Prelude.{◌∷◌, [], ◌++◌, ◌+◌, ◌≤◌, ◌<◌, ◌^◌, length};
ghost use Rattle.text.specs.Spelling.{spelling};
ghost use Rattle.text.specs.Writing.{Puts};

// A buffer, and the position behind all that was put into it.
#[derive(Drop)]
pub struct Text<'a> {
    pub out: &'a mut [u8],
    pub at: usize,
}

impl Text<'_> {
    // Puts a byte.
    pub fn put_byte(&mut self, byte: u8)
        requires { self.old.at + 1 < 2 ^ 64 }
        ensures { Puts self.old (byte ∷ []) self.new }
    {
        if self.at < self.out.len() {
            self.out[self.at] = byte;
        }
        self.at += 1;
    }

    // Puts bytes.
    pub fn put_bytes(&mut self, bytes: &[u8])
        requires { self.old.at + length bytes.now < 2 ^ 64 }
        ensures { Puts self.old bytes.now self.new }
    {
        for byte in bytes {
            self.put_byte(*byte);
        }
    }

    // Puts a number's spelling, of at most 20 bytes.
    pub fn put_number(&mut self, number: u64)
        requires { self.old.at < 2 ^ 63 }
        ensures puts { Puts self.old (spelling number) self.new }
        ensures upper_bound { self.new.at ≤ self.old.at + 20 }
    {
        let more = number >= 10;
        if more {
            self.put_number(number / 10);
        }
        self.put_byte(b'0' + (number % 10) as u8);
    }

    // Puts a number's spelling and a word behind it.
    pub fn put_number_then(&mut self, number: u64, word: &[u8])
        requires { (self.old.at < 2 ^ 62) × (length word.now < 2 ^ 62) }
        ensures puts { Puts self.old (spelling number ++ word.now) self.new }
        ensures upper_bound { self.new.at ≤ self.old.at + 20 + length word.now }
    {
        self.put_number(number);
        self.put_bytes(word);
    }
}
