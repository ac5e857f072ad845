// Bytes written into a lent slice, one behind the other: single bytes, fixed words, and decimal numbers. Each call asks for Room for as many bytes
// as it puts, so that is no fact of the Writer.
ghost use Rattle.std.specs.Prelude.{[], ◌∷◌, ◌≡◌, ◌+◌, ◌≤◌, length};
ghost use Rattle.text.specs.Decimal.{decimal_in, decimal};
ghost use Rattle.text.specs.Put.{Puts, Room};

// The slice, and the place in it up to which it is written.
#[derive(Drop)]
pub struct Writer<'a> {
    pub out: &'a mut [u8],
    pub at: usize,
}

impl Writer<'_> {
    // Puts a byte.
    pub fn put_byte(&mut self, b: u8)
        requires { Room self.old 1 }
        ensures { Puts self.old self.new (b ∷ []) }
    {
        self.out[self.at] = b;
        self.at += 1;
    }

    // Puts a word.
    pub fn put_word(&mut self, word: &[u8])
        requires { Room self.old (length word.now) }
        ensures { Puts self.old self.new word.now }
    {
        let next = self.at + word.len();
        self.out[self.at..next].copy_from_slice(word);
        self.at = next;
    }

    // Puts n in decimal: 20 digits at most.
    pub fn put_decimal(&mut self, n: u64)
        requires { Room self.old 20 }
        ensures { (Puts self.old self.new (decimal n)) × (self.new.at ≤ self.old.at + 20) }
    {
        self.put_places(n, 20);
    }

    // Puts n's digits, at most k of them: those of n / 10, and then the last.
    fn put_places(&mut self, n: u64, k: usize)
        requires { Room self.old k }
        ensures { Puts self.old self.new (decimal_in k n) }
    {
        if k == 0 {
            return;
        }
        if n < 10 {
            self.put_byte(b'0' + n as u8);
            return;
        }
        self.put_places(n / 10, k - 1);
        self.put_byte(b'0' + (n % 10) as u8);
    }
}
