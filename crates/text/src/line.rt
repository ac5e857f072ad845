// The line buffer: the bytes of a line that is being read, 200 at most, and none once the line has more. A contract sees a Line as these bytes.
ghost use Rattle.std.specs.Prelude.{Option, List, [], ◌∷◌, ◌++◌, ◌≡◌, ℕ};
ghost use Rattle.std.specs.Option.{option_copied};
ghost use Rattle.text.specs.Line.{Reads};

use std::marker::Model;

// The first `count` of `bytes` are the line's; no count where it is too long. All other bytes are zero: so the line's bytes say what a Line holds, as Copy asks.
#[derive(Clone, Copy)]
pub struct Line {
    bytes: [u8; 200],
    count: Option<usize>,
}

impl Model for Line {
    ghost use Rattle.std.specs.Prelude.{Option, List, [], ℕ, take, length};
    ghost use Rattle.std.specs.Option.{option_map, unwrap_or};
    ghost use Rattle.text.specs.Padding.{Padded, padded, some_back, some_length};

    ghost Value = { Option (List ℕ) };

    ghost view = { λ l. option_map (λ n. take n l.bytes) l.count };

    ghost invariant = { λ l. Padded 200 (unwrap_or l.count 0) l.bytes };

    ghost inverse = { λ v. record { bytes = padded 200 (unwrap_or v []); count = option_map length v } };

    ghost inverse_ok = { λ l h i. record { bytes = some_back l.count h i; count = some_length l.count h i } };
}

impl Line {
    // A line of which nothing has been read.
    pub fn fresh() -> Line
        ensures { Reads result [] }
    {
        Line {
            bytes: [0u8; 200],
            count: Some(0),
        }
    }

    // One byte more of the line.
    pub fn push(&mut self, b: u8)
        ensures { (p : List ℕ) → Reads self.old p → Reads self.new (p ++ (b ∷ [])) }
    {
        self.count = match self.count {
            Some(count) if count < 200 => {
                self.bytes[count] = b;
                Some(count + 1)
            }
            Some(_) => {
                self.bytes = [0u8; 200];
                None
            }
            None => None,
        };
    }

    // The line's bytes; none if it is too long.
    pub fn text(&self) -> Option<&[u8]>
        ensures { option_copied result ≡ self.now }
    {
        match self.count {
            Some(count) => Some(&self.bytes[..count]),
            None => None,
        }
    }
}
