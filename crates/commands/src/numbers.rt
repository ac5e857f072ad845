// The numbers of a line: its parts after the first, each a number, and at most eight.
ghost use Rattle.std.specs.Prelude.{[], ◌∷◌, ◌++◌, ◌≡◌, ◌≤◌, length, MatchOption};
ghost use Rattle.commands.specs.Numbers.{Read};
ghost use Rattle.text.specs.Part.{parts_left};

use std::marker::Model;
use text::number::number_in;

// The numbers of a line, eight at most. A contract sees them as a list. The words behind the first `count` are zero: so the list says what a Numbers holds, as Copy asks.
#[derive(Clone, Copy)]
pub struct Numbers {
    words: [u16; 8],
    count: usize,
}

impl Model for Numbers {
    ghost use Rattle.std.specs.Prelude.{List, ℕ, take, length};
    ghost use Rattle.text.specs.Padding.{Padded, padded, padded_back, padded_length};

    ghost Value = { List ℕ };

    ghost view = { λ n. take n.count n.words };

    ghost invariant = { λ n. Padded 8 n.count n.words };

    ghost inverse = { λ v. record { words = padded 8 v; count = length v } };

    ghost inverse_ok = { λ n h i. record { words = padded_back h i; count = padded_length h i } };
}

impl Numbers {
    // No numbers yet.
    fn new() -> Numbers
        ensures { result ≡ [] }
    {
        Numbers {
            words: [0u16; 8],
            count: 0,
        }
    }

    // One number more, if there is room.
    fn push(&mut self, n: u16) -> Option<()>
        ensures { MatchOption result (8 ≤ length self.old) (λ _. self.new ≡ self.old ++ (n ∷ [])) }
    {
        if self.count >= 8 {
            return None;
        }
        self.words[self.count] = n;
        self.count += 1;
        Some(())
    }

    // The numbers, in the order in which they stand.
    pub fn as_slice(&self) -> &[u16]
        ensures { result.now ≡ self.now }
    {
        &self.words[..self.count]
    }

    // The numbers in what is left of a line where its first part has ended: a blank, and the parts behind it; none if no command takes them.
    pub fn of(left: &[u8]) -> Option<Numbers>
        ensures { Read result (parts_left left.now) }
    {
        let mut numbers = Numbers::new();
        let Some((_, line)) = left.split_first() else {
            return Some(numbers);
        };
        for part in line.split(|b| *b == b' ') {
            numbers.push(number_in(part)?)?;
        }
        Some(numbers)
    }
}
