// Decimal numbers: a part of a line read as one.
ghost use Rattle.std.specs.Prelude.{◌≡◌};
ghost use Rattle.text.specs.Number.{number_of};

// The number that a part is: decimal digits alone, of a value up to 65535.
#[tactic(auto, using(crate::proofs::Numbers::number_start, crate::proofs::Numbers::number_low, crate::proofs::Numbers::number_high, crate::proofs::Numbers::number_on, crate::proofs::Numbers::number_over, crate::proofs::Numbers::number_end))]
pub fn number_in(word: &[u8]) -> Option<u16>
    ensures { result ≡ number_of word.now }
{
    if word.is_empty() {
        return None;
    }
    let mut value: u16 = 0;
    for c in word {
        if *c < b'0' || *c > b'9' {
            return None;
        }
        value = value.checked_mul(10)?.checked_add(u16::from(c - b'0'))?;
    }
    Some(value)
}
