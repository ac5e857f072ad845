// Why a call says no. specs/Answers gives the number and the value of each answer.
ghost use Rattle.std.specs.Prelude.{◌≡◌};
ghost use Rattle.plane.specs.Answers.{refusal_number, number};

// Why a call says no, in the order of its numbers 1 to 7.
#[derive(Clone, Copy, PartialEq, Eq)]
pub enum Refusal {
    Lengths = 1,
    Sizes,
    NoTable,
    NoRule,
    Kind,
    Place,
    Full,
}

// The number of a refusal.
impl From<Refusal> for u64 {
    ghost from_gives = { λ r n. n ≡ refusal_number r };

    fn from(r: Refusal) -> u64 {
        r as u64
    }
}

// The number of the answer of a call that only changes what it is lent, 0 if it was accepted.
pub fn answer_number(a: Result<(), Refusal>) -> u64
    ensures { result ≡ number a }
{
    match a {
        Ok(()) => 0,
        Err(r) => u64::from(r),
    }
}
