// Two words compared: std's `==`, kept as a call of its own since docs/STATEMENTS.md names it.
ghost use Rattle.std.specs.Prelude.{◌≡◌};
ghost use Rattle.text.specs.Word.{sameb};

// Are the two words the same, byte for byte?
#[tactic(auto, using(crate::proofs::Words::same_is))]
pub fn same(a: &[u8], b: &[u8]) -> bool
    ensures { result ≡ sameb a.now b.now }
{
    a == b
}
