// The parts of a line between its blanks, and its end without blanks.
ghost use Rattle.std.specs.Prelude.{◌≡◌, length};
ghost use Rattle.text.specs.Part.{part_end, unblanked};

// Where the part ends that starts at `at`: at the first blank from there on, or at the line's end.
// As past_blanks (script.rt) with the other test: each is one chain, so nothing is left to share.
pub fn part_end(text: &[u8], at: usize) -> usize
    ensures { result ≡ part_end text.now at }
{
    at + text.iter().skip(at).take_while(|b| **b != b' ').count()
}

// How many bytes there are without the blanks at the end.
pub fn unblanked_length(text: &[u8]) -> usize
    ensures { result ≡ length (unblanked text.now) }
{
    text.len() - text.iter().rev().take_while(|b| **b == b' ').count()
}
