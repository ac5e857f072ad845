// The script reader: where in a line it stands, and the line's number.
ghost use Rattle.std.specs.Prelude.{◌≡◌, ◌+◌, ◌<◌, ◌^◌};
ghost use Rattle.text.specs.Script.{past_blanks, skipped, next_line};

// A place in a line, and the line's number.
#[derive(Clone, Copy)]
pub struct Script {
    pub at: usize,
    pub line: u64,
}

// The place after the blanks that stand at `at`.
pub fn past_blanks(text: &[u8], at: usize) -> usize
    ensures { result ≡ past_blanks text.now at }
{
    at + text.iter().skip(at).take_while(|b| **b == b' ').count()
}

impl Script {
    // A line is opened after `line` others: it is counted, and the reader stands after its first blanks.
    pub fn opened(line: u64, text: &[u8]) -> Script
        requires { line + 1 < 2 ^ 64 }
        ensures { (result.at ≡ past_blanks text.now 0) × (result.line ≡ line + 1) }
    {
        let mut script = Script { at: 0, line };
        script.next_line();
        script.skip_blanks(text);
        script
    }

    // Moves past blanks.
    pub fn skip_blanks(&mut self, text: &[u8])
        ensures { self.new ≡ skipped text.now self.old }
    {
        self.at = past_blanks(text, self.at);
    }

    // Goes to the start of the next line, and counts it.
    pub fn next_line(&mut self)
        requires { self.old.line + 1 < 2 ^ 64 }
        ensures { self.new ≡ next_line self.old }
    {
        self.at = 0;
        self.line += 1;
    }
}
