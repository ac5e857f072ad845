// The command words.
ghost use Rattle.std.specs.Prelude.{◌≡◌};
ghost use Rattle.commands.specs.Command.{keyword_of};

// The word that a command begins with.
#[derive(Clone, Copy)]
pub enum Keyword {
    New,
    Rule,
    Width,
    Spacing,
    Paint,
    Check,
    Report,
}

impl Keyword {
    // The keyword that a word is, byte for byte.
    #[tactic(auto, using(std::proofs::lemmas::Grind::common_steps, text::proofs::Words::same_lengths, crate::proofs::Keywords::report_spelt, crate::proofs::Keywords::spacing_spelt), unfolding(crate::specs::Command::keyword_in, text::specs::Word::sameb))]
    pub fn of(word: &[u8]) -> Option<Keyword>
        ensures { result ≡ keyword_of word.now }
    {
        match word {
            b"new" => Some(Keyword::New),
            b"rule" => Some(Keyword::Rule),
            b"width" => Some(Keyword::Width),
            b"spacing" => Some(Keyword::Spacing),
            b"paint" => Some(Keyword::Paint),
            b"check" => Some(Keyword::Check),
            b"report" => Some(Keyword::Report),
            _ => None,
        }
    }
}
