// One rule: its eight words, its sets of types, and its ranges. No public calls: whoever uses these has tested the list's length and T.
ghost use Rattle.std.specs.Prelude.{◌≡◌, ◌≤◌, ◌<◌};
ghost use Rattle.rules.specs.Sets.{member};
ghost use Rattle.rules.specs.Words.{sound, reach};

// The words of a rule, in their order. A set has bit t for type t; fourway is 0 for a one-way rule and 1 for a fourway one. They stay
// words, not an enum and sets of their own, since a list that is lent may hold any, and the test of a list has to name the bad rule.
#[derive(Clone, Copy, PartialEq, Eq)]
pub struct Rule {
    pub type1: u16,
    pub type2: u16,
    pub d: u16,
    pub allowed: u16,
    pub corners: u16,
    pub ce: u16,
    pub fourway: u16,
    pub reason: u16,
}

// Does the set hold the type?
#[tactic(auto, unfolding(crate::specs::Sets::member))]
pub fn member(set: u16, kind: u16) -> bool
    requires { kind < 32 }
    ensures { result ≡ member set kind }
{
    (u32::from(set) >> kind) % 2 == 1
}

impl Rule {
    // Is the rule within its ranges, for t types?
    #[tactic(auto, unfolding(crate::specs::Words::sound))]
    pub fn is_sound(self, t: u16) -> bool
        requires { t ≤ 16 }
        ensures { result ≡ sound t self }
    {
        self.type1 < t
            && self.type2 < t
            && self.type1 != self.type2
            && 1 <= self.d
            && self.d <= 16
            && self.ce <= 16
            && self.fourway <= 1
            && u32::from(self.allowed) >> t == 0
            && u32::from(self.corners) >> t == 0
    }

    // How far it reaches: the larger of d and ce.
    #[tactic(auto, unfolding(crate::specs::Words::reach))]
    pub fn reach(self) -> u16
        ensures { result ≡ reach self }
    {
        self.d.max(self.ce)
    }
}
