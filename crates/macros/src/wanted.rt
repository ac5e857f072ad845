// What the two macros want: their sets and sizes, the ranges of these, and the products of sets whose pairs get a rule.
ghost use Rattle.std.specs.Prelude.{◌≡◌, true, ◌+◌, ◌^◌, ◌≤◌, ◌<◌};
ghost use Rattle.rules.specs.Sets.{others};
ghost use Rattle.macros.specs.Macros.{width, width_sound, taken, second, half_spacing, spacing_sound};
ghost use Rattle.macros.specs.Both.{rules_of};

use crate::pairs::{Made, Pairs};

// width S d reason, for t types: the types of S keep d from all others.
#[derive(Clone, Copy)]
pub struct Width {
    pub t: u16,
    pub set: u16,
    pub d: u16,
    pub reason: u16,
}

// spacing A B d touch reason, for t types: the types of A and of B keep d from each other, and with touch 1 they may touch.
#[derive(Clone, Copy)]
pub struct Spacing {
    pub t: u16,
    pub a: u16,
    pub b: u16,
    pub d: u16,
    pub touch: u16,
    pub reason: u16,
}

// Everything but a set of types below t.
#[tactic(auto, unfolding(rules::specs::Sets::others))]
fn others(t: u16, set: u16) -> u16
    requires { (t ≤ 16) × (set < 2 ^ t) }
    ensures { result ≡ others t set }
{
    ((1u32 << t) - 1 - u32::from(set)) as u16
}

impl Width {
    // Is it within its ranges?
    #[tactic(auto, unfolding(crate::specs::Macros::width_sound, rules::specs::Sets::within))]
    pub fn is_sound(self) -> bool
        requires { self.t ≤ 16 }
        ensures { result ≡ width_sound self.t self.set self.d }
    {
        u32::from(self.set) >> self.t == 0 && self.set != 0 && 1 <= self.d && self.d <= 16
    }

    // Its rules: type 1 outside S, type 2 in S.
    #[tactic(auto, using(crate::proofs::Counts::width_below, crate::proofs::Counts::width_rows_lem, rules::proofs::Sets::others_below))]
    pub fn pairs(self) -> Pairs
        requires { (self.t ≤ 16) × (width_sound self.t self.set self.d ≡ true) }
        ensures { rules_of result ≡ width self.t self.set self.d self.reason }
    {
        let first = others(self.t, self.set);
        Pairs {
            t: self.t,
            first,
            second: self.set,
            made: Made {
                d: self.d,
                allowed: self.set,
                corners: self.set,
                reason: self.reason,
            },
        }
    }
}

impl Spacing {
    // Is it within its ranges?
    #[tactic(auto, using(crate::proofs::Spaces::disjoint_and), unfolding(crate::specs::Macros::spacing_sound, rules::specs::Sets::within))]
    pub fn is_sound(self) -> bool
        requires { self.t ≤ 16 }
        ensures { result ≡ spacing_sound self.t self.a self.b self.d self.touch }
    {
        u32::from(self.a) >> self.t == 0
            && u32::from(self.b) >> self.t == 0
            && self.a != 0
            && self.b != 0
            && 1 <= self.d
            && self.d <= 16
            && self.touch <= 1
            && (self.a == self.b || self.a & self.b == 0)
    }

    // The types of A and, with touch 1, those of B too, if it is another set.
    #[tactic(auto, using(crate::proofs::Spaces::taken_fits), unfolding(crate::specs::Macros::taken))]
    fn taken(self) -> u16
        requires { (self.t ≤ 16) × (taken self.a self.b self.touch < 2 ^ self.t) }
        ensures { result ≡ taken self.a self.b self.touch }
    {
        if self.touch == 1 && self.a != self.b {
            self.a + self.b
        } else {
            self.a
        }
    }

    // The types 2 of the rules from A to B, and their corner set.
    #[tactic(auto, unfolding(crate::specs::Macros::second))]
    fn second(self) -> u16
        requires { (self.t ≤ 16) × (taken self.a self.b self.touch < 2 ^ self.t) }
        ensures { result ≡ second self.t self.a self.b self.touch }
    {
        others(self.t, self.taken())
    }

    // The rules from A to B.
    #[tactic(auto, using(rules::proofs::Sets::others_below), unfolding(crate::specs::Macros::half_spacing, crate::specs::Macros::second))]
    pub fn half(self) -> Pairs
        requires { (self.t ≤ 16) × (self.a < 2 ^ self.t) × (self.b < 2 ^ self.t) × (taken self.a self.b self.touch < 2 ^ self.t) }
        ensures { rules_of result ≡ half_spacing self.t self.a self.b self.d self.touch self.reason }
    {
        let second = self.second();
        Pairs {
            t: self.t,
            first: self.a,
            second,
            made: Made {
                d: self.d,
                allowed: others(self.t, self.b),
                corners: second,
                reason: self.reason,
            },
        }
    }

    // The same with A and B exchanged.
    pub fn exchanged(self) -> Spacing
        ensures { result ≡ record self { a = self.b; b = self.a } }
    {
        Spacing {
            a: self.b,
            b: self.a,
            ..self
        }
    }
}
