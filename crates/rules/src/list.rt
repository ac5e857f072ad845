// A list of rules: its length, the lowest rule out of its ranges, and the halo. The public calls are vet_list and halo.
ghost use Rattle.std.specs.Prelude.{◌≡◌, ◌+◌, ◌*◌, ◌≤◌, length};
ghost use Rattle.plane.specs.Answers.{number, value, refusal_number};
ghost use Rattle.plane.specs.Words.{Says};
ghost use Rattle.rules.specs.Answers.{error_number, list_number, list_place};
ghost use Rattle.rules.specs.Words.{rule_at, halo_of};
ghost use Rattle.rules.specs.Vetting.{ListLength, KindsIn, ListTested, vetted, ListVetted, HaloFound};

use crate::rule::Rule;
use plane::answer::Refusal;

// A list of rules as it is lent: its words, eight to a rule, and how many of its rules are used.
#[derive(Clone, Copy)]
pub struct RuleList<'a> {
    pub words: &'a [u16],
    pub used: usize,
}

// What speaks against a list: its length, T, or a rule, the lowest that is out of its ranges.
#[derive(Clone, Copy, PartialEq, Eq)]
pub enum ListError {
    Lengths,
    Sizes,
    BadRule(u16),
}

// The refusal of a call that names no rule.
impl From<ListError> for Refusal {
    ghost from_gives = { λ e r. refusal_number r ≡ error_number e };

    fn from(e: ListError) -> Refusal {
        match e {
            ListError::Lengths => Refusal::Lengths,
            ListError::Sizes => Refusal::Sizes,
            ListError::BadRule(_) => Refusal::NoRule,
        }
    }
}

// Is n the length of a rule list, with room for the rules used?
pub fn list_length(n: usize, used: usize) -> bool
    ensures { Says result (ListLength n used) }
{
    n % 8 == 0 && n <= 4096 && used <= n / 8
}

// Is T in its range?
pub fn kinds_in(t: u16) -> bool
    ensures { Says result (KindsIn t) }
{
    2 <= t && t <= 16
}

// What speaks against a list of n words before its rules are looked at: its length (1) and T (2).
pub fn list_tests(n: usize, used: usize, t: u16) -> Result<(), ListError>
    ensures { ListTested n used t (list_number result) }
{
    if !list_length(n, used) {
        return Err(ListError::Lengths);
    }
    if !kinds_in(t) {
        return Err(ListError::Sizes);
    }
    Ok(())
}

impl<'a> RuleList<'a> {
    // Rule i of the list.
    #[tactic(auto, unfolding(crate::specs::Words::rule_at))]
    pub fn rule(self, i: usize) -> Rule
        requires { 8 * i + 8 ≤ length self.words.now }
        ensures { result ≡ rule_at self.entry.words.now i }
    {
        let at = 8 * i;
        Rule {
            type1: self.words[at],
            type2: self.words[at + 1],
            d: self.words[at + 2],
            allowed: self.words[at + 3],
            corners: self.words[at + 4],
            ce: self.words[at + 5],
            fourway: self.words[at + 6],
            reason: self.words[at + 7],
        }
    }

    // The place of the lowest of the used rules that is out of its ranges, as an error. Its caller has tested the length and T.
    pub fn vet(self, t: u16) -> Result<(), u16>
        requires { (ListLength (length self.words.now) self.used) × (t ≤ 16) }
        ensures { result ≡ vetted self.entry.words.now self.entry.used t }
    {
        for i in 0..self.used {
            if !self.rule(i).is_sound(t) {
                return Err(i as u16);
            }
        }
        Ok(())
    }

    // The largest d or ce of the used rules. Its caller has tested the length.
    pub fn halo(self) -> u16
        requires { 8 * self.used ≤ length self.words.now }
        ensures { result ≡ halo_of self.entry.words.now self.entry.used }
    {
        let mut halo: u16 = 0;
        for i in 0..self.used {
            halo = halo.max(self.rule(i).reach());
        }
        halo
    }
}

// Is the list's length right (1), is T in its range (2), and are the used rules within their ranges (4)?
pub fn vet_list(rules: RuleList<'_>, t: u16) -> Result<(), ListError>
    ensures { ListVetted rules.entry.words.now rules.entry.used t (list_number result) (list_place result) }
{
    list_tests(rules.words.len(), rules.used, t)?;
    rules.vet(t).map_err(ListError::BadRule)
}

// The halo of a list, if its length is right (1).
pub fn halo(rules: RuleList<'_>) -> Result<u16, Refusal>
    ensures { HaloFound rules.entry.words.now rules.entry.used (number result) (value result) }
{
    if !list_length(rules.words.len(), rules.used) {
        return Err(Refusal::Lengths);
    }
    Ok(rules.halo())
}
