// The rules that a macro makes of two sets of types, one for each type 1 of the first and each type 2 of the second, and how they are
// written into a list.
ghost use Rattle.std.specs.Prelude.{◌≡◌, ◌+◌, ◌*◌, ◌^◌, ◌≤◌, ◌<◌, length};
ghost use Rattle.std.proofs.lemmas.List.Edits.{sets};
ghost use Rattle.rules.specs.Words.{rule_words};
ghost use Rattle.macros.specs.Macros.{made, row, rows};
ghost use Rattle.macros.specs.Expansion.{Put};

use rules::rule::{Rule, member};

// What all rules of one expansion share; d is their ce too.
#[derive(Clone, Copy)]
pub struct Made {
    pub d: u16,
    pub allowed: u16,
    pub corners: u16,
    pub reason: u16,
}

// Two sets of the t types, and what the rules of their pairs share.
#[derive(Clone, Copy)]
pub struct Pairs {
    pub t: u16,
    pub first: u16,
    pub second: u16,
    pub made: Made,
    ghost below: { (t ≤ 16) × (first < 2 ^ t) × (second < 2 ^ t) },
}

// Writes a rule at place n. Not a public call: its caller has tested the room.
#[tactic(auto, unfolding(rules::specs::Words::rule_words))]
pub fn put_rule(list: &mut [u16], n: usize, r: Rule)
    requires { 8 * n + 8 ≤ length list.old }
    ensures { list.new ≡ sets list.old (8 * n) (rule_words r) }
{
    let words = [
        r.type1, r.type2, r.d, r.allowed, r.corners, r.ce, r.fourway, r.reason,
    ];
    let at = 8 * n;
    list[at..at + 8].copy_from_slice(&words);
}

impl Pairs {
    // How many rules they are: the product of the sizes of the sets.
    pub fn count(self) -> usize
        ensures { (result ≡ length (rows self.t self.t self.first self.second self.made)) × (result ≤ 256) }
    {
        (self.first.count_ones() * self.second.count_ones()) as usize
    }

    // The rule of types a and b.
    #[tactic(auto, unfolding(crate::specs::Macros::made))]
    fn rule(self, a: u16, b: u16) -> Rule
        ensures { result ≡ made self.made a b }
    {
        Rule {
            type1: a,
            type2: b,
            d: self.made.d,
            allowed: self.made.allowed,
            corners: self.made.corners,
            ce: self.made.d,
            fourway: 0,
            reason: self.made.reason,
        }
    }

    // Writes the rules of type 1 `a` from place n on; the next place is returned.
    fn put_row(self, list: &mut [u16], a: u16, n: usize) -> usize
        requires { 8 * (n + length (row self.t self.second self.made a)) ≤ length list.old }
        ensures { Put n result (row self.t self.second self.made a) list.old list.new }
    {
        let mut k = n;
        for b in 0..self.t {
            if member(self.second, b) {
                put_rule(list, k, self.rule(a, b));
                k += 1;
            }
        }
        k
    }

    // Writes all of them from place n on, by rising type 1 and then type 2; the next place is returned.
    pub fn put(self, list: &mut [u16], n: usize) -> usize
        requires { 8 * (n + length (rows self.t self.t self.first self.second self.made)) ≤ length list.old }
        ensures { Put n result (rows self.t self.t self.first self.second self.made) list.old list.new }
    {
        let mut k = n;
        for a in 0..self.t {
            if member(self.first, a) {
                k = self.put_row(list, a, k);
            }
        }
        k
    }
}
