// The rules of a list by cells: those of one pair of types are found without the others. They are chained anew for each local picture.
ghost use Rattle.std.specs.Prelude.{◌≡◌, ◌+◌, ◌*◌, ◌≤◌, ◌<◌, length};
ghost use Rattle.edges.specs.Chains.{cell, Linked, Chained};

use rules::list::RuleList;

// The first rule of each cell, and after each rule the next of its own; 65535, which no rule has for its number, where there is none.
// Words and no Option, which takes twice the room: they are filled anew for each piece.
#[derive(Drop)]
pub struct Chains {
    pub first: [u16; 256],
    pub next: [u16; 512],
}

// The cell of a pair of types, whichever of them comes first. Two pairs may share one: that costs time only.
#[tactic(auto, unfolding(crate::specs::Chains::cell))]
pub fn cell_of(a: u16, b: u16) -> usize
    ensures { (result ≡ cell a b) × (result < 256) }
{
    (16 * usize::from(a.min(b)) + usize::from(a.max(b))) % 256
}

impl Chains {
    // The used rules of a list, chained.
    pub fn of(rules: RuleList<'_>) -> Chains
        requires { (8 * rules.used ≤ length rules.words.now) × (rules.used ≤ 512) }
        ensures { Chained rules.entry.words.now rules.entry.used 0 result }
    {
        let mut chains = Chains {
            first: [65535; 256],
            next: [65535; 512],
        };
        for i in (0..rules.used).rev() {
            chains.put(rules, i);
        }
        chains
    }

    // Puts rule i before the others of its cell.
    #[tactic(auto, unfolding(rules::specs::Words::rule_at))]
    fn put(&mut self, rules: RuleList<'_>, i: usize)
        requires { (8 * i + 8 ≤ length rules.words.now) × (i < 512) }
        ensures { Linked rules.entry.words.now i self.old self.new }
    {
        let k = cell_of(rules.words[8 * i], rules.words[8 * i + 1]);
        self.next[i] = self.first[k];
        self.first[k] = i as u16;
    }
}
