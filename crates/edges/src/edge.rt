// What one edge of a rule marks in a local picture. A square is forbidden where a rule's edge, crossed in one direction, reaches it and its type is not allowed.
ghost use Rattle.std.specs.Prelude.{◌≡◌, ◌+◌, ◌*◌, ◌≤◌, ◌<◌, length, get_or};
ghost use Rattle.edges.specs.Edge.{Marked, Small, Steps, one, deep, past, edge_at, turns_at, hit};

use crate::turn::Crossing;
pub use crate::turn::Turn;
use rules::rule::{Rule, member};
use std::marker::Model;

// The type at an index.
pub fn kind_at(kinds: &[u8; 6724], at: usize) -> u16
    requires { at < 6724 }
    ensures { result ≡ get_or kinds.now at 0 }
{
    u16::from(kinds[at])
}

// The types of a local picture's squares, row by row, each below 32. A contract sees a Picture as their list.
#[derive(Drop)]
pub(crate) struct Picture<'a> {
    kinds: &'a [u8; 6724],
}

impl<'a> Model for Picture<'a> {
    ghost use Rattle.std.specs.Prelude.{List, ℕ};
    ghost use Rattle.edges.specs.Edge.{Small};

    ghost Value = { List ℕ };

    ghost view = { λ p. p.kinds.now };

    ghost invariant = { λ p. Small p.kinds.now };
}

impl<'a> Picture<'a> {
    // The picture of these types.
    pub(crate) fn of(kinds: &'a [u8; 6724]) -> Picture<'a>
        requires { Small kinds.now }
        ensures { result ≡ kinds.now }
    {
        Picture { kinds }
    }

    // The type at an index, which is below 32 as all are.
    pub(crate) fn kind(&self, at: usize) -> u16
        requires { at < 6724 }
        ensures value { result ≡ get_or self.now at 0 }
        ensures small { Small self.now }
    {
        kind_at(self.kinds, at)
    }

    // Marks the square x - y, if there is one and its type is not allowed.
    fn mark_one(&self, marks: &mut [u8; 6724], allowed: u16, x: usize, y: usize)
        ensures { Marked (one self.now allowed x y) marks.old marks.new }
    {
        if y <= x && x - y < 6724 && !member(allowed, self.kind(x - y)) {
            marks[x - y] = 1;
        }
    }

    // Marks the squares behind an edge, as deep as the rule reaches, n steps to the side of it; with n = 0 straight behind it.
    fn mark_deep(&self, marks: &mut [u8; 6724], r: Rule, c: Crossing, n: usize)
        requires { n ≤ 16 }
        ensures { Marked (deep self.now r.allowed r.d c.turn.wp c.turn.wm (c.at + n * c.turn.ep) (n * c.turn.em)) marks.old marks.new }
    {
        let x = c.at + n * c.turn.ep;
        let y = n * c.turn.em;
        for i in 0..usize::from(r.d) {
            self.mark_one(marks, r.allowed, x + i * c.turn.wp, y + i * c.turn.wm);
        }
    }

    // The same past the end of its run, 1 to ce steps to the side.
    fn mark_past(&self, marks: &mut [u8; 6724], r: Rule, c: Crossing)
        requires { r.ce ≤ 16 }
        ensures { Marked (past self.now r c.turn c.at r.ce) marks.old marks.new }
    {
        for j in 0..usize::from(r.ce) {
            let n = j + 1;
            self.mark_deep(marks, r, c, n);
        }
    }

    // Is there an edge of the rule with `at` on its second side?
    #[tactic(auto, unfolding(crate::specs::Edge::edge_at))]
    fn edge_at(&self, r: Rule, t: Turn, at: usize) -> bool
        requires { Steps t × (at < 6724) × (t.wp ≤ at + t.wm) × (at + t.wm < 6724 + t.wp) }
        ensures { result ≡ edge_at self.now r t at }
    {
        self.kind(at) == r.type2 && self.kind(at + t.wm - t.wp) == r.type1
    }

    // Does its run end there, with a corner type beyond?
    #[tactic(auto, unfolding(crate::specs::Edge::turns_at))]
    fn turns_at(&self, r: Rule, c: Crossing) -> bool
        ensures { result ≡ turns_at self.now r c.turn c.at }
    {
        let t = c.turn;
        let next = c.at + t.ep - t.em;
        let beyond = self.kind(next + t.wm - t.wp);
        !self.edge_at(r, t, next) && member(r.corners, beyond)
    }

    // Marks what the rule's edge at a crossing forbids, if there is one.
    #[inline(always)]
    pub(crate) fn mark_edge(&self, marks: &mut [u8; 6724], r: Rule, c: Crossing)
        requires { r.ce ≤ 16 }
        ensures { Marked (hit self.now r c.turn c.at) marks.old marks.new }
    {
        if self.edge_at(r, c.turn, c.at) {
            self.mark_deep(marks, r, c, 0);
            if self.turns_at(r, c) {
                self.mark_past(marks, r, c);
            }
        }
    }
}
