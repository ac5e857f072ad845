// Marks from the edges of a local picture, each found once: the rules of its pair of types, in the directions that they have.
ghost use Rattle.std.specs.Prelude.{true, ◌≡◌, ◌+◌, ◌*◌, ◌≤◌, ◌<◌, length};
ghost use Rattle.rules.specs.Words.{rule_at};
ghost use Rattle.edges.specs.Edge.{Marked, Local};
ghost use Rattle.edges.specs.Near.{Ruled, Between, faces, hit_from, across, across_all, edges_at, edges_to, edges_over, Still, sweeps};

use crate::cells::{Chains, cell_of};
use crate::edge::Picture;
use crate::turn::{Crossing, Side, Turn};
use rules::list::RuleList;
use rules::rule::Rule;
use std::marker::Model;

// Does rule i go between types a and b: from b to a, or back if it is fourway? Only the words that tell are looked at: a cell may hold many
// rules that go another way.
#[tactic(auto, unfolding(rules::specs::Words::rule_at))]
fn faces(rules: RuleList<'_>, i: usize, a: u16, b: u16) -> bool
    requires { 8 * i + 8 ≤ length rules.words.now }
    ensures { result ≡ faces a b (rule_at rules.entry.words.now i) }
{
    let first = rules.words[8 * i];
    let second = rules.words[8 * i + 1];
    first == b && second == a || first == a && second == b && rules.words[8 * i + 6] != 0
}

// A local picture and the rules that are looked for in it, chained by the cells of their types. A contract sees a Marker as the picture's types and the list.
// The marks are a parameter of its methods and no field: it is lent on to read, and a field that is written would want, in each of their
// contracts, a clause that it is still the same marks.
#[derive(Drop)]
struct Marker<'a> {
    picture: Picture<'a>,
    rules: RuleList<'a>,
    chains: &'a Chains,
}

impl<'a> Model for Marker<'a> {
    ghost use Rattle.edges.specs.Chains.{Chained};
    ghost use Rattle.edges.specs.Near.{Ruled, Looked};

    ghost Value = { Looked };

    ghost view = { λ m. record { kinds = m.picture; words = m.rules.words.now; used = m.rules.used } };

    ghost invariant = { λ m. Ruled m.rules.words.now m.rules.used × Chained m.rules.words.now m.rules.used 0 m.chains.now };
}

impl<'a> Marker<'a> {
    // Marks what the rule forbids from the edge between a square and the one before it, crossed in one direction.
    #[inline(always)]
    fn mark_from(&self, marks: &mut [u8; 6724], r: Rule, s: Side)
        requires { r.ce ≤ 16 }
        ensures { Marked (hit_from self.now.kinds true s.turn s.at r) marks.old marks.new }
    {
        let at = s.at - s.turn.wm;
        if 83 <= at && at < 6641 {
            self.picture
                .mark_edge(marks, r, Crossing { turn: s.turn, at });
        }
    }

    // The same, crossed both ways, and along both ways; a rule that is not fourway has the one direction only.
    #[inline(always)]
    fn mark_across(&self, marks: &mut [u8; 6724], r: Rule, s: Side)
        requires { r.ce ≤ 16 }
        ensures { Marked (across self.now.kinds s.turn s.at r) marks.old marks.new }
    {
        self.mark_from(marks, r, s);
        if r.fourway != 0 {
            self.mark_from(marks, r, s.mirrored());
            self.mark_from(marks, r, s.reversed());
            self.mark_from(marks, r, s.mirrored().reversed());
        }
    }

    // The same for rule i, past a rule that does not go between the types at the edge.
    #[inline(always)]
    fn mark_nth(&self, marks: &mut [u8; 6724], i: usize, s: Side, a: u16, b: u16)
        requires between { Between self.now.kinds s.turn s.at a b }
        requires i_in_bounds { i < self.now.used }
        ensures { Marked (across self.now.kinds s.turn s.at (rule_at self.now.words i)) marks.old marks.new }
    {
        if faces(self.rules, i, a, b) {
            self.mark_across(marks, self.rules.rule(i), s);
        }
    }

    // The same for the used rules: those of the pair's cell, one after the other.
    #[inline(always)]
    fn mark_pair(&self, marks: &mut [u8; 6724], s: Side, a: u16, b: u16)
        requires { Between self.now.kinds s.turn s.at a b }
        ensures { Marked (across_all self.now.kinds self.now.words self.now.used s.turn s.at) marks.old marks.new }
    {
        let mut i = usize::from(self.chains.first[cell_of(a, b)]);
        // A while loop: the step is to the next rule of the cell.
        while i < self.rules.used {
            self.mark_nth(marks, i, s, a, b);
            i = usize::from(self.chains.next[i]);
        }
    }

    // The same, past a square whose neighbour has its type.
    #[inline(always)]
    fn mark_side(&self, marks: &mut [u8; 6724], s: Side)
        requires { s.turn.wm ≡ 0 }
        ensures { Marked (across_all self.now.kinds self.now.words self.now.used s.turn s.at) marks.old marks.new }
    {
        let a = self.picture.kind(s.at);
        let b = self.picture.kind(s.at - s.turn.wp);
        if a != b {
            self.mark_pair(marks, s, a, b);
        }
    }

    // From the edges left of `at` and below it. A function of its own, with all that an edge leads to in it twice, a direction at a time, so
    // that the steps of each are known there, and the look for edges stays short.
    #[inline(never)]
    fn mark_both(&self, marks: &mut [u8; 6724], at: usize)
        requires { (82 ≤ at) × (at < 6724) }
        ensures { Marked (edges_at self.now.kinds self.now.words self.now.used at) marks.old marks.new }
    {
        self.mark_side(
            marks,
            Side {
                turn: Turn::RIGHT_UP,
                at,
            },
        );
        self.mark_side(
            marks,
            Side {
                turn: Turn::UP_LEFT,
                at,
            },
        );
    }

    // The same, past a square of the type of both neighbours.
    fn mark_at(&self, marks: &mut [u8; 6724], at: usize)
        requires { (82 ≤ at) × (at < 6724) }
        ensures { Marked (edges_at self.now.kinds self.now.words self.now.used at) marks.old marks.new }
    {
        let kind = self.picture.kind(at);
        if self.picture.kind(at - 1) != kind || self.picture.kind(at - 82) != kind {
            self.mark_both(marks, at);
        }
    }

    // From all edges at the n indexes from `from` on.
    fn mark_range(&self, marks: &mut [u8; 6724], from: usize, n: usize)
        requires { (82 ≤ from) × (from + n ≤ 6724) }
        ensures { Marked (edges_to self.now.kinds self.now.words self.now.used from n) marks.old marks.new }
    {
        for k in 0..n {
            self.mark_at(marks, from + k);
        }
    }

    // The same in `rows` rows, each 82 indexes after the one before.
    fn mark_rows(&self, marks: &mut [u8; 6724], from: usize, n: usize, rows: usize)
        requires { (82 ≤ from) × (from + 82 * rows + n ≤ 6806) }
        ensures { Marked (edges_over self.now.kinds self.now.words self.now.used from n rows) marks.old marks.new }
    {
        for j in 0..rows {
            self.mark_range(marks, from + 82 * j, n);
        }
    }
}

// Marks what the used rules forbid, all ways, on a picture with no edge outside columns and rows lo up to hi. A mark is the byte 1, and no
// bool, since the clause tells what becomes of any bytes that are lent for marks.
pub fn mark_near(
    kinds: &[u8; 6724],
    marks: &mut [u8; 6724],
    rules: RuleList<'_>,
    lo: usize,
    hi: usize,
)
    requires { Local kinds.now marks.old × Ruled rules.words.now rules.used × Still kinds.now lo hi }
    ensures { Marked (sweeps kinds.now rules.entry.words.now rules.entry.used) marks.old marks.new }
{
    let chains = Chains::of(rules);
    let marker = Marker {
        picture: Picture::of(kinds),
        rules,
        chains: &chains,
    };
    let y = lo.max(1);
    marker.mark_rows(marks, y * 82 + lo, hi - lo, hi - y);
}
