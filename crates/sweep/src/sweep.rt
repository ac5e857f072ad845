// A turn of check: one piece, or a row of them whose errors are marked one by one and which then ends waiting all at once.
ghost use Rattle.std.specs.Prelude.{◌≡◌, ◌+◌, ◌-◌, ◌≤◌, length};
ghost use Rattle.plane.specs.Words.{count, room_in};
ghost use Rattle.piece.specs.Remark.{BlockIn};
ghost use Rattle.sweep.specs.Sweep.{swept_area};
ghost use Rattle.sweep.specs.Lending.{layout_of, Kept};
ghost use Rattle.sheet.specs.Layout.{lent};
ghost use Rattle.sweep.specs.Turn.{PieceIn, PieceTried, TurnIn, Turned, RowMarked};

use crate::lent::Lent;
use piece::rows::near_area;
use plane::tile::Area;
use plane::words::room_in;
use remark::remark::{end_waiting, remark};
use rules::list::RuleList;
use tables::table::tiles_after;
use waits::block::Block;
use waits::waits::row_of;

// What a run or a turn of it came to: the pieces done, and whether it then met one without room.
// No Result: the pieces done count in both cases alike, a run adds them up over its turns, and run_pieces makes the Result.
#[derive(Clone, Copy, PartialEq, Eq)]
pub struct Ran {
    pub done: usize,
    pub full: bool,
}

// What a row came to: the same, and the column before which all is done in it. No Result, as Ran: the column too counts in both cases.
#[derive(Clone, Copy, PartialEq, Eq)]
pub struct Swept {
    pub done: usize,
    pub end: u16,
    pub full: bool,
}

// Marks the errors of the waiting pieces of the lowest one's row, from that on, at most n, until the row ends or a piece has no room.
// It takes the slices one by one and no Lent, since it only reads what waits. TurnIn stands here, in sweep_row and in one_turn: it is said of
// a layout, its rules and a piece together, so no one value carries it.
fn mark_row(
    material: &[u16],
    errors: &mut [u16],
    waiting: &[u16],
    work: &mut [u16],
    rules: RuleList<'_>,
    lowest: Block,
    n: usize,
) -> Swept
    requires turn_in { TurnIn (lent material.now errors.old waiting.now) work.old rules.words.now rules.used lowest.x lowest.y n }
    requires waiting_bound { count waiting.now + 32 ≤ room_in (length material.now) }
    ensures { RowMarked (lent material.now errors.old waiting.now) rules.entry.words.now rules.entry.used lowest.y n result.done result.end result.full errors.new }
{
    let columns = row_of(waiting, usize::from(lowest.y));
    let mut done: usize = 0;
    let mut end = lowest.x;
    for x in lowest.x..material[1].div_ceil(16) {
        if done == n {
            break;
        }
        if columns[usize::from(x)] {
            if remark(material, errors, work, rules, Block { x, y: lowest.y }).is_none() {
                return Swept {
                    done,
                    end,
                    full: true,
                };
            }
            done += 1;
        }
        end = x + 1;
    }
    Swept {
        done,
        end,
        full: false,
    }
}

// The squares of the first e pieces of row y.
fn row_area(w: u16, h: u16, e: u16, y: u16) -> Area
    requires { (1 ≤ e) × BlockIn w h (e - 1) y }
    ensures { result ≡ swept_area w h e y }
{
    let last = near_area(w, h, Block { x: e - 1, y }, 0);
    Area {
        x1: 0,
        y1: last.y1,
        x2: last.x2,
        y2: last.y2,
    }
}

impl Lent<'_> {
    // Checks the piece; None, with errors and waiting as they were, where one of them has no room for it. What waits is counted before
    // the errors are marked.
    #[tactic(auto, using(crate::proofs::OnePiece::piece_unroomed))]
    pub fn check_piece(&mut self, rules: RuleList<'_>, piece: Block) -> Option<()>
        requires { PieceIn (layout_of self.old) self.old.work.now rules.words.now rules.used piece.x piece.y }
        ensures tried { PieceTried (layout_of self.old) rules.entry.words.now rules.entry.used piece.x piece.y result (layout_of self.new) }
        ensures kept { Kept self.old self.new }
    {
        let material = self.material;
        let room = room_in(material.len());
        let block = near_area(material[1], material[2], piece, 0);
        let waiting = &mut *self.waiting;
        if tiles_after(waiting, block, 0, self.work, room).is_none() {
            return None;
        }
        remark(material, self.errors, self.work, rules, piece)?;
        end_waiting(waiting, block, self.work, room)
    }

    // Checks waiting pieces of the lowest one's row, from that on, at most n: marks their errors, and then clears them in waiting all at once.
    fn sweep_row(&mut self, rules: RuleList<'_>, lowest: Block, n: usize) -> Ran
        requires turn_in { TurnIn (layout_of self.old) self.old.work.now rules.words.now rules.used lowest.x lowest.y n }
        requires waiting_bound { count self.old.waiting.now + 32 ≤ room_in (length self.old.material.now) }
        ensures turned { Turned (layout_of self.old) rules.entry.words.now rules.entry.used n result.done result.full (layout_of self.new) }
        ensures kept { Kept self.old self.new }
    {
        let material = self.material;
        let waiting = &mut *self.waiting;
        let row = mark_row(material, self.errors, waiting, self.work, rules, lowest, n);
        let ran = Ran {
            done: row.done,
            full: row.full,
        };
        if ran.done == 0 {
            return ran;
        }
        let swept = row_area(material[1], material[2], row.end, lowest.y);
        end_waiting(waiting, swept, self.work, room_in(material.len()));
        ran
    }

    // Checks waiting pieces, at most n, from the lowest on: those of its row, where waiting has room for 32 tiles more, which is the most
    // that clearing a part of a row adds; else this one.
    pub fn one_turn(&mut self, rules: RuleList<'_>, lowest: Block, n: usize) -> Ran
        requires { TurnIn (layout_of self.old) self.old.work.now rules.words.now rules.used lowest.x lowest.y n }
        ensures turned { Turned (layout_of self.old) rules.entry.words.now rules.entry.used n result.done result.full (layout_of self.new) }
        ensures kept { Kept self.old self.new }
    {
        if usize::from(self.waiting[0]) + 32 <= room_in(self.material.len()) {
            return self.sweep_row(rules, lowest, n);
        }
        match self.check_piece(rules, lowest) {
            Some(()) => Ran {
                done: 1,
                full: false,
            },
            None => Ran {
                done: 0,
                full: true,
            },
        }
    }
}
