// The marks of the squares near a block, as rows of bits that a stamp takes as they are.
ghost use Rattle.std.specs.Prelude.{◌≡◌, ◌+◌, ◌*◌, ◌≤◌, ◌<◌};
ghost use Rattle.plane.specs.Words.{width, height, picture_of};
ghost use Rattle.rules.specs.Words.{rules_of};
ghost use Rattle.piece.specs.Remark.{low_end, high_end, near_area, BlockIn, Checkable};
ghost use Rattle.piece.specs.Rows.{BitRow, BitRows, PieceRows};

use crate::cut::{cut, place};
use edges::near::mark_near;
use plane::table::Table;
use plane::tile::Area;
use rules::list::RuleList;
use waits::block::Block;

// The first square within k of block b, in one direction.
fn low_end(b: u16, k: u16) -> u16
    requires { b < 256 }
    ensures { result ≡ low_end k b }
{
    (16 * b).saturating_sub(k)
}

// The square after the last one, in a window w wide.
fn high_end(b: u16, k: u16, w: u16) -> u16
    requires { (b < 256) × (k ≤ 33) }
    ensures { result ≡ high_end w k b }
{
    w.min(16 * b + 16 + k)
}

// The window's squares within k of the block; with k = 0 those of the block.
pub fn near_area(w: u16, h: u16, block: Block, k: u16) -> Area
    requires { BlockIn w h block.x block.y × (k ≤ 33) }
    ensures { result ≡ near_area w h k block.x block.y }
{
    Area {
        x1: low_end(block.x, k),
        y1: low_end(block.y, k),
        x2: high_end(block.x, k, w),
        y2: high_end(block.y, k, h),
    }
}

// The n marks from `at` on as bits, the first as the lowest bit.
fn row_bits(marks: &[u8; 6724], at: usize, n: usize) -> u64
    requires { (n ≤ 48) × (at + n ≤ 6724) }
    ensures { BitRow marks.now at n result }
{
    let mut row = 0;
    for j in (0..n).rev() {
        row = 2 * row + u64::from(marks[at + j] % 2);
    }
    row
}

// The marks of nx by ny squares from (x0,y0) on.
fn bits_of(marks: &[u8; 6724], x0: usize, y0: usize, nx: usize, ny: usize) -> [u64; 48]
    requires { (nx ≤ 48) × (ny ≤ 48) × (x0 + nx ≤ 82) × (y0 + ny ≤ 82) }
    ensures { BitRows marks.now x0 y0 nx ny result }
{
    let mut rows = [0u64; 48];
    for i in 0..ny {
        rows[i] = row_bits(marks, (y0 + i) * 82 + x0, nx);
    }
    rows
}

// The full check's marks of the window's squares within k of the block, k being the halo. Two local pictures are all the room that it takes.
// Only what is within 2 k + 1 of the block is cut out, so that no column or row before 32 - 2 k or from 51 + 2 k on has an edge.
pub fn piece_rows(t: &[u16], rules: RuleList<'_>, block: Block, k: u16) -> [u64; 48]
    requires { Checkable t.now rules.words.now rules.used k block.x block.y }
    ensures { PieceRows (width t.now) (height t.now) (picture_of t.now) (rules_of rules.entry.words.now rules.entry.used) k block.x block.y result }
{
    let table = Table::of(t);
    let near = near_area(table.width(), table.height(), block, k);
    let mut kinds = [0u8; 6724];
    cut(&mut kinds, t, block, k);
    let mut marks = [0u8; 6724];
    let reach = 2 * usize::from(k);
    mark_near(&kinds, &mut marks, rules, 32 - reach, (51 + reach).min(82));
    let x0 = place(block.x, near.x1);
    let y0 = place(block.y, near.y1);
    bits_of(
        &marks,
        x0,
        y0,
        usize::from(near.x2 - near.x1),
        usize::from(near.y2 - near.y1),
    )
}
