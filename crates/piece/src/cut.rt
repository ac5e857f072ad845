// The local picture of a block: 82 by 82 squares, row by row, cut out of a table. The block has two halos of 16 and a rim of 1 around it, and begins at column and row 33.
// The tiles there are found by walking, each from the last; the table is not passed as a whole.
ghost use Rattle.std.specs.Prelude.{◌≡◌, ◌+◌, ◌-◌, ◌*◌, ◌≤◌, ◌<◌, length, replicate};
ghost use Rattle.plane.specs.Picture.{area};
ghost use Rattle.plane.specs.Plane.{Plane};
ghost use Rattle.plane.specs.Words.{count, width, height, picture_of};
ghost use Rattle.rules.specs.Forbid.{outside};
ghost use Rattle.piece.specs.Cut.{Drawn, row_of, CutOut, Cuttable, RowCut, placed};

use crate::rows::near_area;
use crate::run::Runs;
use plane::fill::fill;
use plane::table::Table;
use plane::tile::Area;
use waits::block::Block;

// Makes row `to` as row v is, from column u1 up to u2.
fn copy_row(kinds: &mut [u8; 6724], v: usize, to: usize, u1: usize, u2: usize)
    requires { (v < to) × (to < 82) × (u1 ≤ u2) × (u2 ≤ 82) }
    ensures { Drawn (row_of kinds.old v) (area u1 to u2 (to + 1)) kinds.old kinds.new }
{
    kinds.copy_within(v * 82 + u1..v * 82 + u2, to * 82 + u1);
}

// The same for each row above v up to `to`.
fn copy_up(kinds: &mut [u8; 6724], v: usize, to: usize, u1: usize, u2: usize)
    requires { (v < to) × (to ≤ 82) × (u1 ≤ u2) × (u2 ≤ 82) }
    ensures { Drawn (row_of kinds.old v) (area u1 (v + 1) u2 to) kinds.old kinds.new }
{
    for y in v + 1..to {
        copy_row(kinds, v, y, u1, u2);
    }
}

// Where column (or row) x of the window stands in the local picture of block b.
pub(crate) fn place(b: u16, x: u16) -> usize
    requires { 16 * b ≤ x + 33 }
    ensures { result ≡ placed b x }
{
    usize::from(x) + 33 - 16 * usize::from(b)
}

// Cuts out row y of the area, run by run from tile i on. Up to the least of their tops, which it returns, the area's rows are all the same.
fn cut_row(kinds: &mut [u8; 6724], table: &Table<'_>, i: u16, a: Area, block: Block, y: u16) -> u16
    requires { (i < count table.now) × Cuttable (width table.now) (height table.now) block.x block.y (area a.x1 y a.x2 a.y2) }
    ensures { RowCut (picture_of table.now) block.x block.y (area a.x1 y a.x2 a.y2) result kinds.old kinds.new }
{
    let at = place(block.y, y) * 82;
    let mut top = a.y2;
    for run in Runs::of(table, i, a.x1, y, a.x2) {
        fill(
            kinds,
            run.kind as u8,
            at + place(block.x, run.start),
            at + place(block.x, run.end),
        );
        top = top.min(run.top);
    }
    top
}

// Cuts out what is within 2 k + 1 of the block; beyond that, all stays as outside the window.
pub fn cut(kinds: &mut [u8; 6724], t: &[u16], block: Block, k: u16)
    requires { (kinds.old ≡ replicate 6724 outside) × Plane t.now × (k ≤ 16) × (16 * block.x < width t.now) × (16 * block.y < height t.now) }
    ensures { CutOut (32 - 2 * k) (50 + 2 * k) (width t.now) (height t.now) (picture_of t.now) (16 * block.x) (16 * block.y) kinds.new }
{
    let table = Table::of(t);
    let a = near_area(table.width(), table.height(), block, 2 * k + 1);
    let u1 = place(block.x, a.x1);
    let u2 = place(block.x, a.x2);
    let mut i = 0;
    let mut y = a.y1;
    // A while loop: the step is to the row above those that are the same.
    while y < a.y2 {
        i = table.seek(i, a.x1, y);
        let top = cut_row(kinds, &table, i, a, block, y);
        copy_up(kinds, place(block.y, y), place(block.y, top), u1, u2);
        y = top;
    }
}
