// A piece with nothing near it that could be an edge: its marks are all 0.
ghost use Rattle.std.specs.Prelude.{◌≡◌, true, ◌*◌, ◌≤◌, ◌<◌};
ghost use Rattle.plane.specs.Plane.{Plane};
ghost use Rattle.plane.specs.Words.{width, height, picture_of, Says};
ghost use Rattle.piece.specs.Calm.{Calm, Covers, Interior};

use crate::rows::near_area;
use plane::table::Table;
use plane::tile::{Area, Tile};
use waits::block::Block;

// Does the tile hold every square of the area?
fn covers(t: Tile, a: Area) -> bool
    ensures { Says result (Covers t a) }
{
    t.left <= a.x1 && a.x2 <= t.right && t.bottom <= a.y1 && a.y2 <= t.top
}

// Is every square within n of the block in a window w by h?
fn interior(w: u16, h: u16, block: Block, n: u16) -> bool
    requires { (block.x < 256) × (block.y < 256) × (n ≤ 32) }
    ensures { Says result (Interior w h n block.x block.y) }
{
    n <= 16 * block.x
        && 16 * block.x + 16 + n <= w
        && n <= 16 * block.y
        && 16 * block.y + 16 + n <= h
}

// Is everything within 2 k of the block of one type? The tile at the block's corner covers the window's part of it, and that is all of it or space.
// This, cut, piece_rows and shows_rows take words and no Table, since docs/ARCHITECTURE.md names them with that: a call that a page names
// keeps what it takes.
pub fn calm(t: &[u16], block: Block, k: u16) -> bool
    requires { Plane t.now × (16 * block.x < width t.now) × (16 * block.y < height t.now) × (k ≤ 16) }
    ensures { result ≡ true → Calm (width t.now) (height t.now) (picture_of t.now) k block.x block.y }
{
    let table = Table::of(t);
    let (w, h) = (table.width(), table.height());
    let corner = table.tile(table.seek(0, 16 * block.x, 16 * block.y));
    covers(corner, near_area(w, h, block, 2 * k))
        && (corner.kind == 0 || interior(w, h, block, 2 * k))
}
