// The tiles of a table together: by the stitches, the left border and the right side and top of each tile; and the areas add up to the window's, so no two tiles share a square.
ghost use Rattle.std.specs.Prelude.{◌≡◌, ◌-◌, ◌*◌, ◌<◌, ◌≤◌};
ghost use Rattle.plane.specs.Words.{Says, Tells, Header, count, width, height};
ghost use Rattle.plane.specs.Plane.{Stitches, Boxes, InOrder, ZeroAfter, Plane};
ghost use Rattle.vet.specs.Checks.{Column, Side, Upper, Framed, Frames, areas};

use crate::tiles::Listed;
use plane::tile::Tile;

// Listed tiles that are rectangles in the window, with true stitches.
#[derive(Clone, Copy)]
pub struct Sewn<'a> {
    tiles: Listed<'a>,
    ghost boxes: { Boxes tiles.words.now },
    ghost stitches: { Stitches tiles.words.now },
}

// The squares of a tile.
pub fn squares(a: Tile) -> usize
    requires { (a.left ≤ a.right) × (a.bottom ≤ a.top) × (a.right ≤ 4096) × (a.top ≤ 4096) }
    ensures { (result ≡ (a.right - a.left) * (a.top - a.bottom)) × (result ≤ 16777216) }
{
    usize::from(a.right - a.left) * usize::from(a.top - a.bottom)
}

impl<'a> Listed<'a> {
    // The tiles at the left border stand on one another, from the bottom to the top.
    #[tactic(auto, using(crate::proofs::Checked::border_tells))]
    pub fn column(self) -> bool
        requires { Boxes self.words.now }
        ensures { Tells result (Column self.entry.words.now) (Plane self.entry.words.now) }
    {
        let mut edge: u16 = 0;
        for i in 0..self.count() {
            let a = self.tile(i);
            if a.left == 0 {
                if a.bottom != edge {
                    return false;
                }
                edge = a.top;
            }
        }
        edge == self.height()
    }

    // The squares of all tiles.
    pub fn area_sum(self) -> usize
        requires { (Header self.words.now) × (Boxes self.words.now) }
        ensures { result ≡ areas self.entry.words.now (count self.entry.words.now) }
    {
        let mut sum: usize = 0;
        for i in 0..self.count() {
            sum += squares(self.tile(i));
        }
        sum
    }

    // Do the areas add up to the window's?
    pub fn fills(self) -> bool
        requires { (Header self.words.now) × (Boxes self.words.now) }
        ensures { Says result (areas self.entry.words.now (count self.entry.words.now) ≡ width self.entry.words.now * height self.entry.words.now) }
    {
        self.area_sum() == usize::from(self.width()) * usize::from(self.height())
    }
}

impl<'a> Sewn<'a> {
    // Such tiles.
    pub fn of(tiles: Listed<'a>) -> Sewn<'a>
        requires { (Boxes tiles.words.now) × (Stitches tiles.words.now) }
        ensures { result.tiles ≡ tiles.entry }
    {
        Sewn { tiles }
    }

    // Down the right side of tile i: the tiles there begin where it ends, and have other types.
    #[tactic(auto, using(crate::proofs::Checked::down_next))]
    pub fn side(self, i: u16) -> bool
        requires { i < count self.tiles.words.now }
        ensures { Tells result (Side self.entry.tiles.words.now i) (Plane self.entry.tiles.words.now) }
    {
        let a = self.tiles.tile(i);
        if a.right == self.tiles.width() {
            return true;
        }
        let mut y = a.top;
        let mut s = self.tiles.word(i, 7);
        // A while loop: the step is down a stitch, to where the tile there begins.
        while a.bottom < y {
            let b = self.tiles.tile(s);
            if b.left != a.right || b.kind == a.kind {
                return false;
            }
            y = b.bottom;
            s = self.tiles.word(s, 5);
        }
        true
    }

    // The tile above the right end of tile i is no continuation of it.
    pub fn upper(self, i: u16) -> bool
        requires { i < count self.tiles.words.now }
        ensures { Says result (Upper self.entry.tiles.words.now i) }
    {
        let a = self.tiles.tile(i);
        if a.top == self.tiles.height() {
            return true;
        }
        let b = self.tiles.tile(self.tiles.word(i, 8));
        b.left != a.left || b.right != a.right || b.kind != a.kind
    }

    // The right side and the top of tile i.
    #[tactic(auto, using(crate::proofs::Checked::plane_upper))]
    pub fn framed(self, i: u16) -> bool
        requires { i < count self.tiles.words.now }
        ensures { Tells result (Framed self.entry.tiles.words.now i) (Plane self.entry.tiles.words.now) }
    {
        self.side(i) && self.upper(i)
    }

    // The right sides and the tops of all tiles.
    pub fn frames(self) -> bool
        ensures { Tells result (Frames self.entry.tiles.words.now) (Plane self.entry.tiles.words.now) }
    {
        (0..self.tiles.count()).all(|i| self.framed(i))
    }

    // The tiles together.
    #[tactic(auto, using(crate::proofs::Checked::checks_plane, crate::proofs::Checked::plane_areas))]
    pub fn tiled(self) -> bool
        requires { (Header self.tiles.words.now) × (InOrder self.tiles.words.now) × (ZeroAfter self.tiles.words.now) }
        ensures { Says result (Plane self.entry.tiles.words.now) }
    {
        self.tiles.column() && self.frames() && self.tiles.fills()
    }
}
