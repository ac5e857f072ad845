// The neighbours of a tile on a side. The squares just outside the side are walked tile by tile.
ghost use Rattle.std.specs.Prelude.{◌≡◌, ◌<◌, ◌≤◌, length};
ghost use Rattle.plane.specs.Listing.{ListedTo};
ghost use Rattle.plane.specs.Picture.{before};
ghost use Rattle.plane.specs.Sides.{side_number};
ghost use Rattle.plane.specs.Words.{count, tile_of};
ghost use Rattle.ask.specs.Side.{side_length, square_beside, reach_along, neighbours_of};

use plane::listing::note;
use plane::side::Side;
use plane::table::Table;
use plane::tile::Tile;

// A square of the plane, or one beside it.
#[derive(Clone, Copy, PartialEq, Eq)]
pub struct Square {
    pub x: u16,
    pub y: u16,
}

// A side of a tile. The squares just outside it are counted from below or from the left.
#[derive(Clone, Copy, PartialEq, Eq)]
pub struct Border {
    pub tile: Tile,
    pub side: Side,
}

// One less, and 65535, which no window has, where there is no less.
#[tactic(auto, unfolding(plane::specs::Picture::before))]
pub fn one_before(x: u16) -> u16
    ensures { result ≡ before x (λ i. i) }
{
    x.wrapping_sub(1)
}

impl Border {
    // How many squares lie along it.
    #[tactic(auto, using(crate::proofs::Alongs::length_is))]
    pub fn length(self) -> u16
        ensures { result ≡ side_length self.tile (side_number self.side) }
    {
        let from = self.tile.side_start(self.side);
        self.tile.side_end(self.side).saturating_sub(from)
    }

    // Square j just outside it.
    pub fn square(self, j: u16) -> Square
        requires { j < side_length self.tile (side_number self.side) }
        ensures { result ≡ square_beside self.tile (side_number self.side) j }
    {
        let t = self.tile;
        let (x, y) = match self.side {
            Side::Left => (one_before(t.left), t.bottom + j),
            Side::Bottom => (t.left + j, one_before(t.bottom)),
            Side::Right => (t.right, t.bottom + j),
            Side::Top => (t.left + j, t.top),
        };
        Square { x, y }
    }

    // How far along it the tile b reaches.
    #[tactic(auto, using(crate::proofs::Alongs::reach_is))]
    pub fn reach(self, b: Tile) -> u16
        ensures { result ≡ reach_along self.tile (side_number self.side) b }
    {
        let from = self.tile.side_start(self.side);
        b.side_end(self.side).saturating_sub(from)
    }
}

// Lists the neighbours of tile i on a side, the first most of them; how many there are.
pub fn list_side(table: &Table<'_>, i: u16, side: Side, out: &mut [u16], most: usize) -> usize
    requires { (i < count table.now) × (most ≤ length out.old) }
    ensures { ListedTo (neighbours_of table.now (tile_of table.now i) (side_number side)) most out.old out.new result }
{
    // A tile's number is below a count that is a word, so none is 65535, which stands for no tile.
    prove!(i < table.count());
    let border = Border {
        tile: table.tile(i),
        side,
    };
    let n = border.length();
    let mut j = 0;
    let mut k = i;
    let mut m: usize = 0;
    // A while loop: the step is to the end of the tile found, not to the next square.
    while j < n {
        let s = border.square(j);
        let Some(found) = table.find(k, s.x, s.y) else {
            return m;
        };
        m = note(out, m, found, most);
        k = found;
        j = border.reach(table.tile(found));
    }
    m
}
