// Squares and tiles of a type in an area: one pass over the tiles.
ghost use Rattle.std.specs.Prelude.{cond, [], ◌∷◌, ◌≡◌, ◌+◌, ◌≤◌, length};
ghost use Rattle.plane.specs.Area.{AreaIn, squares_in, meets, tiles_in};
ghost use Rattle.plane.specs.Listing.{ListedTo, Lists};
ghost use Rattle.plane.specs.Words.{width, height, picture_of};

use crate::listing::note;
use crate::table::Table;
use crate::tile::{Area, Tile};

// Lists tile t, of number i, if it is of the type and meets the area; the next place.
pub fn list_tile(
    t: Tile,
    kind: u16,
    a: Area,
    i: u16,
    out: &mut [u16],
    m: usize,
    most: usize,
) -> usize
    requires { (most ≤ length out.old) × (m ≤ 65535) }
    ensures { (Lists (cond (meets t kind a) (i ∷ []) []) most out.old m out.new result) × (result ≤ m + 1) }
{
    if t.meets(kind, a) {
        note(out, m, i, most)
    } else {
        m
    }
}

impl<'a> Table<'a> {
    // The squares of a type in an area.
    pub fn count_squares(&self, kind: u16, a: Area) -> usize
        requires { AreaIn (width self.now) (height self.now) a }
        ensures { result ≡ squares_in (picture_of self.now) kind a }
    {
        let mut sum: usize = 0;
        for i in 0..self.count() {
            sum += self.tile(i).squares_in(kind, a);
        }
        sum
    }

    // Lists the tiles of a type that meet an area, the first most of them; how many there are.
    pub fn list_tiles(&self, kind: u16, a: Area, out: &mut [u16], most: usize) -> usize
        requires { most ≤ length out.old }
        ensures { ListedTo (tiles_in self.now kind a) most out.old out.new result }
    {
        let mut m: usize = 0;
        for number in 0..self.count() {
            m = list_tile(self.tile(number), kind, a, number, out, m, most);
        }
        m
    }
}
