// From a tile to the tile that holds a square, along the stitches: up or down to the square's row, then along that row.
// Each step comes nearer, since a table's stitches are true; so it ends without a limit on the steps.
// The six walks come as three pairs: up_to and down_to, left_of and right_of, leftward and rightward. A pair is no one function with the
// direction as its parameter: each of the two asks and promises its own side of a tile, and the comparison turns round, so the parameter
// would decide every line and clause.
// That a tile is on a row is said as OnRow in each clause, by no type: it is a fact of a table, a tile and a row together, new at each step.
ghost use Rattle.std.specs.Prelude.{◌≡◌, ◌-◌, ◌<◌, ◌≤◌};
ghost use Rattle.plane.specs.Plane.{Plane, Names};
ghost use Rattle.plane.specs.Point.{FoundAt, OnRow};
ghost use Rattle.plane.specs.Words.{count, width, height, word};

use crate::table::Table;

impl<'a> Table<'a> {
    // Up from tile i, which begins at row y or below it, to a tile on row y.
    pub fn up_to(&self, i: u16, y: u16) -> u16
        requires i_bound { (i < count self.now) × (word self.now i 1 ≤ y) × (y < height self.now) }
        ensures { OnRow self.now result y }
    {
        let mut k = i;
        // A while loop: the step is to the tile that a stitch names, the one above.
        while self.top(k) <= y {
            k = self.rt(k);
        }
        k
    }

    // Down from tile i, which ends above row y, to a tile on row y.
    pub fn down_to(&self, i: u16, y: u16) -> u16
        requires i_bound { (i < count self.now) × (y < word self.now i 3) }
        ensures { OnRow self.now result y }
    {
        let mut k = i;
        // A while loop: the step is to the tile that a stitch names, the one below.
        while y < self.bottom(k) {
            k = self.lb(k);
        }
        k
    }

    // From tile i to a tile on row y.
    pub fn to_row(&self, i: u16, y: u16) -> u16
        requires i_bound { (i < count self.now) × (y < height self.now) }
        ensures { OnRow self.now result y }
    {
        if y < self.bottom(i) {
            return self.down_to(i, y);
        }
        self.up_to(i, y)
    }

    // The tile to the right of tile i on row y: down its right side from the top.
    pub fn right_of(&self, i: u16, y: u16) -> u16
        requires on_row { OnRow self.now i y }
        requires i_bound { word self.now i 2 < width self.now }
        ensures { Names self.now result (word self.now i 2) y }
    {
        let mut k = self.tr(i);
        // A while loop: the step is to the tile that a stitch names. It is down_to's, but keeps more: each tile begins where tile i ends.
        while y < self.bottom(k) {
            k = self.lb(k);
        }
        k
    }

    // The tile to the left of tile i on row y: up its left side from the bottom.
    pub fn left_of(&self, i: u16, y: u16) -> u16
        requires on_row { OnRow self.now i y }
        requires nonzero { 0 < word self.now i 0 }
        ensures { Names self.now result (word self.now i 0 - 1) y }
    {
        let mut k = self.bl(i);
        // A while loop: the step is to the tile that a stitch names. It is up_to's, but keeps more: each tile ends where tile i begins.
        while self.top(k) <= y {
            k = self.rt(k);
        }
        k
    }

    // Along row y to the right, from a tile that begins at x or left of it.
    pub fn rightward(&self, i: u16, x: u16, y: u16) -> u16
        requires on_row { OnRow self.now i y }
        requires i_bound { (word self.now i 0 ≤ x) × (x < width self.now) }
        ensures { Names self.now result x y }
    {
        let mut k = i;
        // A while loop: the step is to the tile that a stitch names, or one beside that.
        while self.right(k) <= x {
            k = self.right_of(k, y);
        }
        k
    }

    // Along row y to the left, from a tile that ends right of x.
    pub fn leftward(&self, i: u16, x: u16, y: u16) -> u16
        requires on_row { OnRow self.now i y }
        requires x_bound { x < word self.now i 2 }
        ensures { Names self.now result x y }
    {
        let mut k = i;
        // A while loop: the step is to the tile that a stitch names, or one beside that.
        while x < self.left(k) {
            k = self.left_of(k, y);
        }
        k
    }

    // Along row y from tile i to the tile that holds (x,y).
    pub fn to_column(&self, i: u16, x: u16, y: u16) -> u16
        requires on_row { OnRow self.now i y }
        requires x_bound { x < width self.now }
        ensures { Names self.now result x y }
    {
        if x < self.left(i) {
            return self.leftward(i, x, y);
        }
        self.rightward(i, x, y)
    }

    // The tile that holds the square (x,y) of the window, looked for from tile i.
    pub fn seek(&self, i: u16, x: u16, y: u16) -> u16
        requires i_bound { (i < count self.now) × (x < width self.now) × (y < height self.now) }
        ensures { Names self.now result x y }
    {
        let j = self.to_row(i, y);
        self.to_column(j, x, y)
    }

    // The same for any square; none where it is outside the window.
    pub fn find(&self, i: u16, x: u16, y: u16) -> Option<u16>
        requires i_bound { i < count self.now }
        ensures { FoundAt self.now x y result }
    {
        if x < self.width() && y < self.height() {
            Some(self.seek(i, x, y))
        } else {
            None
        }
    }
}
