// Tiles and areas, by value.
ghost use Rattle.std.specs.Prelude.{◌≡◌, ◌+◌, ◌-◌, ◌*◌, ◌<◌, ◌≤◌};
ghost use Rattle.plane.specs.Strips.{Holds, Precedes};
ghost use Rattle.plane.specs.Area.{AreaIn, meets, shared};
ghost use Rattle.plane.specs.Words.{Says};

// A tile: the squares with left <= x < right and bottom <= y < top, all of one type.
#[derive(Clone, Copy, PartialEq, Eq)]
pub struct Tile {
    pub left: u16,
    pub bottom: u16,
    pub right: u16,
    pub top: u16,
    pub kind: u16,
}

// The squares with x1 <= x < x2 and y1 <= y < y2.
#[derive(Clone, Copy, PartialEq, Eq)]
pub struct Area {
    pub x1: u16,
    pub y1: u16,
    pub x2: u16,
    pub y2: u16,
}

impl Tile {
    // Is (x,y) a square of the tile?
    pub fn holds(self, x: u16, y: u16) -> bool
        ensures { Says result (Holds self x y) }
    {
        self.left <= x && x < self.right && self.bottom <= y && y < self.top
    }

    // Does the tile come before the other, by bottom and then left? One comparison, since which of two would decide is hard to foresee.
    pub fn precedes(self, other: Tile) -> bool
        ensures { Says result (Precedes self other) }
    {
        self.corner() < other.corner()
    }

    // The bottom and the left in one number.
    fn corner(self) -> u32
        ensures { (result ≡ 65536 * self.bottom + self.left) × (self.left < 65536) }
    {
        65536 * u32::from(self.bottom) + u32::from(self.left)
    }

    // Is the tile of that type, and does it share a square with the area?
    #[tactic(auto, unfolding(crate::specs::Area::meets))]
    pub fn meets(self, kind: u16, a: Area) -> bool
        ensures { result ≡ meets self kind a }
    {
        self.kind == kind
            && self.left < a.x2
            && a.x1 < self.right
            && self.bottom < a.y2
            && a.y1 < self.top
    }

    // The squares that the tile shares with the area, if it is of that type.
    #[tactic(auto, using(crate::proofs::Basics::area_bound))]
    pub fn squares_in(self, kind: u16, a: Area) -> usize
        requires { (a.x2 ≤ 4096) × (a.y2 ≤ 4096) }
        ensures { (result ≡ shared self kind a) × (result ≤ 16777216) }
    {
        if self.kind != kind {
            return 0;
        }
        let x = self.right.min(a.x2).saturating_sub(self.left.max(a.x1));
        let y = self.top.min(a.y2).saturating_sub(self.bottom.max(a.y1));
        usize::from(x) * usize::from(y)
    }
}

impl Area {
    // Is the area in a window w by h, and not empty?
    pub fn lies_in(self, w: u16, h: u16) -> bool
        ensures { Says result (AreaIn w h self) }
    {
        self.x1 < self.x2 && self.y1 < self.y2 && self.x2 <= w && self.y2 <= h
    }
}
