// The four sides of a tile.
ghost use Rattle.std.specs.Prelude.{◌≡◌};
ghost use Rattle.plane.specs.Sides.{SideNumbered, side_start, side_end};

use crate::answer::Refusal;
use crate::tile::Tile;

// The sides, in the order of their numbers 0 to 3.
#[derive(Clone, Copy, PartialEq, Eq)]
pub enum Side {
    Left,
    Bottom,
    Right,
    Top,
}

// The side of a number; there is none from 4 on.
impl TryFrom<u16> for Side {
    type Error = Refusal;

    ghost try_from_gives = { SideNumbered };

    fn try_from(n: u16) -> Result<Side, Refusal> {
        match n {
            0 => Ok(Side::Left),
            1 => Ok(Side::Bottom),
            2 => Ok(Side::Right),
            3 => Ok(Side::Top),
            _ => Err(Refusal::Place),
        }
    }
}

impl Tile {
    // Where a side starts, from below or from the left.
    pub fn side_start(self, side: Side) -> u16
        ensures { result ≡ side_start self side }
    {
        match side {
            Side::Left | Side::Right => self.bottom,
            Side::Bottom | Side::Top => self.left,
        }
    }

    // Where it ends.
    pub fn side_end(self, side: Side) -> u16
        ensures { result ≡ side_end self side }
    {
        match side {
            Side::Left | Side::Right => self.top,
            Side::Bottom | Side::Top => self.right,
        }
    }
}
