// The questions to a table, with their refusals.
ghost use Rattle.plane.specs.Answers.{number, value};
ghost use Rattle.plane.specs.Area.{SquaresCounted, TilesListed};
ghost use Rattle.plane.specs.Point.{Pointed};
ghost use Rattle.ask.specs.Side.{Neighboured};

use crate::side::list_side;
use plane::answer::Refusal;
use plane::side::Side;
use plane::tile::Area;
use vet::vet::{tested, tested_size};

// The tile that holds the square (x,y) of a table w by h.
pub fn point_at(t: &[u16], w: u16, h: u16, x: u16, y: u16) -> Result<u16, Refusal>
    ensures { Pointed t.now w h x y (number result) (value result) }
{
    let table = tested_size(t, w, h)?;
    table.find(0, x, y).ok_or(Refusal::Place)
}

// The neighbours of tile i on a side, in a table w by h: how many, and their numbers in the slice. The side is a number, and 4 and more are
// refused.
#[tactic(auto, using(crate::proofs::Asked::neighboured_full, crate::proofs::Asked::neighboured_done))]
pub fn neighbours_at(
    t: &[u16],
    w: u16,
    h: u16,
    i: u16,
    side: u16,
    out: &mut [u16],
) -> Result<usize, Refusal>
    ensures { Neighboured t.now w h i side out.old (number result) (value result) out.new }
{
    let table = tested_size(t, w, h)?;
    if table.count() <= i {
        return Err(Refusal::Place);
    }
    let side = Side::try_from(side)?;
    let n = list_side(&table, i, side, out, 0);
    if out.len() < n {
        return Err(Refusal::Full);
    }
    list_side(&table, i, side, out, n);
    Ok(n)
}

// How many squares of a type an area has.
pub fn squares(t: &[u16], kind: u16, a: Area) -> Result<usize, Refusal>
    ensures { SquaresCounted t.now kind a (number result) (value result) }
{
    let table = tested(t)?;
    if !a.lies_in(table.width(), table.height()) {
        return Err(Refusal::Place);
    }
    Ok(table.count_squares(kind, a))
}

// The tiles of a type that meet an area: how many, and their numbers in the slice.
#[tactic(auto, using(crate::proofs::Asked::tiles_full, crate::proofs::Asked::tiles_done))]
pub fn tiles(t: &[u16], kind: u16, a: Area, out: &mut [u16]) -> Result<usize, Refusal>
    ensures { TilesListed t.now kind a out.old (number result) (value result) out.new }
{
    let table = tested(t)?;
    if !a.lies_in(table.width(), table.height()) {
        return Err(Refusal::Place);
    }
    let n = table.list_tiles(kind, a, out, 0);
    if out.len() < n {
        return Err(Refusal::Full);
    }
    table.list_tiles(kind, a, out, n);
    Ok(n)
}
