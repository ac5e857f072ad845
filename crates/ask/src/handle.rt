// A reading handle on one plane: the lent table with its width and height. The functions that take one are thin: each takes it apart and
// calls one of query.rt. `point` and `neighbours`, whose parameters are plain, make a handle and ask it. All four are free functions, and no
// methods of Handle: docs/STATEMENTS.md names these calls, and a named call keeps its form. A side comes as a number, and 4 and more are
// refused by 6: the calls take every number.
ghost use Rattle.std.specs.Prelude.{◌≡◌};
ghost use Rattle.plane.specs.Answers.{number, value};
ghost use Rattle.plane.specs.Point.{Pointed};
ghost use Rattle.ask.specs.Side.{Neighboured};
ghost use Rattle.plane.specs.Words.{width, height};

use crate::query::{neighbours_at, point_at};
use plane::answer::Refusal;
use plane::words::header_word;

#[derive(Clone, Copy)]
pub struct Handle<'a> {
    pub table: &'a [u16],
    pub width: u16,
    pub height: u16,
}

impl<'a> Handle<'a> {
    // The handle on a table.
    pub fn of(table: &'a [u16]) -> Handle<'a>
        ensures { (result.table ≡ table.entry) × (result.width ≡ width table.now) × (result.height ≡ height table.now) }
    {
        Handle {
            table,
            width: header_word(table, 1),
            height: header_word(table, 2),
        }
    }
}

// The tile that holds a square.
pub fn point_of(p: Handle<'_>, x: u16, y: u16) -> Result<u16, Refusal>
    ensures { Pointed p.entry.table.now p.entry.width p.entry.height x y (number result) (value result) }
{
    point_at(p.table, p.width, p.height, x, y)
}

// The neighbours of a tile on a side.
pub fn neighbours_of(p: Handle<'_>, i: u16, side: u16, out: &mut [u16]) -> Result<usize, Refusal>
    ensures { Neighboured p.entry.table.now p.entry.width p.entry.height i side out.old (number result) (value result) out.new }
{
    neighbours_at(p.table, p.width, p.height, i, side, out)
}

// The tile that holds a square of a table.
pub fn point(table: &[u16], x: u16, y: u16) -> Result<u16, Refusal>
    ensures { Pointed table.now (width table.now) (height table.now) x y (number result) (value result) }
{
    point_of(Handle::of(table), x, y)
}

// The neighbours of a tile of a table on a side.
pub fn neighbours(table: &[u16], i: u16, side: u16, out: &mut [u16]) -> Result<usize, Refusal>
    ensures { Neighboured table.now (width table.now) (height table.now) i side out.old (number result) (value result) out.new }
{
    neighbours_of(Handle::of(table), i, side, out)
}
