// The calls: a table of space, and a table with an area set to a type or to bits. Each tests all that it is lent, and says no by the lowest
// number that applies; the working room is zero afterwards, whatever the answer.
ghost use Rattle.plane.specs.Answers.{number};
ghost use Rattle.paint.specs.Paint.{Blanked, PlanePainted, PlaneStamped};
ghost use Rattle.paint.specs.Steps.{Tested, Brushed, BrushedZero};

use brush::brush::{Brush, Ink};
use plane::answer::Refusal;
use plane::tile::Area;
use plane::words::{in_range, room_in, table_length};
use tables::table::{clear, paint_over, space_table};
use vet::vet::vet;

// Makes t the table of a window w by h that is all space.
pub fn blank(t: &mut [u16], w: u16, h: u16, kinds: u16) -> Result<(), Refusal>
    ensures { Blanked t.old w h kinds (number result) t.new }
{
    if !table_length(t.len()) {
        return Err(Refusal::Lengths);
    }
    if !in_range(w, h, kinds) {
        return Err(Refusal::Sizes);
    }
    let room = room_in(t.len());
    space_table(t, w, h, kinds, room);
    Ok(())
}

// Is the working room as long as t, and t as long as a table (1), are the words of t a picture's table (3), is the type below T (5), and
// does the brush fit the window (6)?
fn test(t: &[u16], b: &Brush, work: &[u16]) -> Result<(), Refusal>
    ensures { Tested t.now b.now work.now (number result) }
{
    if work.len() != t.len() {
        return Err(Refusal::Lengths);
    }
    vet(t)?;
    if !b.ink.is_below(t[3]) {
        return Err(Refusal::Kind);
    }
    if !b.lies_in(t[1], t[2]) {
        return Err(Refusal::Place);
    }
    Ok(())
}

// Sets the area of a brush, but for clearing the working room.
fn brush_over(t: &mut [u16], b: &Brush, work: &mut [u16]) -> Result<(), Refusal>
    ensures { Brushed t.old b.now work.old (number result) t.new }
{
    test(t, b, work)?;
    let room = room_in(t.len());
    paint_over(t, b, work, room).ok_or(Refusal::Full)?;
    Ok(())
}

// Sets the area of a brush to its ink. The working room is zero afterwards, whatever the answer.
fn brush_clear(t: &mut [u16], b: &Brush, work: &mut [u16]) -> Result<(), Refusal>
    ensures { BrushedZero t.old b.now work.old (number result) t.new work.new }
{
    let answer = brush_over(t, b, work);
    clear(work);
    answer
}

// Sets an area of t to a type.
pub fn paint(t: &mut [u16], a: Area, kind: u16, work: &mut [u16]) -> Result<(), Refusal>
    ensures { PlanePainted t.old a kind work.old (number result) t.new work.new }
{
    let b = Brush {
        area: a,
        ink: Ink::Flat(kind),
    };
    brush_clear(t, &b, work)
}

// Sets an area of t, of at most 48 by 48 squares, to bits: bit x - x1 of word y - y1.
pub fn stamp(t: &mut [u16], a: Area, rows: [u64; 48], work: &mut [u16]) -> Result<(), Refusal>
    ensures { PlaneStamped t.old a rows work.old (number result) t.new work.new }
{
    let b = Brush {
        area: a,
        ink: Ink::Bits(rows),
    };
    brush_clear(t, &b, work)
}
