// Paint: an area of the material set to a type, and the area waiting, or neither.
ghost use Rattle.std.specs.Prelude.{◌≡◌, ◌<◌, length};
ghost use Rattle.plane.specs.Answers.{number};
ghost use Rattle.plane.specs.Words.{kinds};
ghost use Rattle.tables.specs.Tables.{Paintable};
ghost use Rattle.sheet.specs.Layout.{lent, tables};
ghost use Rattle.drawing.specs.Paint.{Painted};
ghost use Rattle.drawing.specs.PaintSteps.{PaintTested, PaintedBoth, PaintedTables};

use plane::answer::Refusal;
use plane::tile::Area;
use plane::words::room_in;
use sheet::shape::Layout;
use tables::table::{clear, paint_table, tiles_after};

// Paints material and waiting of a layout, or neither where one of the two has no room: waiting is counted before the material is painted.
fn paint_both(
    material: &mut [u16],
    waiting: &mut [u16],
    work: &mut [u16],
    a: Area,
    kind: u16,
    room: usize,
) -> Option<()>
    requires paintable { (Paintable room material.old a) × (Paintable room waiting.old a) }
    requires kind_bound { (kind < kinds material.old) × (1 < kinds waiting.old) }
    requires waiting_len { (length waiting.old ≡ length material.old) × (length work.old ≡ length material.old) }
    ensures { PaintedBoth material.old waiting.old a kind result material.new waiting.new }
{
    tiles_after(waiting, a, 1, work, room)?;
    paint_table(material, a, kind, work, room)?;
    paint_table(waiting, a, 1, work, room);
    Some(())
}

// What speaks against a paint, but for want of room.
fn test(before: Layout<'_>, work: &[u16], a: Area, kind: u16) -> Result<(), Refusal>
    ensures { PaintTested (tables before.entry) work.now a kind (number result) }
{
    if !before.one_length() || work.len() != before.material.len() {
        return Err(Refusal::Lengths);
    }
    if !before.is_layout() {
        return Err(Refusal::NoTable);
    }
    if before.material[3] <= kind {
        return Err(Refusal::Kind);
    }
    if !a.lies_in(before.material[1], before.material[2]) {
        return Err(Refusal::Place);
    }
    Ok(())
}

// Paint, but for clearing the working room. The slices stand apart, as the public call and the entry for C lend them: two are written, and a
// Layout only reads.
fn paint_tables(
    material: &mut [u16],
    errors: &[u16],
    waiting: &mut [u16],
    work: &mut [u16],
    a: Area,
    kind: u16,
) -> Result<(), Refusal>
    ensures { PaintedTables (lent material.old errors.now waiting.old) work.old a kind (number result) (lent material.new errors.now waiting.new) }
{
    let before = Layout {
        material,
        errors,
        waiting,
    };
    test(before, work, a, kind)?;
    let room = room_in(material.len());
    paint_both(material, waiting, work, a, kind, room).ok_or(Refusal::Full)
}

// Sets an area of the material to a type, and marks that area waiting. The working room is zero afterwards, whatever the answer.
pub fn paint(
    material: &mut [u16],
    errors: &[u16],
    waiting: &mut [u16],
    work: &mut [u16],
    a: Area,
    kind: u16,
) -> Result<(), Refusal>
    ensures { Painted (lent material.old errors.now waiting.old) work.old a kind (number result) (lent material.new errors.now waiting.new) work.new }
{
    let answer = paint_tables(material, errors, waiting, work, a, kind);
    clear(work);
    answer
}
