// A new layout.
ghost use Rattle.plane.specs.Answers.{number};
ghost use Rattle.sheet.specs.Layout.{lent};
ghost use Rattle.drawing.specs.Create.{Created};

use plane::answer::Refusal;
use plane::words::{in_range, room_in};
use sheet::shape::Layout;
use tables::table::space_table;

// Makes one tile of space in each of three tables.
pub fn create(
    material: &mut [u16],
    errors: &mut [u16],
    waiting: &mut [u16],
    w: u16,
    h: u16,
    t: u16,
) -> Result<(), Refusal>
    ensures { Created (lent material.old errors.old waiting.old) w h t (number result) (lent material.new errors.new waiting.new) }
{
    let before = Layout {
        material,
        errors,
        waiting,
    };
    if !before.one_length() {
        return Err(Refusal::Lengths);
    }
    if !in_range(w, h, t) {
        return Err(Refusal::Sizes);
    }
    let room = room_in(material.len());
    space_table(material, w, h, t, room);
    space_table(errors, w, h, 2, room);
    space_table(waiting, w, h, 2, room);
    Ok(())
}
