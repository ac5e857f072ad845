// Is a slice of words a table? Linear in its tiles, with no working room: the tiles one by one (tiles.rt), then together (frames.rt).
ghost use Rattle.std.specs.Prelude.{◌≡◌, ◌+◌, ◌*◌, length, IfOk};
ghost use Rattle.plane.specs.Answers.{number};
ghost use Rattle.plane.specs.Plane.{Plane};
ghost use Rattle.plane.specs.Words.{Says, IsTable};
ghost use Rattle.vet.specs.Vet.{Vetted, SizedRight};

use crate::frames::Sewn;
use crate::tiles::{Listed, header};
use plane::answer::Refusal;
use plane::table::Table;
use plane::words::{room_in, table_length};

// Are the words of t the table of a picture, with room for so many tiles?
#[tactic(auto, using(plane::proofs::FromTable::table_plane, plane::proofs::ToTable::plane_table))]
pub fn is_table(t: &[u16], room: usize) -> bool
    requires { length t.now ≡ 4 + 9 * room }
    ensures { Says result (IsTable room t.now) }
{
    if room < usize::from(t[0]) || !header(t) {
        return false;
    }
    let tiles = Listed::of(t);
    tiles.sound() && Sewn::of(tiles).tiled()
}

// The table that the words of a slice are, if it is as long as a table (1), and they are a picture's (3).
#[tactic(auto, using(plane::proofs::FromTable::table_plane))]
pub fn tested<'a>(t: &'a [u16]) -> Result<Table<'a>, Refusal>
    ensures answer { Vetted t.now (number result) }
    ensures table { IfOk result (λ b. (b ≡ t.now) × Plane b) }
{
    if !table_length(t.len()) {
        return Err(Refusal::Lengths);
    }
    if !is_table(t, room_in(t.len())) {
        return Err(Refusal::NoTable);
    }
    Ok(Table::of(t))
}

// The same, if the window is w by h too.
pub fn tested_size<'a>(t: &'a [u16], w: u16, h: u16) -> Result<Table<'a>, Refusal>
    ensures answer { SizedRight t.now w h (number result) }
    ensures table { IfOk result (λ b. (b ≡ t.now) × Plane b) }
{
    let table = tested(t)?;
    if table.width() != w || table.height() != h {
        return Err(Refusal::NoTable);
    }
    Ok(table)
}

// Is the slice as long as a table (1), and are its words a picture's table (3)?
pub fn vet(t: &[u16]) -> Result<(), Refusal>
    ensures { Vetted t.now (number result) }
{
    tested(t)?;
    Ok(())
}

// The same, and is the window w by h? A public call for whoever needs no Table; the crates above take tested_size.
pub fn vet_size(t: &[u16], w: u16, h: u16) -> Result<(), Refusal>
    ensures { SizedRight t.now w h (number result) }
{
    tested_size(t, w, h)?;
    Ok(())
}
