// The errors of one piece, marked anew, and the end of its waiting.
ghost use Rattle.std.specs.Prelude.{◌≡◌, length};
ghost use Rattle.plane.specs.Picture.{painted, stamped};
ghost use Rattle.plane.specs.Words.{width, height, kinds, picture_of};
ghost use Rattle.brush.specs.Brush.{Small};
ghost use Rattle.tables.specs.Tables.{Paintable};
ghost use Rattle.rules.specs.Words.{rules_of};
ghost use Rattle.piece.specs.Remark.{Checkable};
ghost use Rattle.piece.specs.Rows.{PieceRows};
ghost use Rattle.remark.specs.Marking.{Remade, MarkIn, errors_near};

use piece::calm::calm;
use piece::rows::{near_area, piece_rows};
use piece::shown::shows_rows;
use plane::tile::Area;
use plane::words::room_in;
use rules::list::RuleList;
use tables::table::{paint_table, stamp_table};
use waits::block::Block;

// The marks of the squares within k of the piece, k being the halo. Where all is of one type there are none, which takes one look.
fn near_marks(material: &[u16], rules: RuleList<'_>, piece: Block, k: u16) -> [u64; 48]
    requires { Checkable material.now rules.words.now rules.used k piece.x piece.y }
    ensures { PieceRows (width material.now) (height material.now) (picture_of material.now) (rules_of rules.entry.words.now rules.entry.used) k piece.x piece.y result }
{
    if calm(material, piece, k) {
        return [0u64; 48];
    }
    piece_rows(material, rules, piece, k)
}

// Marks the errors of the area near; None, with errors as they were, where they have no room.
fn mark_errors(
    errors: &mut [u16],
    near: Area,
    rows: [u64; 48],
    work: &mut [u16],
    room: usize,
) -> Option<()>
    requires paintable { Paintable room errors.old near }
    requires small { (Small near) × (length work.old ≡ length errors.old) }
    ensures { Remade errors.old (stamped (picture_of errors.old) near rows) result errors.new }
{
    stamp_table(errors, near, rows, work, room)?;
    Some(())
}

// The block waits no more; None, with waiting as it was, where it has no room.
pub fn end_waiting(waiting: &mut [u16], block: Area, work: &mut [u16], room: usize) -> Option<()>
    requires paintable { Paintable room waiting.old block }
    requires waiting_value { (kinds waiting.old ≡ 2) × (length work.old ≡ length waiting.old) }
    ensures { Remade waiting.old (painted (picture_of waiting.old) block 0) result waiting.new }
{
    paint_table(waiting, block, 0, work, room)?;
    Some(())
}

// Marks the errors of the piece; None, with errors as they were, where they have no room. Where its marks are recorded already, most
// often by the pieces beside it, it leaves them alone.
#[tactic(auto, using(crate::proofs::MarkErrors::kept_words, crate::proofs::MarkErrors::kept_room))]
pub fn remark(
    material: &[u16],
    errors: &mut [u16],
    work: &mut [u16],
    rules: RuleList<'_>,
    piece: Block,
) -> Option<()>
    requires { MarkIn material.now errors.old work.old rules.words.now rules.used piece.x piece.y }
    ensures { Remade errors.old (errors_near material.now errors.old rules.entry.words.now rules.entry.used piece.x piece.y) result errors.new }
{
    let k = rules.halo();
    let near = near_area(material[1], material[2], piece, k);
    let rows = near_marks(material, rules, piece, k);
    if shows_rows(errors, near, &rows) {
        return Some(());
    }
    mark_errors(errors, near, rows, work, room_in(material.len()))
}
