// Whole tables: of space, and of the picture after, made at the front of the working room and taken over. For callers that have tested what
// they are lent. The table or working slice and its room stand apart: a struct that held the lent `&mut` slice would have to say in each
// contract that it still holds that slice. The room is counted once, by the caller. Paintable and Small are facts of a table, a room and an area
// together, asked of each table that a call is lent.
ghost use Rattle.std.specs.Prelude.{◌≡◌, ◌+◌, ◌*◌, ◌<◌, ◌≤◌, length, replicate};
ghost use Rattle.plane.specs.Picture.{table, space, painted, stamped};
ghost use Rattle.plane.specs.Plane.{Plane};
ghost use Rattle.plane.specs.Words.{kinds, picture_of};
ghost use Rattle.brush.specs.Brush.{Small, goal};
ghost use Rattle.tables.specs.Tables.{Headed, Zeroed, Cleared, MayPaint, Paintable, TilesAfter, PaintedOver};

use brush::brush::{Brush, Ink};
use brush::painting::Painting;
use plane::table::Table;
use plane::tile::{Area, Tile};
use slots::slots::put_tile;
use stitches::restitch::restitch;
use stitches::stitch::stitch;
use strips::cover::rebuild;

// Writes the header.
pub fn put_header(work: &mut [u16], n: usize, w: u16, h: u16, k: u16)
    requires { (4 ≤ length work.old) × (n ≤ 65535) }
    ensures { Headed work.old work.new n w h k }
{
    work[..4].copy_from_slice(&[n as u16, w, h, k]);
}

// Sets the words from one place up to another to zero.
fn clear_to(t: &mut [u16], from: usize, to: usize)
    requires { to ≤ length t.old }
    ensures { Zeroed t.old t.new from to }
{
    t[from.min(to)..to].fill(0);
}

// Sets the words from a place on to zero.
pub fn clear_from(work: &mut [u16], from: usize)
    ensures { Cleared work.old work.new from }
{
    let end = work.len();
    clear_to(work, from, end);
}

// Sets all words to zero.
pub fn clear(work: &mut [u16])
    ensures { work.new ≡ replicate (length work.old) 0 }
{
    work.fill(0);
}

// The table t takes over the header and the n tiles that the working slice has. Where t had more tiles, their words become zero. Word by word, as
// in slots' append: copy_from_slice would call memmove here.
fn adopt(t: &mut [u16], work: &[u16], n: usize)
    requires { Plane t.old × (length t.old ≡ length work.now) × (4 + 9 * n ≤ length t.old) }
    ensures { Cleared work.now t.new (4 + 9 * n) }
{
    let end = 4 + 9 * n;
    let old = 4 + 9 * usize::from(t[0]);
    for i in 0..end {
        t[i] = work[i];
    }
    clear_to(t, end, old);
}

// Paints a table over: how many tiles it then has; none, and the table as it was, where they are more than its room.
pub fn paint_over(t: &mut [u16], b: &Brush, work: &mut [u16], room: usize) -> Option<usize>
    requires may_paint { MayPaint room t.old b.now }
    requires work_len { length work.old ≡ length t.old }
    ensures { PaintedOver room t.old (goal t.old b.now) t.new result }
{
    let table = Table::of(t);
    let n = rebuild(&Painting::of(&table, b), work, room)?;
    restitch(&table, work, n);
    put_header(work, n, t[1], t[2], t[3]);
    adopt(t, work, n);
    Some(n)
}

// The table of a window that is all space.
pub fn space_table(t: &mut [u16], w: u16, h: u16, kinds: u16, room: usize)
    requires { (length t.old ≡ 4 + 9 * room) × (1 ≤ room) × (1 ≤ w) × (1 ≤ h) }
    ensures { t.new ≡ table room w h kinds space }
{
    let whole = Tile {
        left: 0,
        bottom: 0,
        right: w,
        top: h,
        kind: 0,
    };
    put_tile(t, 0, whole);
    stitch(t, 1, w, h);
    put_header(t, 1, w, h, kinds);
    clear_from(t, 13);
}

// Paints a table in place: an area is set to a type. The working slice may hold anything, before and after.
pub fn paint_table(
    t: &mut [u16],
    a: Area,
    kind: u16,
    work: &mut [u16],
    room: usize,
) -> Option<usize>
    requires paintable { Paintable room t.old a }
    requires kind_bound { (kind < kinds t.old) × (length work.old ≡ length t.old) }
    ensures { PaintedOver room t.old (painted (picture_of t.old) a kind) t.new result }
{
    let b = Brush {
        area: a,
        ink: Ink::Flat(kind),
    };
    paint_over(t, &b, work, room)
}

// How many tiles that would be. The table stays, and it costs less, since nothing is stitched.
pub fn tiles_after(t: &[u16], a: Area, kind: u16, work: &mut [u16], room: usize) -> Option<usize>
    requires paintable { Paintable room t.now a }
    requires kind_bound { (kind < kinds t.now) × (length work.old ≡ length t.now) }
    ensures { TilesAfter room t.now (painted (picture_of t.now) a kind) result }
{
    let table = Table::of(t);
    let b = Brush {
        area: a,
        ink: Ink::Flat(kind),
    };
    rebuild(&Painting::of(&table, &b), work, room)
}

// Paints a table in place: an area of at most 48 by 48 squares is set to its bits.
pub fn stamp_table(
    t: &mut [u16],
    a: Area,
    rows: [u64; 48],
    work: &mut [u16],
    room: usize,
) -> Option<usize>
    requires paintable { Paintable room t.old a }
    requires small { (Small a) × (length work.old ≡ length t.old) }
    ensures { PaintedOver room t.old (stamped (picture_of t.old) a rows) t.new result }
{
    let b = Brush {
        area: a,
        ink: Ink::Bits(rows),
    };
    paint_over(t, &b, work, room)
}
