// The pieces that wait: the lowest, those of a row, and how many. A piece waits exactly if a waiting tile crosses it.
ghost use Rattle.std.specs.Prelude.{◌≡◌, ◌≤◌, ◌<◌, length, count_by};
ghost use Rattle.plane.specs.Words.{width, height, picture_of};
ghost use Rattle.plane.specs.Plane.{Plane, Boxed};
ghost use Rattle.waits.specs.Pieces.{lowest_block, waiting_pieces};
ghost use Rattle.waits.specs.Waits.{key_of, LeastKey, MarksTile, WaitingRow};

use crate::block::Block;
use plane::table::Table;
use plane::tile::Tile;

// The number of the piece at a tile's lower left square: 256 a row, and its column.
fn key_of(a: Tile) -> usize
    ensures { result ≡ key_of a }
{
    256 * (usize::from(a.bottom) / 16) + usize::from(a.left) / 16
}

// The least number of the waiting tiles' lower left pieces.
fn least_key(t: &Table<'_>) -> Option<usize>
    ensures { LeastKey t.now result }
{
    let mut least = None;
    for i in 0..t.count() {
        let a = t.tile(i);
        if a.kind != 0 {
            let key = key_of(a);
            least = Some(match least {
                Some(k) => key.min(k),
                None => key,
            });
        }
    }
    least
}

// The lowest waiting piece, by row and then column.
// This, row_of and waiting_pieces take words and no Table, since docs/STATEMENTS.md names them with that: a call that a page names keeps
// what it takes.
pub fn lowest_waiting(t: &[u16]) -> Option<Block>
    requires { Plane t.now }
    ensures { result ≡ lowest_block (width t.now) (height t.now) (picture_of t.now) }
{
    let key = least_key(&Table::of(t))?;
    Some(Block {
        x: (key % 256) as u16,
        y: (key / 256) as u16,
    })
}

// Marks the columns at which a waiting tile crosses row y of the pieces.
fn mark_tile(columns: &mut [bool; 256], a: Tile, y: usize)
    requires { (length columns.old ≡ 256) × Boxed 4096 4096 16 a × (y < 256) }
    ensures { MarksTile a y columns.old columns.new }
{
    if a.kind != 0 && usize::from(a.bottom) < 16 * y + 16 && 16 * y < usize::from(a.top) {
        columns[usize::from(a.left) / 16..usize::from(a.right).div_ceil(16)].fill(true);
    }
}

// Which columns of row y of the pieces wait.
pub fn row_of(t: &[u16], y: usize) -> [bool; 256]
    requires { Plane t.now × (y < 256) }
    ensures { WaitingRow (width t.now) (height t.now) (picture_of t.now) y result }
{
    let table = Table::of(t);
    let mut columns = [false; 256];
    for i in 0..table.count() {
        mark_tile(&mut columns, table.tile(i), y);
    }
    columns
}

// How many of these columns wait.
fn count_waiting(columns: &[bool]) -> usize
    ensures value { result ≡ count_by (λ b. b) columns.now }
    ensures most { result ≤ length columns.now }
{
    columns.iter().filter(|waits| **waits).count()
}

// How many pieces wait.
pub fn waiting_pieces(t: &[u16]) -> usize
    requires { Plane t.now }
    ensures { (result ≡ waiting_pieces (width t.now) (height t.now) (picture_of t.now)) × (result ≤ 65536) }
{
    let table = Table::of(t);
    let columns = usize::from(table.width()).div_ceil(16);
    let rows = usize::from(table.height()).div_ceil(16);
    let mut sum: usize = 0;
    for y in 0..rows {
        sum += count_waiting(&row_of(t, y)[..columns]);
    }
    sum
}
