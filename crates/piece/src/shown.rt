// Does a table show rows of bits in an area? Its rows there are read by walking, as a cut reads them, and compared with the bits.
ghost use Rattle.std.specs.Prelude.{true, ◌≡◌, ◌≤◌, ◌<◌, ◌^◌};
ghost use Rattle.plane.specs.Picture.{area};
ghost use Rattle.plane.specs.Words.{count, picture_of};
ghost use Rattle.piece.specs.Shown.{Readable, RowShown, SameWords, ShowsRows, with_run};

use crate::run::Runs;
use plane::table::Table;
use plane::tile::Area;

// The bits of a row, and the row above the last one that has the same.
#[derive(Clone, Copy)]
pub struct Shown {
    pub word: u64,
    pub top: u16,
}

// The word with its bits from `from` up to `to` set, if the type is 1.
fn with_run(kind: u16, word: u64, from: u16, to: u16) -> u64
    requires { (word < 2 ^ from) × (from ≤ to) × (to ≤ 48) }
    ensures { result ≡ with_run kind word from to }
{
    if kind == 1 {
        word + ((1u64 << to) - (1u64 << from))
    } else {
        word
    }
}

// Reads row y of the area, run by run from tile i on. Up to the least of their tops the area's rows are all the same.
fn row_shown(table: &Table<'_>, i: u16, a: Area, y: u16) -> Shown
    requires { Readable table.now (area a.x1 y a.x2 a.y2) × (i < count table.now) }
    ensures { RowShown (picture_of table.now) (area a.x1 y a.x2 a.y2) result.word result.top }
{
    let mut word = 0;
    let mut top = a.y2;
    for run in Runs::of(table, i, a.x1, y, a.x2) {
        word = with_run(run.kind, word, run.start - a.x1, run.end - a.x1);
        top = top.min(run.top);
    }
    Shown { word, top }
}

// Are the rows from `from` up to `to` all this word?
fn same_up(rows: &[u64; 48], from: usize, to: usize, word: u64) -> bool
    requires { (from ≤ to) × (to ≤ 48) }
    ensures { result ≡ true → SameWords rows.now from to word }
{
    rows[from..to].iter().all(|row| *row == word)
}

// Does the table show these rows in the area? False says nothing.
pub fn shows_rows(t: &[u16], a: Area, rows: &[u64; 48]) -> bool
    requires { Readable t.now a }
    ensures { result ≡ true → ShowsRows (picture_of t.now) a rows.now }
{
    let table = Table::of(t);
    let mut i = 0;
    let mut y = a.y1;
    // A while loop: the step is to the row above those that are the same.
    while y < a.y2 {
        i = table.seek(i, a.x1, y);
        let s = row_shown(&table, i, a, y);
        if !same_up(
            rows,
            usize::from(y - a.y1),
            usize::from(s.top - a.y1),
            s.word,
        ) {
            return false;
        }
        y = s.top;
    }
    true
}
