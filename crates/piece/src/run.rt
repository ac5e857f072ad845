// A row read tile by tile: its runs of squares of one type.
ghost use Rattle.std.specs.Prelude.{◌≡◌, ◌<◌, ◌≤◌};
ghost use Rattle.plane.specs.Words.{count, width, height};

use plane::table::Table;

// A run of squares of one type in a row: its columns, its type, and where the tile that holds it ends above.
#[derive(Clone, Copy)]
pub struct Run {
    pub start: u16,
    pub end: u16,
    pub kind: u16,
    pub top: u16,
}

// The runs of row y that are left, from column x up to `end`. The tile of each is looked for from the one before.
#[derive(Drop)]
pub struct Runs<'a> {
    table: &'a Table<'a>,
    tile: u16,
    x: u16,
    y: u16,
    end: u16,
    ghost counted: { tile < count table.now },
    ghost inside: { end ≤ width table.now },
    ghost under: { y < height table.now },
}

impl<'a> Runs<'a> {
    // The runs of row y from column x up to `end`, the first looked for from a tile.
    pub fn of(table: &'a Table<'a>, tile: u16, x: u16, y: u16, end: u16) -> Runs<'a>
        requires { (tile < count table.now) × (end ≤ width table.now) × (y < height table.now) }
        ensures { (result.table.now ≡ table.now) × (result.x ≡ x) × (result.y ≡ y) × (result.end ≡ end) }
    {
        Runs {
            table,
            tile,
            x,
            y,
            end,
        }
    }
}

impl<'a> Iterator for Runs<'a> {
    ghost use Rattle.std.specs.Prelude.{◌-◌};
    ghost use Rattle.std.specs.Iterator.{at_most};
    ghost use Rattle.piece.specs.Runs.{NextRun};

    type Item = Run;

    ghost next_gives = { NextRun };

    ghost remaining = { λ s. at_most (s.end - s.x) };

    fn next(&mut self) -> Option<Run> {
        if self.end <= self.x {
            return None;
        }
        self.tile = self.table.seek(self.tile, self.x, self.y);
        let held = self.table.tile(self.tile);
        let run = Run {
            start: self.x,
            end: held.right.min(self.end),
            kind: held.kind,
            top: held.top,
        };
        self.x = run.end;
        Some(run)
    }
}
