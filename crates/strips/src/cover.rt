// The rebuild, by covering: of the tiles that begin in the row above the area or lower, those that the area does not touch and those that
// begin below it are kept; then every square in and beside the area that no tile holds has its strip put in; and the tiles that begin
// higher, which come after all these, are put behind. Where there are more strips than room, there is no answer. The painting, the working
// slice and its room stand apart: a struct that held the lent slice would have to say in each contract that it still holds that slice. What the
// slice has come to, Working, is said of the slice, its count and the painting together, anew after each tile that is put in.
ghost use Rattle.std.specs.Prelude.{IfSome, ◌≡◌, ◌+◌, ◌*◌, ◌-◌, ◌<◌, ◌≤◌, min, length};
ghost use Rattle.plane.specs.Words.{count, Says};
ghost use Rattle.brush.specs.Brush.{Near, wide, tall, goal_of};
ghost use Rattle.strips.specs.Cover.{SpotOf, Untouched, LowTo, Kept, Working, RowUnder, AllUnder, Covers, CoversRow, CoversZone, Built};

use brush::painting::Painting;
use plane::tile::{Area, Tile};
use slots::slots::{Slots, append, insert, past, put_tile};

// How far a row is covered: by how many tiles, to where and up to which row; and where the next look-up begins, at a tile of the table and at
// a guess at the tile under the square.
#[derive(Clone, Copy)]
pub struct Spot {
    pub count: usize,
    pub right: u16,
    pub top: u16,
    pub near: u16,
    pub guess: usize,
}

// The spot of n tiles and tile s, and where the next look-up begins.
pub fn spot_of(n: usize, s: Tile, near: u16, guess: usize) -> Spot
    ensures spot { SpotOf n s result }
    ensures next { (result.near ≡ near) × (result.guess ≡ guess) }
{
    Spot {
        count: n,
        right: s.right,
        top: s.top,
        near,
        guess,
    }
}

// Does the tile not touch the area, by a side or a corner?
pub fn is_apart(t: Tile, a: Area) -> bool
    ensures { Says result (Untouched t a) }
{
    t.right < a.x1 || a.x2 < t.left || t.top < a.y1 || a.y2 < t.bottom
}

// How many tiles of the table begin in the row above the area or lower.
pub fn low_tiles(p: &Painting<'_>) -> u16
    ensures { LowTo p.now.words p.now.brush.area result }
{
    let tiles = Slots::from(p.table());
    tiles.place_of(past(p.width(), p.area().y2)) as u16
}

// Tile i of the table, put behind the m tiles of the working slice if it stays or begins below the area.
pub fn keep_one(p: &Painting<'_>, work: &mut [u16], m: usize, i: u16) -> usize
    requires i_bound { (i < count p.now.words) × (length work.old ≡ length p.now.words) }
    requires kept { Kept p.now.words p.now.brush work.old i m }
    ensures { Kept p.now.words p.now.brush work.new (i + 1) result }
{
    let s = p.tile(i);
    if is_apart(s, p.area()) {
        put_tile(work, m, s);
        return m + 1;
    }
    if s.bottom < p.area().y1 {
        put_tile(work, m, p.strip_at(i, s.left, s.bottom));
        return m + 1;
    }
    m
}

// Those of the first n tiles of the table that stay or begin below the area, put into the working slice, and how many.
pub fn keep(p: &Painting<'_>, work: &mut [u16], n: u16) -> usize
    requires n_bound { (n ≤ count p.now.words) × (length work.old ≡ length p.now.words) }
    ensures { Kept p.now.words p.now.brush work.new n result }
{
    let mut m = 0;
    for i in 0..n {
        m = keep_one(p, work, m, i);
    }
    m
}

// Has the square right of the spot covered: finds its tile in the working slice, or puts its strip there. The spot of that tile.
pub fn cover(p: &Painting<'_>, work: &mut [u16], room: usize, at: Spot, y: u16) -> Option<Spot>
    requires near { Near p.now.words at.near at.right y }
    requires working { Working (wide p.now) (tall p.now) (goal_of p.now) work.old at.count room }
    requires row_under { RowUnder work.old at.count at.right (at.right + 1) y }
    ensures covers { Covers (wide p.now) (tall p.now) (goal_of p.now) room work.old at.count at.right y work.new result }
    ensures near { IfSome result (λ r. r.near < count p.now.words) }
{
    let x = at.right;
    let near = p.seek(at.near, x, y);
    let tiles = Slots {
        words: work,
        count: at.count,
    };
    let guess = tiles.under(at.guess, x, y);
    if let Some(i) = tiles.find_low(guess, x, y) {
        return Some(spot_of(at.count, tiles.nth(i), near, guess));
    }
    if room <= at.count {
        return None;
    }
    let s = p.strip_at(near, x, y);
    insert(work, at.count, s);
    Some(spot_of(at.count + 1, s, near, guess))
}

// Has the squares of row y from the right of a spot up to e covered, and the lowest top of their tiles.
pub fn cover_row(
    p: &Painting<'_>,
    work: &mut [u16],
    room: usize,
    from: Spot,
    e: u16,
    y: u16,
) -> Option<Spot>
    requires near_bound { (from.near < count p.now.words) × (e ≤ wide p.now) × (y < tall p.now) }
    requires working { Working (wide p.now) (tall p.now) (goal_of p.now) work.old from.count room }
    requires row_under { RowUnder work.old from.count from.right e y }
    ensures { CoversRow (wide p.now) (tall p.now) (goal_of p.now) room work.old from.count from.right e y work.new result }
{
    let mut r = Spot {
        top: p.height(),
        ..from
    };
    // A while loop: the step is the end of the tile that covers the square, not one.
    while r.right < e {
        let u = cover(p, work, room, r, y)?;
        r = Spot {
            top: r.top.min(u.top),
            ..u
        };
    }
    Some(r)
}

// Has every square of the area and beside it covered, from the area's bottom to the row above it, and how many tiles there are then.
pub fn cover_zone(p: &Painting<'_>, work: &mut [u16], n: usize, room: usize) -> Option<usize>
    requires working { Working (wide p.now) (tall p.now) (goal_of p.now) work.old n room }
    requires all_under { AllUnder work.old n (wide p.now) p.now.brush.area.y1 }
    ensures { CoversZone (wide p.now) (tall p.now) (goal_of p.now) room work.old n (p.now.brush.area.x1 - 1) (min (p.now.brush.area.x2 + 1) (wide p.now)) (min (p.now.brush.area.y2 + 1) (tall p.now)) work.new result }
{
    let a = p.area();
    let x = a.x1.saturating_sub(1);
    let e = p.width().min(a.x2 + 1);
    let f = p.height().min(a.y2 + 1);
    let mut m = n;
    let mut near = 0;
    let mut y = a.y1;
    // A while loop: the step is the top of the rows that are covered, not one.
    while y < f {
        near = p.seek(near, x, y);
        let from = Spot {
            count: m,
            right: x,
            top: y,
            near,
            guess: m,
        };
        let s = cover_row(p, work, room, from, e, y)?;
        m = s.count;
        y = s.top;
    }
    Some(m)
}

// The tiles of the picture after, in the working slice, and how many; none where they are more than the room.
pub fn rebuild(p: &Painting<'_>, work: &mut [u16], room: usize) -> Option<usize>
    requires work_len { (length work.old ≡ length p.now.words) × (4 + 9 * room ≤ length p.now.words) × (count p.now.words ≤ room) }
    ensures { Built (wide p.now) (tall p.now) (goal_of p.now) room work.new result }
{
    let n = usize::from(p.count());
    let low = low_tiles(p);
    let k = keep(p, work, low);
    let m = cover_zone(p, work, k, room)?;
    let j = usize::from(low);
    let r = m + (n - j);
    if room < r {
        return None;
    }
    append(Slots::from(p.table()), j, work, m);
    Some(r)
}
