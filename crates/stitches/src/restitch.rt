// The stitches of a table that has most tiles of another: those to tiles that both have are taken over from the other, and the rest is looked for.
// Alike ties the two tables to what they share, Shared, and the working slice changes with each stitch that is put: no one value carries it.
ghost use Rattle.std.specs.Prelude.{IfSome, ◌≡◌, ◌+◌, ◌-◌, ◌*◌, ◌<◌, ◌≤◌, length};
ghost use Rattle.plane.specs.Strips.{Box};
ghost use Rattle.plane.specs.Words.{count, height, tile_of, width};
ghost use Rattle.stitches.specs.Stitch.{Tight, LinksOf, StitchedTo};
ghost use Rattle.stitches.specs.Restitch.{KnownOr, LinksIn, SeekTo};
ghost use Rattle.shared.specs.Shares.{Alike};

use crate::stitch::{NO_TILE, ends_of, put_links, stitch, stitch_to};
use plane::table::Table;
use plane::tile::Tile;
use shared::shared::{Links, Shared};
use slots::slots::Slots;

// The four stitches of tile i of a table.
fn links_at(t: &Table<'_>, i: u16) -> Links<u16>
    requires i_bound { i < count t.now }
    ensures { LinksIn t.now (tile_of t.now i) result }
{
    Links {
        lb: t.lb(i),
        bl: t.bl(i),
        tr: t.tr(i),
        rt: t.rt(i),
    }
}

// The number of a table's tile that holds a square, looked for from its tile i; the word for no tile where there is no square.
fn seek_to(t: &Table<'_>, i: u16, square: Option<(u16, u16)>) -> u16
    requires i_bound { i < count t.now }
    requires in_window { IfSome square (λ s. (s.0 < width t.now) × (s.1 < height t.now)) }
    ensures { SeekTo t.now square result }
{
    match square {
        Some((x, y)) => t.seek(i, x, y),
        None => NO_TILE,
    }
}

// The tiles of a table at the squares to which the stitches of tile a lead, looked for from its tile i. Tile a need not be one of its tiles.
fn links_sought(t: &Table<'_>, i: u16, a: Tile) -> Links<u16>
    requires i_bound { i < count t.now }
    requires in_window { Box (width t.now) (height t.now) a }
    ensures { LinksIn t.now a result }
{
    let k = t.seek(i, a.left, a.bottom);
    ends_of(a, t.width(), t.height()).map(|square| seek_to(t, k, square))
}

// The tiles of a table at the squares to which the stitches of tile i of the working slice lead.
fn links_before(t: &Table<'_>, tiles: Slots<'_>, i: usize, s: Shared) -> Links<u16>
    requires n_in_bounds { (i < tiles.count) × (tiles.count ≤ 65535) }
    requires tight { Tight tiles.words.now tiles.count (width t.now) (height t.now) }
    requires alike { Alike t.now tiles.words.now tiles.count s }
    ensures { LinksIn t.now (tile_of tiles.entry.words.now i) result }
{
    if i < s.low {
        return links_at(t, i as u16);
    }
    if s.new <= i {
        return links_at(t, (s.old + (i - s.new)) as u16);
    }
    links_sought(t, (i as u16).min(t.count() - 1), tiles.nth(i))
}

// The first tile from j on that does not come before a, or the number of tiles.
fn place_from(tiles: Slots<'_>, j: usize, a: Tile) -> usize
    requires { j ≤ tiles.count }
    ensures { result ≤ tiles.entry.count }
{
    for k in j..tiles.count {
        if !tiles.nth(k).precedes(a) {
            return k;
        }
    }
    tiles.count
}

// For each old tile between the shared ones a guess at the tile that has its place now. Nothing is promised of them.
fn guess_places(old: Slots<'_>, tiles: Slots<'_>, s: Shared, places: &mut [u16; 512])
    requires { (s.old ≤ old.count) × (s.low ≤ tiles.count) × (tiles.count ≤ 65535) }
{
    let mut j = s.low;
    for g in s.low..s.old {
        j = place_from(tiles, j, old.nth(g));
        places[g % 512] = j as u16;
    }
}

// The word of a stitch: the known one, or else as looked for.
fn stitch_known(
    known: Option<u16>,
    tiles: Slots<'_>,
    square: Option<(u16, u16)>,
    k: u16,
    i: usize,
) -> u16
    requires { (i ≤ tiles.count) × (tiles.count ≤ 65535) }
    ensures { KnownOr tiles.entry.words.now tiles.entry.count square known result }
{
    match known {
        Some(g) => g,
        None => stitch_to(tiles, square, k, i),
    }
}

// The stitches of tile i: those of the table before, where they lead to shared tiles; the others are looked for, first at the places that the
// tiles have to which they led, and then from the first of the last shared tiles.
fn links_now(
    t: &Table<'_>,
    tiles: Slots<'_>,
    i: usize,
    s: Shared,
    places: &[u16; 512],
) -> Links<u16>
    requires n_in_bounds { (i < tiles.count) × (tiles.count ≤ 65535) }
    requires tight { Tight tiles.words.now tiles.count (width t.now) (height t.now) }
    requires alike { Alike t.now tiles.words.now tiles.count s }
    ensures { LinksOf tiles.entry.words.now tiles.entry.count (tile_of tiles.entry.words.now i) result }
{
    let before = links_before(t, tiles, i, s);
    let known = before.moved(s);
    if let Some(links) = known.all() {
        return links;
    }
    let to = ends_of(tiles.nth(i), t.width(), t.height());
    let k = before.map(|g| places[usize::from(g) % 512]);
    Links {
        lb: stitch_known(known.lb, tiles, to.lb, k.lb, s.new),
        bl: stitch_known(known.bl, tiles, to.bl, k.bl, s.new),
        tr: stitch_known(known.tr, tiles, to.tr, k.tr, s.new),
        rt: stitch_known(known.rt, tiles, to.rt, k.rt, s.new),
    }
}

// The stitches of the first n tiles, of which those in s are shared with a table.
fn stitch_shared(t: &Table<'_>, work: &mut [u16], n: usize, s: Shared)
    requires n_in_bounds { (4 + 9 * n ≤ length work.old) × (n ≤ 65535) }
    requires tight { Tight work.old n (width t.now) (height t.now) }
    requires alike { Alike t.now work.old n s }
    ensures { StitchedTo work.old n work.new n }
{
    let mut places = [NO_TILE; 512];
    let front = Slots {
        words: work,
        count: s.new,
    };
    guess_places(Slots::from(t), front, s, &mut places);
    for i in 0..n {
        let tiles = Slots {
            words: work,
            count: n,
        };
        let links = links_now(t, tiles, i, s, &places);
        put_links(work, i, links);
    }
}

// The stitches of the first n tiles, taken over from a table where few tiles differ.
pub fn restitch(t: &Table<'_>, work: &mut [u16], n: usize)
    requires n_in_bounds { (4 + 9 * n ≤ length work.old) × (n ≤ 65535) }
    requires tight { Tight work.old n (width t.now) (height t.now) }
    ensures { StitchedTo work.old n work.new n }
{
    let tiles = Slots {
        words: work,
        count: n,
    };
    let s = Shared::of(t, tiles);
    if s.low + n / 8 < s.new {
        stitch(work, n, t.width(), t.height());
    } else {
        stitch_shared(t, work, n, s);
    }
}
