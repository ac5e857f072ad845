// The stitches of the first n tiles: guesses at all of them in one sweep, each then tested, and looked for where it is wrong. The working slice
// and n stand apart, here and in the other files: a struct that held the lent `&mut` slice would have to say in each contract that it still
// holds that slice.
ghost use Rattle.std.specs.Prelude.{◌≡◌, ◌+◌, ◌*◌, ◌<◌, ◌≤◌, length};
ghost use Rattle.stitches.specs.Stitch.{Ends, StitchTo, Tight, LinksOf, PutLinks, SameTiles, StitchedTo};

use crate::guess::guess_links;
use plane::tile::Tile;
use plane::words::word_at;
use shared::shared::Links;
use slots::slots::Slots;

// The word for no tile: of a stitch that leads out of the window, and of a guess that is not made yet.
pub const NO_TILE: u16 = 65535;

// Where the four stitches of a tile lead, in a window w by h.
pub(crate) fn ends_of(t: Tile, w: u16, h: u16) -> Links<Option<(u16, u16)>>
    requires { (0 < t.right) × (0 < t.top) }
    ensures { Ends w h t result }
{
    Links {
        lb: (0 < t.bottom).then(|| (t.left, t.bottom - 1)),
        bl: (0 < t.left).then(|| (t.left - 1, t.bottom)),
        tr: (t.right < w).then(|| (t.right, t.top - 1)),
        rt: (t.top < h).then(|| (t.right - 1, t.top)),
    }
}

// The word of a stitch to a square: the number of the tile that holds it, tile k if it does, or one looked for from tile i down and then up.
pub(crate) fn stitch_to(tiles: Slots<'_>, square: Option<(u16, u16)>, k: u16, i: usize) -> u16
    requires { (i ≤ tiles.count) × (tiles.count ≤ 65535) }
    ensures { StitchTo tiles.entry.words.now tiles.entry.count square result }
{
    let Some((x, y)) = square else {
        return NO_TILE;
    };
    match tiles.find_near(usize::from(k), i, x, y) {
        Some(j) => j as u16,
        None => NO_TILE,
    }
}

// The stitches of tile i, which is t. Its words have guesses at them. That the tiles are tight is asked here and below, and is no type's
// invariant: the words change with each tile that is stitched, so a type over them would have to be made anew at each.
pub fn links_of(tiles: Slots<'_>, w: u16, h: u16, i: usize, t: Tile) -> Links<u16>
    requires n_in_bounds { (i < tiles.count) × (tiles.count ≤ 65535) }
    requires tight { Tight tiles.words.now tiles.count w h }
    requires right_nonzero { (0 < t.right) × (0 < t.top) }
    ensures { LinksOf tiles.entry.words.now tiles.entry.count t result }
{
    let to = ends_of(t, w, h);
    Links {
        lb: stitch_to(tiles, to.lb, word_at(tiles.words, i, 5), i),
        bl: stitch_to(tiles, to.bl, word_at(tiles.words, i, 6), i),
        tr: stitch_to(tiles, to.tr, word_at(tiles.words, i, 7), i),
        rt: stitch_to(tiles, to.rt, word_at(tiles.words, i, 8), i),
    }
}

// Sets the stitches of tile i.
pub fn put_links(work: &mut [u16], i: usize, l: Links<u16>)
    requires { 4 + 9 * i + 9 ≤ length work.old }
    ensures { PutLinks work.old work.new i l }
{
    let at = 4 + 9 * i;
    work[at + 5] = l.lb;
    work[at + 6] = l.bl;
    work[at + 7] = l.tr;
    work[at + 8] = l.rt;
}

// The stitches of the first n tiles, from guesses at them.
pub fn stitch_from(work: &mut [u16], n: usize, w: u16, h: u16)
    requires n_in_bounds { (4 + 9 * n ≤ length work.old) × (n ≤ 65535) }
    requires tight { Tight work.old n w h }
    ensures { StitchedTo work.old n work.new n }
{
    for i in 0..n {
        let tiles = Slots {
            words: work,
            count: n,
        };
        let links = links_of(tiles, w, h, i, tiles.nth(i));
        put_links(work, i, links);
    }
}

// The stitches of the first n tiles.
pub fn stitch(work: &mut [u16], n: usize, w: u16, h: u16)
    requires n_in_bounds { (4 + 9 * n ≤ length work.old) × (n ≤ 65535) }
    requires tight { Tight work.old n w h }
    ensures { StitchedTo work.old n work.new n }
{
    guess_links(work, n);
    stitch_from(work, n, w, h);
}
