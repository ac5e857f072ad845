// Guesses at the stitches of the first n tiles, in one sweep. Nothing is promised of them, but that the tiles stay.
ghost use Rattle.std.specs.Prelude.{◌+◌, ◌*◌, ◌<◌, ◌≤◌, length};
ghost use Rattle.stitches.specs.Stitch.{SameTiles};

use crate::stitch::NO_TILE;
use plane::tile::Tile;
use plane::words::word_at;
use slots::slots::Slots;

// The place of a column in a list by columns.
pub fn column(x: u16) -> usize
    ensures { result < 4096 }
{
    usize::from(x) % 4096
}

// Word k of tile i, if there is such a tile.
pub fn peek(tiles: Slots<'_>, i: u16, k: usize) -> Option<u16>
    requires { k < 9 }
{
    let j = usize::from(i);
    if j < tiles.count {
        Some(word_at(tiles.words, j, k))
    } else {
        None
    }
}

// A guess at stitch k of tile i, of the first n.
pub fn guess(work: &mut [u16], n: usize, i: u16, k: usize, v: u16)
    requires { (4 + 9 * n ≤ length work.old) × (5 ≤ k) × (k < 9) }
    ensures { SameTiles work.old work.new }
{
    let j = usize::from(i);
    if j < n {
        work[4 + 9 * j + k] = v;
    }
}

// Tile j lies on tile i and on those to the right of it up to its right end. The last of them.
pub fn guess_under(
    work: &mut [u16],
    n: usize,
    starts: &[u16; 4096],
    i: u16,
    j: u16,
    right: u16,
) -> u16
    requires { 4 + 9 * n ≤ length work.old }
    ensures { SameTiles work.old work.new }
{
    let mut k = i;
    let mut x = 0;
    // A loop that ends in its middle: where a tile ends is known only once it is found, and that is the step.
    loop {
        guess(work, n, k, 8, j);
        let tiles = Slots {
            words: work,
            count: n,
        };
        let e = peek(tiles, k, 2).unwrap_or(right);
        if e <= x || right <= e {
            return k;
        }
        x = e;
        k = starts[column(x)];
    }
}

// The tile left of a tile that begins at row y and lies on tile i: up the left side of tile i to row y.
pub fn guess_left(tiles: Slots<'_>, i: u16, y: u16) -> Option<u16> {
    let mut k = peek(tiles, i, 6)?;
    let mut top = peek(tiles, k, 3)?;
    // A while loop: each step goes to the tile above.
    while top <= y {
        k = peek(tiles, k, 8)?;
        let e = peek(tiles, k, 3)?;
        if e <= top {
            return Some(k);
        }
        top = e;
    }
    Some(k)
}

// The tile left of tile t, of number j: the tile before, if it ends where t begins, or one beside tile i, which is under t.
pub fn guess_beside(tiles: Slots<'_>, i: u16, j: u16, t: Tile) -> u16 {
    let k = j.saturating_sub(1);
    if peek(tiles, k, 2) == Some(t.left) && peek(tiles, k, 1) == Some(t.bottom) {
        return k;
    }
    guess_left(tiles, i, t.bottom).unwrap_or(NO_TILE)
}

// Guesses at the stitches of tile j, and at those that lead to it. starts has the last tile so far that begins at a column, and
// under is the last tile under the tile before; the last tile under tile j.
pub fn guess_at(work: &mut [u16], n: usize, starts: &mut [u16; 4096], under: u16, j: u16) -> u16
    requires { (4 + 9 * n ≤ length work.old) × (j < n) }
    ensures { SameTiles work.old work.new }
{
    let tiles = Slots {
        words: work,
        count: n,
    };
    let t = tiles.nth(usize::from(j));
    let l = column(t.left);
    let r = column(t.right);
    // The tile under it: the last that began at its left, if it ends here, or the last under the tile before.
    let ends_here = peek(tiles, starts[l], 3) == Some(t.bottom);
    let k = if ends_here { starts[l] } else { under };
    let m = guess_beside(tiles, k, j, t);
    guess(work, n, j, 5, k);
    guess(work, n, j, 6, m);
    guess(work, n, j, 7, starts[r]);
    guess(work, n, m, 7, j);
    starts[l] = j;
    guess_under(work, n, starts, k, j, t.right)
}

// Guesses at the stitches of the first n tiles.
pub fn guess_links(work: &mut [u16], n: usize)
    requires { (4 + 9 * n ≤ length work.old) × (n ≤ 65535) }
    ensures { SameTiles work.old work.new }
{
    // Words, and no Options: each is tested where it is used, and an Option for each column would double the array.
    let mut starts = [NO_TILE; 4096];
    let mut under = NO_TILE;
    for j in 0..n {
        under = guess_at(work, n, &mut starts, under, j as u16);
    }
}
