// The words of the working slice: its first tiles put, moved and looked up. No picture is named here. What only reads is asked of Slots; what
// writes takes the slice and the number of its tiles apart, since a struct that holds a lent `&mut` slice has to say in each contract that it
// still holds that slice.
ghost use Rattle.std.specs.Prelude.{◌+◌, ◌-◌, ◌*◌, ◌<◌, ◌≤◌, ◌≡◌, length};
ghost use Rattle.plane.specs.Words.{count, tile_of, Says};
ghost use Rattle.slots.specs.Slots.{InOrderTo, PutTile, PlaceOf, ShiftedUp, Appended, Fresh, WithTile, Sought, Holder, Under, Past, Sorted};

use plane::table::Table;
use plane::tile::Tile;
use plane::words::nth_tile;

// The first tiles of a slice, to be read: the words, and how many tiles count.
#[derive(Clone, Copy)]
pub struct Slots<'a> {
    pub words: &'a [u16],
    pub count: usize,
    pub ghost whole: { 4 + 9 * count ≤ length words.now },
}

// The tiles of a table.
impl<'a> From<&Table<'a>> for Slots<'a> {
    ghost from_gives = { λ t s. (s.words.now ≡ t.now) × (s.count ≡ count t.now) × (s.count ≤ 65535) };

    fn from(table: &Table<'a>) -> Slots<'a> {
        Slots {
            words: table.words(),
            count: usize::from(table.count()),
        }
    }
}

impl<'a> Slots<'a> {
    // Tile i.
    pub fn nth(self, i: usize) -> Tile
        requires { i < self.count }
        ensures { result ≡ tile_of self.entry.words.now i }
    {
        nth_tile(self.words, i)
    }

    // That tiles are in order is asked of the look-ups by halves alone, so it is no fact of every Slots.
    // How many of the tiles come before t, by halves.
    pub fn place_of(self, t: Tile) -> usize
        requires in_order_to { InOrderTo self.words.now self.count }
        ensures { PlaceOf self.entry.words.now self.entry.count t result }
    {
        let mut i = 0;
        let mut j = self.count;
        // A while loop: each step halves what is left, and the words are no list of tiles that could be searched by halves.
        while i < j {
            let m = i + (j - i) / 2;
            if self.nth(m).precedes(t) {
                i = m + 1;
            } else {
                j = m;
            }
        }
        i
    }

    // The first tile from i on that holds (x,y).
    pub fn find_on(self, i: usize, x: u16, y: u16) -> Option<usize>
        ensures { Sought self.entry.words.now i self.entry.count x y result }
    {
        for j in i..self.count {
            if self.nth(j).holds(x, y) {
                return Some(j);
            }
        }
        None
    }

    // The last tile below i that holds (x,y).
    pub fn find_back(self, i: usize, x: u16, y: u16) -> Option<usize>
        requires { i ≤ self.count }
        ensures { Sought self.entry.words.now 0 i x y result }
    {
        for j in (0..i).rev() {
            if self.nth(j).holds(x, y) {
                return Some(j);
            }
        }
        None
    }

    // A tile that holds (x,y): tile k if it does, or else one looked for from tile i down and then up.
    pub fn find_near(self, k: usize, i: usize, x: u16, y: u16) -> Option<usize>
        requires { i ≤ self.count }
        ensures { Sought self.entry.words.now 0 self.entry.count x y result }
    {
        if self.held_at(k, x, y) {
            return Some(k);
        }
        match self.find_back(i, x, y) {
            None => self.find_on(i, x, y),
            below => below,
        }
    }

    // Is there a tile k, and does it hold (x,y)?
    pub fn held_at(self, k: usize, x: u16, y: u16) -> bool
        ensures { Says result (Holder self.entry.words.now self.entry.count k x y) }
    {
        k < self.count && self.nth(k).holds(x, y)
    }

    // Is there a tile k, and does it hold the square under (x,y)?
    pub fn is_under(self, k: usize, x: u16, y: u16) -> bool
        ensures { Says result (Under self.entry.words.now self.entry.count k x y) }
    {
        0 < y && self.held_at(k, x, y - 1)
    }

    // A guess at the tile that holds the square under (x,y): tile k if it does. A guess is any number, since it is tested where it is used.
    pub fn under(self, k: usize, x: u16, y: u16) -> usize
        requires x_bound { x < 65535 }
        requires in_order_to { InOrderTo self.words.now self.count }
    {
        if y == 0 || self.is_under(k, x, y) {
            return k;
        }
        let i = self.place_of(past(x, y - 1));
        self.find_back(i, x, y - 1).unwrap_or(self.count)
    }

    // A tile that holds (x,y). Where tile k holds the square under (x,y), it is tile k or the last that begins at (x,y) or before it, or there
    // is none.
    pub fn find_low(self, k: usize, x: u16, y: u16) -> Option<usize>
        requires x_bound { x < 65535 }
        requires sorted { Sorted self.words.now self.count }
        ensures { Sought self.entry.words.now 0 self.entry.count x y result }
    {
        if self.held_at(k, x, y) {
            return Some(k);
        }
        let i = self.place_of(past(x, y));
        if i == 0 {
            return None;
        }
        if self.held_at(i - 1, x, y) {
            return Some(i - 1);
        }
        if self.is_under(k, x, y) {
            return None;
        }
        self.find_back(i, x, y)
    }
}

// What comes after every tile that begins at (x,y) or before it.
pub fn past(x: u16, y: u16) -> Tile
    requires { x < 65535 }
    ensures { Past x y result }
{
    Tile {
        left: x + 1,
        bottom: y,
        right: 0,
        top: 0,
        kind: 0,
    }
}

// Sets tile i to t.
pub fn put_tile(work: &mut [u16], i: usize, t: Tile)
    requires { 4 + 9 * i + 9 ≤ length work.old }
    ensures { PutTile work.old work.new i t }
{
    let at = 4 + 9 * i;
    work[at] = t.left;
    work[at + 1] = t.bottom;
    work[at + 2] = t.right;
    work[at + 3] = t.top;
    work[at + 4] = t.kind;
}

// Moves the tiles from .. to-1 up by one place.
pub fn shift(work: &mut [u16], from: usize, to: usize)
    requires { (from ≤ to) × (4 + 9 * to + 9 ≤ length work.old) }
    ensures { ShiftedUp work.old work.new from to }
{
    let at = 4 + 9 * from;
    work.copy_within(at..4 + 9 * to, at + 9);
}

// Puts the tiles of t from j on behind the first m, word by word: copy_from_slice would call memmove here, and the archive for C calls nothing
// but memcpy and memset.
pub fn append(t: Slots<'_>, j: usize, work: &mut [u16], m: usize)
    requires { (j ≤ t.count) × (4 + 9 * (m + (t.count - j)) ≤ length work.old) }
    ensures { Appended t.entry.words.now j t.entry.count work.old m work.new }
{
    for i in 0..9 * (t.count - j) {
        work[4 + 9 * m + i] = t.words[4 + 9 * j + i];
    }
}

// Puts t among the first n tiles, at its place.
pub fn insert(work: &mut [u16], n: usize, t: Tile)
    requires n_in_bounds { 4 + 9 * n + 9 ≤ length work.old }
    requires in_order_to { (InOrderTo work.old n) × (Fresh work.old n t) }
    ensures { WithTile work.old work.new n t }
{
    let tiles = Slots {
        words: work,
        count: n,
    };
    let i = tiles.place_of(t);
    shift(work, i, n);
    put_tile(work, i, t);
}
