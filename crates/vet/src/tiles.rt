// The tiles of a table one by one: the header, boxes, order, stitches, and the zero words behind them.
ghost use Rattle.std.specs.Prelude.{◌≡◌, ◌<◌, ◌≤◌, length};
ghost use Rattle.plane.specs.Words.{Says, Tells, Header, count, width, height, kinds, word, tile_of};
ghost use Rattle.plane.specs.Plane.{Boxed, Sized, Stitches, Boxes, InOrder, ZeroAfter, Plane};
ghost use Rattle.vet.specs.Checks.{Touches, Joint, Joints, Sound};

use plane::side::Side;
use plane::tile::Tile;
use plane::words::{in_range, nth_tile, word_at};

// Words that have all the tiles that they count. The look-ups are those of plane's Table, which are for words that passed the whole test; one
// type below both would not tell the callers of a Table that they look at a plane. Header and Boxes, which other steps find, are asked by each
// step that needs them, and are not in the type: the steps that need neither are for words that fail them too.
#[derive(Clone, Copy)]
pub struct Listed<'a> {
    words: &'a [u16],
    ghost whole: { Sized words.now },
}

// Are the header's numbers in their ranges?
pub fn header(t: &[u16]) -> bool
    requires { 4 ≤ length t.now }
    ensures { Says result (Header t.now) }
{
    t[0] != 0 && in_range(t[1], t[2], t[3])
}

// Is the tile a rectangle in a window w by h, of a type below k?
pub fn boxed(a: Tile, w: u16, h: u16, k: u16) -> bool
    ensures { Says result (Boxed w h k a) }
{
    a.left < a.right && a.bottom < a.top && a.right <= w && a.top <= h && a.kind < k
}

impl<'a> Listed<'a> {
    // The tiles of such words.
    pub fn of(words: &'a [u16]) -> Listed<'a>
        requires { Sized words.now }
        ensures { result.words ≡ words.entry }
    {
        Listed { words }
    }

    // How many tiles there are.
    pub(crate) fn count(self) -> u16
        ensures { result ≡ count self.entry.words.now }
    {
        self.words[0]
    }

    // The window's width.
    pub(crate) fn width(self) -> u16
        ensures { result ≡ width self.entry.words.now }
    {
        self.words[1]
    }

    // The window's height.
    pub(crate) fn height(self) -> u16
        ensures { result ≡ height self.entry.words.now }
    {
        self.words[2]
    }

    // The number of types.
    fn kinds(self) -> u16
        ensures { result ≡ kinds self.entry.words.now }
    {
        self.words[3]
    }

    // Word k of tile i.
    pub(crate) fn word(self, i: u16, k: usize) -> u16
        requires { (i < count self.words.now) × (k < 9) }
        ensures { result ≡ word self.entry.words.now i k }
    {
        word_at(self.words, usize::from(i), k)
    }

    // Tile i.
    pub(crate) fn tile(self, i: u16) -> Tile
        requires { i < count self.words.now }
        ensures { result ≡ tile_of self.entry.words.now i }
    {
        nth_tile(self.words, usize::from(i))
    }

    // Is each tile a rectangle in the window, of a type below T?
    pub fn boxes(self) -> bool
        ensures { Says result (Boxes self.entry.words.now) }
    {
        (0..self.count()).all(|i| boxed(self.tile(i), self.width(), self.height(), self.kinds()))
    }

    // Does each tile come before the next?
    pub fn in_order(self) -> bool
        ensures { Says result (InOrder self.entry.words.now) }
    {
        (1..self.count()).all(|i| self.tile(i - 1).precedes(self.tile(i)))
    }

    // Are the words after the last tile zero? Each is looked at, with no way out in between, so that several go at a time.
    pub fn zero_after(self) -> bool
        ensures { Says result (ZeroAfter self.entry.words.now) }
    {
        let mut all = true;
        for word in &self.words[4 + 9 * usize::from(self.count())..] {
            all &= *word == 0;
        }
        all
    }

    // Does tile s have that side at the line, and does the side go past p? Words are looked at one by one, since reading the whole tile first is slower.
    pub fn touches(self, s: u16, side: Side, line: u16, p: u16) -> bool
        ensures { Says result (Touches self.entry.words.now s side line p) }
    {
        if self.count() <= s {
            return false;
        }
        match side {
            Side::Left => self.word(s, 0) == line && self.word(s, 1) <= p && p < self.word(s, 3),
            Side::Bottom => self.word(s, 1) == line && self.word(s, 0) <= p && p < self.word(s, 2),
            Side::Right => self.word(s, 2) == line && self.word(s, 1) <= p && p < self.word(s, 3),
            Side::Top => self.word(s, 3) == line && self.word(s, 0) <= p && p < self.word(s, 2),
        }
    }

    // Is s a stitch to a tile that touches so, if that tile is inside the window?
    pub fn linked(self, inside: bool, s: u16, side: Side, line: u16, p: u16) -> bool
        ensures { Says result (Joint self.entry.words.now inside s side line p) }
    {
        if inside {
            self.touches(s, side, line, p)
        } else {
            s == 65535
        }
    }

    // Do the four stitches of tile i name tiles that touch it? In a plane they meet its sides, so three comparisons do where a square takes four.
    pub fn stitched(self, i: u16) -> bool
        requires { (i < count self.words.now) × (Boxes self.words.now) }
        ensures { Says result (Joints self.entry.words.now i) }
    {
        let (w, h) = (self.width(), self.height());
        let a = self.tile(i);
        self.linked(0 < a.bottom, self.word(i, 5), Side::Top, a.bottom, a.left)
            && self.linked(0 < a.left, self.word(i, 6), Side::Right, a.left, a.bottom)
            && self.linked(a.right < w, self.word(i, 7), Side::Left, a.right, a.top - 1)
            && self.linked(a.top < h, self.word(i, 8), Side::Bottom, a.top, a.right - 1)
    }

    // Are all stitches true?
    pub fn stitches(self) -> bool
        requires { Boxes self.words.now }
        ensures { Tells result (Stitches self.entry.words.now) (Plane self.entry.words.now) }
    {
        (0..self.count()).all(|i| self.stitched(i))
    }

    // The tiles and the stitches, each by itself.
    pub fn sound(self) -> bool
        ensures { Tells result (Sound self.entry.words.now) (Plane self.entry.words.now) }
    {
        self.boxes() && self.in_order() && self.stitches() && self.zero_after()
    }
}
