// A table that is known to be one: the words of a plane, behind a type. Whoever makes a Table proves that its words are a plane's, and
// whoever is lent one need not ask. A contract sees a Table as the list of its words.
ghost use Rattle.std.specs.Prelude.{List, ℕ, ◌≡◌, ◌<◌};
ghost use Rattle.plane.specs.Plane.{Plane};
ghost use Rattle.plane.specs.Words.{count, width, height, kinds, word, tile_of};

use crate::tile::Tile;
use crate::words::{nth_tile, word_at};
use std::marker::Model;

// The words of a table. Each look-up says again that they are a plane's: who is lent a Table learns its invariant from a call alone.
#[derive(Drop)]
pub struct Table<'a> {
    words: &'a [u16],
}

impl<'a> Model for Table<'a> {
    ghost Value = { List ℕ };

    ghost view = { λ t. t.words.now };

    ghost invariant = { λ t. Plane t.words.now };
}

impl<'a> Table<'a> {
    // The table of a plane's words.
    pub fn of(words: &'a [u16]) -> Table<'a>
        requires { Plane words.now }
        ensures { result ≡ words.now }
    {
        Table { words }
    }

    // Its words.
    pub fn words(&self) -> &'a [u16]
        ensures value { result.now ≡ self.now }
        ensures plane { Plane self.now }
    {
        self.words
    }

    // How many tiles it has.
    pub fn count(&self) -> u16
        ensures value { result ≡ count self.now }
        ensures plane { Plane self.now }
    {
        self.words[0]
    }

    // The window's width.
    pub fn width(&self) -> u16
        ensures value { result ≡ width self.now }
        ensures plane { Plane self.now }
    {
        self.words[1]
    }

    // The window's height.
    pub fn height(&self) -> u16
        ensures value { result ≡ height self.now }
        ensures plane { Plane self.now }
    {
        self.words[2]
    }

    // Word k of tile i.
    fn word(&self, i: u16, k: usize) -> u16
        requires { (i < count self.now) × (k < 9) }
        ensures value { result ≡ word self.now i k }
        ensures plane { Plane self.now }
    {
        word_at(self.words, usize::from(i), k)
    }

    // Where tile i begins, from the left.
    pub fn left(&self, i: u16) -> u16
        requires { i < count self.now }
        ensures value { result ≡ word self.now i 0 }
        ensures plane { Plane self.now }
    {
        self.word(i, 0)
    }

    // Where it begins, from below.
    pub fn bottom(&self, i: u16) -> u16
        requires { i < count self.now }
        ensures value { result ≡ word self.now i 1 }
        ensures plane { Plane self.now }
    {
        self.word(i, 1)
    }

    // Where it ends to the right.
    pub fn right(&self, i: u16) -> u16
        requires { i < count self.now }
        ensures value { result ≡ word self.now i 2 }
        ensures plane { Plane self.now }
    {
        self.word(i, 2)
    }

    // Where it ends above.
    pub fn top(&self, i: u16) -> u16
        requires { i < count self.now }
        ensures value { result ≡ word self.now i 3 }
        ensures plane { Plane self.now }
    {
        self.word(i, 3)
    }

    // The tile below its lower left corner.
    pub fn lb(&self, i: u16) -> u16
        requires { i < count self.now }
        ensures value { result ≡ word self.now i 5 }
        ensures plane { Plane self.now }
    {
        self.word(i, 5)
    }

    // The tile left of that corner.
    pub fn bl(&self, i: u16) -> u16
        requires { i < count self.now }
        ensures value { result ≡ word self.now i 6 }
        ensures plane { Plane self.now }
    {
        self.word(i, 6)
    }

    // The tile right of its upper right corner.
    pub fn tr(&self, i: u16) -> u16
        requires { i < count self.now }
        ensures value { result ≡ word self.now i 7 }
        ensures plane { Plane self.now }
    {
        self.word(i, 7)
    }

    // The tile above that corner.
    pub fn rt(&self, i: u16) -> u16
        requires { i < count self.now }
        ensures value { result ≡ word self.now i 8 }
        ensures plane { Plane self.now }
    {
        self.word(i, 8)
    }

    // Tile i.
    pub fn tile(&self, i: u16) -> Tile
        requires { i < count self.now }
        ensures value { result ≡ tile_of self.now i }
        ensures plane { Plane self.now }
    {
        nth_tile(self.words, usize::from(i))
    }
}
