// A painting: a table, and a brush for its window. The picture after the brush is read off the table before, a tile and the brush at a time.
ghost use Rattle.std.specs.Prelude.{◌≡◌, ◌<◌};
ghost use Rattle.plane.specs.Plane.{Names};
ghost use Rattle.plane.specs.Words.{count, tile_of};
ghost use Rattle.brush.specs.Brush.{Given, Near, Flat, wide, tall, goal_of};

use crate::brush::Brush;
use plane::table::Table;
use plane::tile::{Area, Tile};
use std::marker::Model;

// A table and a brush for its window. Whoever is lent one knows that its tiles are the strips of the picture that it shows.
#[derive(Drop)]
pub struct Painting<'a> {
    table: &'a Table<'a>,
    brush: &'a Brush,
}

impl<'a> Model for Painting<'a> {
    ghost use Rattle.brush.specs.Brush.{Canvas, Given};

    ghost Value = { Canvas };

    ghost view = { λ p. record { words = p.table.now; brush = p.brush.now } };

    ghost invariant = { λ p. Given p.table.now p.brush.now };
}

impl<'a> Painting<'a> {
    // The painting of a table and a brush for its window.
    pub fn of(table: &'a Table<'a>, brush: &'a Brush) -> Painting<'a>
        requires { Given table.now brush.now }
        ensures { result ≡ record { words = table.now; brush = brush.now } }
    {
        Painting { table, brush }
    }

    // The table before the brush.
    pub fn table(&self) -> &'a Table<'a>
        ensures { result.now ≡ self.now.words }
    {
        self.table
    }

    // How many tiles the table has.
    #[tactic(auto, using(crate::proofs::Shows::given_at))]
    pub fn count(&self) -> u16
        ensures value { result ≡ count self.now.words }
        ensures given { Given self.now.words self.now.brush }
    {
        self.table.count()
    }

    // The window's width.
    #[tactic(auto, using(crate::proofs::Shows::given_at))]
    pub fn width(&self) -> u16
        ensures value { result ≡ wide self.now }
        ensures given { Given self.now.words self.now.brush }
    {
        self.table.width()
    }

    // The window's height.
    #[tactic(auto, using(crate::proofs::Shows::given_at))]
    pub fn height(&self) -> u16
        ensures value { result ≡ tall self.now }
        ensures given { Given self.now.words self.now.brush }
    {
        self.table.height()
    }

    // The area that the brush sets.
    #[tactic(auto, using(crate::proofs::Shows::given_at))]
    pub fn area(&self) -> Area
        ensures value { result ≡ self.now.brush.area }
        ensures given { Given self.now.words self.now.brush }
    {
        self.brush.area
    }

    // Tile i of the table.
    #[tactic(auto, using(crate::proofs::Shows::given_at))]
    pub fn tile(&self, i: u16) -> Tile
        requires { i < count self.now.words }
        ensures value { result ≡ tile_of self.now.words i }
        ensures given { Given self.now.words self.now.brush }
    {
        self.table.tile(i)
    }

    // The tile of the table that holds (x,y), looked for from tile near. That both are in the window, Near, is a fact of a
    // table, a tile and a square together, and each call has another square, so no type holds it. Here and in runs.rt near, x and y stand apart with their fact: each
    // look-up has a new square, so a type of them would be made and taken apart at every call.
    #[tactic(auto, using(crate::proofs::Shows::given_at))]
    pub fn seek(&self, near: u16, x: u16, y: u16) -> u16
        requires { Near self.now.words near x y }
        ensures names { Names self.now.words result x y }
        ensures given { Given self.now.words self.now.brush }
    {
        self.table.seek(near, x, y)
    }

    // A rectangle of one type of the picture after, that holds (x,y): a part of tile k, which holds it, or of the brush's area.
    #[tactic(auto, using(crate::proofs::Pieces::clip_flat))]
    pub fn piece(&self, k: u16, x: u16, y: u16) -> Tile
        requires { Names self.now.words k x y }
        ensures { Flat (wide self.now) (tall self.now) (goal_of self.now) x y result }
    {
        self.brush.clip(self.tile(k), x, y)
    }
}
