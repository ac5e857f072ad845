// A brush: the squares that it sets, and what it sets them to. This is the one place where the new picture enters.
ghost use Rattle.std.specs.Prelude.{◌<◌, ◌≤◌, ◌≡◌};
ghost use Rattle.plane.specs.Picture.{bit_of};
ghost use Rattle.plane.specs.Strips.{Holds};
ghost use Rattle.plane.specs.Words.{Says};
ghost use Rattle.brush.specs.Brush.{brush_tile, BrushIn, InArea, KindsBelow, SmallBits, OtherBits, SameBits, InkTile, Clipped};

use plane::tile::{Area, Tile};

// What the squares of an area are set to: all to one type, or each to a bit, bit x - x1 of word y - y1.
#[derive(Clone, Copy)]
pub enum Ink {
    Flat(u16),
    Bits([u64; 48]),
}

// An area, and what its squares are set to.
#[derive(Clone, Copy)]
pub struct Brush {
    pub area: Area,
    pub ink: Ink,
}

// All of an area, as a tile of one type.
pub fn brush_tile(a: Area, kind: u16) -> Tile
    ensures { result ≡ brush_tile a kind }
{
    Tile {
        left: a.x1,
        bottom: a.y1,
        right: a.x2,
        top: a.y2,
        kind,
    }
}

// Bit i of a word.
fn bit_at(word: u64, i: u16) -> u16
    requires { i < 64 }
    ensures { result ≡ bit_of word i }
{
    ((word >> u64::from(i)) % 2) as u16
}

// The places of a word whose bits are not that of place i, as ones.
fn other_bits(word: u64, i: u16) -> u64
    requires { i < 64 }
    ensures { OtherBits word i result }
{
    if bit_at(word, i) == 0 { word } else { !word }
}

// From where to where the bits of a word around place i, below place n, are those of place i: to the next other bit on each side.
fn same_bits(word: u64, i: u16, n: u16) -> (u16, u16)
    requires { (i < n) × (n ≤ 48) }
    ensures { (result.0 ≤ i) × (i < result.1) × (result.1 ≤ n) × SameBits word (bit_of word i) result.0 result.1 }
{
    let other = other_bits(word, i);
    let below = other % (1 << u64::from(i));
    let above = other >> u64::from(i + 1);
    let left = (64 - below.leading_zeros()) as u16;
    let right = i + 1 + above.trailing_zeros() as u16;
    (left, right.min(n))
}

impl Ink {
    // Are the types that it sets below k? Bits are 0 and 1, which every table has.
    pub fn is_below(&self, k: u16) -> bool
        ensures { Says result (KindsBelow self.now k) }
    {
        match self {
            Ink::Flat(kind) => *kind < k,
            Ink::Bits(_) => true,
        }
    }
}

impl Brush {
    // Does the area lie in a window w by h, and is it at most 48 by 48 if bits are set?
    pub fn lies_in(&self, w: u16, h: u16) -> bool
        ensures { Says result (BrushIn w h self.now) }
    {
        let a = self.area;
        match &self.ink {
            Ink::Flat(_) => a.lies_in(w, h),
            Ink::Bits(_) => a.lies_in(w, h) && a.x2 - a.x1 <= 48 && a.y2 - a.y1 <= 48,
        }
    }

    // A rectangle of one type in the brush's area, that holds (x,y): all of it, or of bits the run of equal bits of row y.
    pub fn ink_tile(&self, x: u16, y: u16) -> Tile
        requires inside { InArea self.now.area x y }
        requires small { SmallBits self.now }
        ensures { InkTile self.now x y result }
    {
        let a = self.area;
        match &self.ink {
            Ink::Flat(kind) => brush_tile(a, *kind),
            Ink::Bits(rows) => {
                let word = rows[usize::from(y - a.y1)];
                let (left, right) = same_bits(word, x - a.x1, a.x2 - a.x1);
                Tile {
                    left: a.x1 + left,
                    bottom: y,
                    right: a.x1 + right,
                    top: y + 1,
                    kind: bit_at(word, x - a.x1),
                }
            }
        }
    }

    // A part of s outside the brush's area, or a part of that area, that holds (x,y).
    pub fn clip(&self, s: Tile, x: u16, y: u16) -> Tile
        requires holds { Holds s x y }
        requires small { SmallBits self.now }
        ensures { Clipped s self.now x y result }
    {
        let a = self.area;
        if y < a.y1 {
            Tile {
                top: s.top.min(a.y1),
                ..s
            }
        } else if a.y2 <= y {
            Tile {
                bottom: s.bottom.max(a.y2),
                ..s
            }
        } else if x < a.x1 {
            Tile {
                right: s.right.min(a.x1),
                ..s
            }
        } else if a.x2 <= x {
            Tile {
                left: s.left.max(a.x2),
                ..s
            }
        } else {
            self.ink_tile(x, y)
        }
    }
}
