// Runs and strips of the picture after, piece by piece. Each look-up in the table before goes on from the tile that was found last.
ghost use Rattle.plane.specs.Words.{Says};
ghost use Rattle.brush.specs.Brush.{Near, wide, tall, goal_of, Rightward, Steady, Upward, SameSpan, Unlike};

use crate::painting::Painting;
use plane::tile::Tile;

// Have the two one span and type?
pub fn same_span(s: Tile, t: Tile) -> bool
    ensures { Says result (SameSpan s t) }
{
    s.left == t.left && s.right == t.right && s.kind == t.kind
}

// Is p of another type than r, or does it reach past r's left or right end? Then no run with p in it has r's span and type.
pub fn sticks_out(p: Tile, r: Tile) -> bool
    ensures { Says result (Unlike p r) }
{
    p.kind != r.kind || p.left < r.left || r.right < p.right
}

impl<'a> Painting<'a> {
    // The run of (x,y) from a place at or left of x to its right end, and up to which row it stays so. It is looked for from tile near.
    pub fn run_right(&self, near: u16, x: u16, y: u16) -> Tile
        requires { Near self.now.words near x y }
        ensures { Rightward (wide self.now) (tall self.now) (goal_of self.now) x y result }
    {
        let w = self.width();
        let mut k = self.seek(near, x, y);
        let mut r = Tile {
            bottom: y,
            ..self.piece(k, x, y)
        };
        // A while loop: the step is the end of the piece found, not one.
        while r.right < w {
            k = self.seek(k, r.right, y);
            let u = self.piece(k, r.right, y);
            r.top = r.top.min(u.top);
            if u.kind != r.kind {
                return r;
            }
            r.right = u.right;
        }
        r
    }

    // The run of (x,y), and up to which row it stays so: the same to the left. The two ways are not one function, since bound, square and end
    // of the step differ, and with them all of the loop but the comparison of types.
    pub fn run_at(&self, near: u16, x: u16, y: u16) -> Tile
        requires { Near self.now.words near x y }
        ensures { Steady (wide self.now) (tall self.now) (goal_of self.now) x y result }
    {
        let mut r = self.run_right(near, x, y);
        let mut k = near;
        // A while loop: the step is the start of the piece found, not one.
        while 0 < r.left {
            k = self.seek(k, r.left - 1, y);
            let u = self.piece(k, r.left - 1, y);
            r.top = r.top.min(u.top);
            if u.kind != r.kind {
                return r;
            }
            r.left = u.left;
        }
        r
    }

    // The strip of (x,y), from row y up.
    pub fn strip_at(&self, near: u16, x: u16, y: u16) -> Tile
        requires { Near self.now.words near x y }
        ensures { Upward (wide self.now) (tall self.now) (goal_of self.now) x y result }
    {
        let h = self.height();
        let mut r = self.run_at(near, x, y);
        let mut k = near;
        // A while loop: the step is the top of the run found, not one.
        while r.top < h {
            k = self.seek(k, r.left, r.top);
            if sticks_out(self.piece(k, r.left, r.top), r) {
                return r;
            }
            let u = self.run_at(k, r.left, r.top);
            if !same_span(u, r) {
                return r;
            }
            r.top = u.top;
        }
        r
    }
}
