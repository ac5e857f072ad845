// Directions in a local picture, as steps between indexes, and the squares that have all their neighbours in it.
ghost use Rattle.std.specs.Prelude.{◌≡◌, ◌≤◌, ◌<◌};
ghost use Rattle.edges.specs.Edge.{Steps};
ghost use Rattle.edges.specs.Near.{flip_e, flip_w};

// A direction of crossing and a direction along the edge: what a step of each adds to an index and takes from it.
#[derive(Clone, Copy)]
pub struct Turn {
    pub wp: usize,
    pub wm: usize,
    pub ep: usize,
    pub em: usize,
}

// A square with all its neighbours in the picture, and the two directions in which its edge is looked at. They cross.
// This and Side are two types, and no bound is a parameter: each function asks one of the two bounds, and its type says which.
#[derive(Clone, Copy)]
pub struct Crossing {
    pub turn: Turn,
    pub at: usize,
    pub ghost steps: { Steps turn },
    pub ghost low: { 83 ≤ at },
    pub ghost high: { at < 6641 },
}

impl Turn {
    // Crossed to the right, towards the upper end.
    pub const RIGHT_UP: Turn = Turn {
        wp: 1,
        wm: 0,
        ep: 82,
        em: 0,
    };

    // Crossed upward, towards the left end.
    pub const UP_LEFT: Turn = Turn {
        wp: 82,
        wm: 0,
        ep: 0,
        em: 1,
    };

    // Towards the other end.
    pub(crate) fn mirrored(self) -> Turn
        ensures { result ≡ flip_e self }
    {
        Turn {
            ep: self.em,
            em: self.ep,
            ..self
        }
    }

    // Crossed the other way.
    pub(crate) fn reversed(self) -> Turn
        ensures { result ≡ flip_w self }
    {
        Turn {
            wp: self.wm,
            wm: self.wp,
            ..self
        }
    }
}

// A square of a local picture that has others before it, and the two directions in which the edge between them is looked at. They cross.
#[derive(Clone, Copy)]
pub struct Side {
    pub turn: Turn,
    pub at: usize,
    pub ghost steps: { Steps turn },
    pub ghost low: { 82 ≤ at },
    pub ghost high: { at < 6724 },
}

impl Side {
    // Looked at towards the other end.
    pub(crate) fn mirrored(self) -> Side
        ensures { (result.turn ≡ flip_e self.turn) × (result.at ≡ self.at) }
    {
        Side {
            turn: self.turn.mirrored(),
            at: self.at,
        }
    }

    // Crossed the other way.
    pub(crate) fn reversed(self) -> Side
        ensures { (result.turn ≡ flip_w self.turn) × (result.at ≡ self.at) }
    {
        Side {
            turn: self.turn.reversed(),
            at: self.at,
        }
    }
}
